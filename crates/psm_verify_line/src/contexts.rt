//! Contexts of lines: the blocks of a routine and the actions of its handlers (ISO/IEC 9075-4:1996).
ghost use Rattle.std.specs.Prelude.{◌≡◌, [], None};
ghost use Rattle.psm_cond.specs.Handlers.{context_at};
ghost use Rattle.psm_code.specs.Parts as parts;
ghost use Rattle.psm_code.specs.Rules as rules;
ghost use Rattle.psm_code.specs.RoutineRules as routines;

use psm_code::{Instruction, RawRoutine};
use psm_cond::ContextKind;

/// Whether the context of that number is that of a block.
pub fn is_block(routine: &RawRoutine, context: u32) -> bool
    ensures { result ≡ rules.there (parts.block_at routine.now context) }
{
    match routine.handlers.context(context) {
        Some(context) => is_block_kind(&context.kind),
        None => false,
    }
}

fn is_block_kind(kind: &ContextKind) -> bool
    ensures { result ≡ rules.there (parts.block_of_kind kind.now) }
{
    match kind {
        ContextKind::Block(_) => true,
        ContextKind::Action(_) => false,
    }
}

/// Whether the context of that number is an action of the handler.
pub fn is_action_of(routine: &RawRoutine, handler: usize, context: u32) -> bool
    ensures { result ≡ routines.is_action_context handler (context_at routine.now.handlers context) }
{
    match routine.handlers.context(context) {
        Some(context) => is_action_kind(handler, &context.kind),
        None => false,
    }
}

fn is_action_kind(handler: usize, kind: &ContextKind) -> bool
    ensures { result ≡ routines.is_action_kind handler kind.now }
{
    match kind {
        ContextKind::Block(_) => false,
        ContextKind::Action(number) => handler == *number as usize,
    }
}

fn parent_of(routine: &RawRoutine, context: u32) -> u32
    ensures { result ≡ routines.parent_of_context (context_at routine.now.handlers context) }
{
    match routine.handlers.context(context) {
        Some(context) => context.parent,
        None => 0,
    }
}

/// Whether an instruction about contexts may stand in the context. Each other instruction may.
pub fn stands_right(routine: &RawRoutine, context: u32, instruction: &Instruction) -> bool
    ensures { result ≡ routines.stands_well_formed routine.now (record { context = context; resume = None; stack = []; instruction = instruction.now }) instruction.now }
{
    match instruction {
        Instruction::Enter(number) => {
            is_block(routine, *number) && parent_of(routine, *number) == context
        }
        Instruction::Exit(number) => is_block(routine, *number) && context == *number,
        Instruction::EndAction(number) => is_action_of(routine, *number as usize, context),
        Instruction::End | Instruction::NoReturn => context == 0,
        _ => true,
    }
}

/// The context in which an instruction goes on.
pub fn context_after(routine: &RawRoutine, context: u32, instruction: &Instruction) -> u32
    ensures { result ≡ routines.context_after routine.now (record { context = context; resume = None; stack = []; instruction = instruction.now }) instruction.now }
{
    match instruction {
        Instruction::Enter(number) => *number,
        Instruction::Exit(number) => parent_of(routine, *number),
        _ => context,
    }
}

/// Whether a line is in the context, if it is there.
pub fn is_in(routine: &RawRoutine, context: u32, line: usize) -> bool
    ensures { result ≡ routines.is_in context (parts.line_at routine.now line) }
{
    match routine.lines.context(line) {
        Some(other) => other == context,
        None => true,
    }
}

/// Whether a jump, if there is one, stays in the context.
pub fn jumps_within(routine: &RawRoutine, context: u32, jump: Option<u32>) -> bool
    ensures { result ≡ rules.where_there jump (λ p. routines.is_in context (parts.line_at routine.now p)) }
{
    match jump {
        Some(place) => is_in(routine, context, place as usize),
        None => true,
    }
}
