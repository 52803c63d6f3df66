//! Declared conditions, contexts and handlers (ISO/IEC 9075-4:1996).
ghost use Rattle.std.specs.Prelude.{◌≡◌, map};
ghost use Rattle.psm_cond.specs.declared.handlers.ContextKind.TheVariants as kinds;
ghost use Rattle.psm_code.specs.Parts as parts;
ghost use Rattle.psm_code.specs.Rules as rules;
ghost use Rattle.psm_code.specs.RoutineRules as routines;
ghost use Rattle.psm_verify.specs.Checked.{Finds, checked};

use crate::fault::Stop;
use crate::listing::passed;
use crate::numbers::{are_there, is_there};
use psm_code::{CodeRule, Instruction, RawRoutine};
use psm_cond::{Block, Context, ContextKind, Declared};
use psm_sqlstate::Kind;
use psm_value::SqlState;
use psm_verify_line::is_block;

/// The declared conditions of a routine.
#[tactic(auto, using(crate::proofs::Each::map_next, crate::proofs::LinesInOrder::going_on, crate::proofs::LinesInOrder::stopped))]
pub(crate) fn conditions(line: u64, routine: &RawRoutine) -> Result<u64, Stop>
    ensures { Finds (checked line (map routines.declared_fault routine.now.handlers.declared)) result }
{
    let mut line = line;
    for declared in routine.handlers.declared() {
        line = passed(line, declared_fault(declared))?;
    }
    Ok(line)
}

fn declared_fault(declared: &Declared) -> Option<CodeRule>
    ensures { result ≡ routines.declared_fault declared.now }
{
    match declared {
        Declared::OfState(state) if !is_condition(*state) => Some(CodeRule::Definition),
        _ => None,
    }
}

// An SQLSTATE that isn't success.
pub(crate) fn is_condition(state: SqlState) -> bool
    ensures { result ≡ routines.is_condition state }
{
    match state.kind() {
        Kind::Success => false,
        Kind::Warning | Kind::NotFound | Kind::Exception => true,
    }
}

// ---- contexts

/// Whether a line is there.
pub(crate) fn line_there(routine: &RawRoutine, line: u32) -> bool
    ensures { result ≡ rules.is_there routine.now.lines line }
{
    (line as usize) < routine.lines.len()
}

/// The contexts of a routine, which are numbered from 1.
#[tactic(auto, using(crate::proofs::Contexts::contexts_next, crate::proofs::LinesInOrder::going_on, crate::proofs::LinesInOrder::stopped))]
pub(crate) fn contexts(line: u64, routine: &RawRoutine) -> Result<u64, Stop>
    ensures { Finds (checked line (routines.context_faults routine.now 1 routine.now.handlers.contexts)) result }
{
    let mut line = line;
    for (at, context) in routine.handlers.contexts().iter().enumerate() {
        line = passed(line, context_fault(routine, at + 1, context))?;
    }
    Ok(line)
}

fn context_fault(routine: &RawRoutine, number: usize, context: &Context) -> Option<CodeRule>
    ensures { result ≡ routines.context_fault routine.now number context.now.parent context.now.kind }
{
    match &context.kind {
        ContextKind::Block(block) => block_fault(routine, number, context.parent, block),
        ContextKind::Action(handler) => action_fault(routine, number, context.parent, *handler),
    }
}

fn block_fault(routine: &RawRoutine, number: usize, parent: u32, block: &Block) -> Option<CodeRule>
    ensures { result ≡ routines.context_fault routine.now number parent (kinds.Block block.now) }
{
    if (parent as usize) >= number || !are_there(routine.cursors.items(), block.cursors.items()) {
        Some(CodeRule::Range)
    } else if !line_there(routine, block.exit) {
        Some(CodeRule::Target)
    } else if !is_exit_of(routine, number, block.exit) {
        Some(CodeRule::Context)
    } else {
        None
    }
}

fn is_exit_of(routine: &RawRoutine, context: usize, line: u32) -> bool
    ensures { result ≡ routines.is_exit_of context (parts.line_at routine.now line) }
{
    match routine.lines.instruction(line as usize) {
        Some(instruction) => exits(context, instruction),
        None => true,
    }
}

fn exits(context: usize, instruction: &Instruction) -> bool
    ensures { result ≡ routines.exits context instruction.now }
{
    match instruction {
        Instruction::Exit(number) => context == *number as usize,
        _ => false,
    }
}

fn action_fault(routine: &RawRoutine, number: usize, parent: u32, handler: u32) -> Option<CodeRule>
    ensures { result ≡ routines.context_fault routine.now number parent (kinds.Action handler) }
{
    if (parent as usize) >= number || !is_there(routine.handlers.handlers(), handler) {
        Some(CodeRule::Range)
    } else if !is_declared_in(routine, parent, handler) {
        Some(CodeRule::Context)
    } else {
        None
    }
}

// An action stands in the block that declares its handler.
fn is_declared_in(routine: &RawRoutine, parent: u32, handler: u32) -> bool
    ensures { result ≡ rules.where_there (parts.handler_at routine.now handler) (routines.is_parent routine.now parent) }
{
    match routine.handlers.handlers().get(handler as usize) {
        Some(handler) => handler.context == parent && is_block(routine, parent),
        None => true,
    }
}
