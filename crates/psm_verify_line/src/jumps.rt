//! Whether the run goes on at the line that follows, and the lines at which it goes on instead.
ghost use Rattle.std.specs.Prelude.{◌≡◌};
ghost use Rattle.psm_code.specs.declared.instruction.Instruction.TheVariants as instruction;
ghost use Rattle.psm_code.specs.Parts as parts;
ghost use Rattle.psm_code.specs.Rules as rules;
ghost use Rattle.psm_code.specs.RoutineRules as routines;

use psm_code::{Instruction, RawRoutine};
use psm_exprcode::Op;

/// Whether an instruction may go on at the line that follows.
pub fn falls_through(instruction: &Instruction) -> bool
    ensures { result ≡ routines.falls_through instruction.now }
{
    match instruction {
        Instruction::Operation(op) => !matches!(op, Op::Jump(_)),
        Instruction::EndAction(_)
        | Instruction::ReturnValue
        | Instruction::End
        | Instruction::NoReturn
        | Instruction::NoCase => false,
        _ => true,
    }
}

/// The line at which an instruction may go on instead of the one that follows.
pub fn jump_of(instruction: &Instruction) -> Option<u32>
    ensures { result ≡ routines.jump_of instruction.now }
{
    match instruction {
        Instruction::Operation(op) => jump_of_operation(op),
        Instruction::Next { end, .. } => Some(*end),
        _ => None,
    }
}

fn jump_of_operation(op: &Op) -> Option<u32>
    ensures { result ≡ routines.jump_of (instruction.Operation op.now) }
{
    match op {
        Op::Jump(place) | Op::JumpUnlessTrue(place) | Op::JumpUnlessNull(place) => Some(*place),
        _ => None,
    }
}

/// Whether a line, if one is named, is there.
pub fn is_target(routine: &RawRoutine, line: Option<u32>) -> bool
    ensures { result ≡ rules.where_there line (rules.is_there routine.now.lines) }
{
    match line {
        Some(line) => (line as usize) < routine.lines.len(),
        None => true,
    }
}

/// Whether a jump from the line `at`, if there is one, goes ahead or leads to a line that uses a turn.
pub fn jumps_right(routine: &RawRoutine, at: usize, jump: Option<u32>) -> bool
    ensures { result ≡ rules.where_there jump (routines.uses_turn routine.now at) }
{
    match jump {
        Some(place) => at < place as usize || is_turn_at(routine, place as usize),
        None => true,
    }
}

fn is_turn_at(routine: &RawRoutine, line: usize) -> bool
    ensures { result ≡ rules.where_there (parts.line_at routine.now line) (λ l. routines.is_turn l.instruction) }
{
    match routine.lines.instruction(line) {
        Some(instruction) => is_turn(instruction),
        None => true,
    }
}

fn is_turn(instruction: &Instruction) -> bool
    ensures { result ≡ routines.is_turn instruction.now }
{
    match instruction {
        Instruction::Turn => true,
        _ => false,
    }
}
