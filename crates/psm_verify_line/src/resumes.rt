//! Resumes: the lines at which the run goes on after a statement that raised a condition.
ghost use Rattle.std.specs.Prelude.{◌≡◌, ◌&&◌, not, nat_eq, nat_lt, slice_get, IfOk};
ghost use Rattle.psm_code.specs.Instructions as table;
ghost use Rattle.psm_code.specs.Parts as parts;
ghost use Rattle.psm_code.specs.Rules as rules;
ghost use Rattle.psm_code.specs.RoutineRules as routines;

use crate::contexts::is_in;
use psm_code::{Instruction, Lines, RawRoutine};
use psm_exprcode::Op;
use std::alloc::{AllocError, Global};

/// Whether an instruction states where the run goes on after its condition.
pub fn wants_resume(instruction: &Instruction) -> bool
    ensures { result ≡ routines.wants_resume instruction.now }
{
    match instruction {
        Instruction::NoReturn => false,
        Instruction::Operation(op) => operation_raises(op),
        Instruction::Clear
        | Instruction::Turn
        | Instruction::Enter(_)
        | Instruction::Exit(_)
        | Instruction::EndAction(_)
        | Instruction::End => false,
        _ => true,
    }
}

fn operation_raises(op: &Op) -> bool
    ensures { result ≡ table.operation_raises op.now }
{
    match op {
        Op::Add | Op::Subtract | Op::Multiply | Op::Divide => true,
        Op::Rescale(_) | Op::Concatenate => true,
        Op::SubstringFrom | Op::SubstringFromFor => true,
        Op::Like | Op::LikeEscape | Op::Cast(_) => true,
        _ => false,
    }
}

/// Whether the resume of the line `at`, if one is stated, is a later line of the context that states no operand.
pub fn resumes_at(
    alloc: Global,
    routine: &RawRoutine,
    at: usize,
    context: u32,
    resume: Option<u32>,
) -> Result<bool, AllocError>
    ensures { IfOk result (λ b. b ≡ rules.where_there resume (λ n. nat_lt at n && rules.where_there (parts.line_at routine.now n) (λ m. nat_eq m.context context && not (rules.is_some m.stack)))) }
{
    match resume {
        Some(line) if at < line as usize => is_bare_in(alloc, routine, context, line as usize),
        Some(_) => Ok(false),
        None => Ok(true),
    }
}

fn is_bare_in(
    alloc: Global,
    routine: &RawRoutine,
    context: u32,
    line: usize,
) -> Result<bool, AllocError>
    ensures { IfOk result (λ b. b ≡ rules.where_there (parts.line_at routine.now line) (λ m. nat_eq m.context context && not (rules.is_some m.stack))) }
{
    if is_in(routine, context, line) {
        is_bare(alloc, &routine.lines, line)
    } else {
        Ok(false)
    }
}

/// Whether a line, if it is there, states no operand.
pub fn is_bare(alloc: Global, lines: &Lines, at: usize) -> Result<bool, AllocError>
    ensures { IfOk result (λ b. b ≡ rules.where_there (slice_get lines.now at) (λ l. not (rules.is_some l.stack))) }
{
    if at < lines.len() {
        let mut letters = Vec::new(alloc);
        lines.stack(at, &mut letters)?;
        Ok(letters.is_empty())
    } else {
        Ok(true)
    }
}
