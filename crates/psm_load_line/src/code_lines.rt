//! The lines of instructions.
ghost use Rattle.std.specs.Prelude.{◌≡◌, option_map};
ghost use Rattle.psm_words.specs.Reading.{stack_at};
ghost use Rattle.psm_load_line.specs.Groups.{stack_and_instruction_at, whole_line_at};
ghost use Rattle.psm_load_line.specs.InstructionForms.{code_line_at, operation_line_at};
ghost use Rattle.psm_load_line.specs.Readers.{dash_or, index_at, word};
ghost use Rattle.psm_load_line.specs.Said.{Reads};
ghost use Rattle.psm_load_line.specs.Taken.{Takes};

use crate::fault::Unread;
use crate::front::keyword;
use crate::mnemonics::instruction;
use psm_code::{CodeLine, Instruction};
use psm_exprcode::Letter;
use psm_list::List;
use psm_words::number;
use std::alloc::Global;

/// A line of a routine.
pub fn code_line(alloc: Global, line: &[u8]) -> Result<CodeLine, Unread>
    ensures { Reads (code_line_at line.now) result }
{
    whole_line(alloc, line)
}

#[tactic(auto, unfolding(crate::specs::Groups::whole_line_at))]
fn whole_line(alloc: Global, line: &[u8]) -> Result<CodeLine, Unread>
    ensures { Reads (whole_line_at line.now) result }
{
    let (context, rest) = first_index(line).ok_or(Unread::Misfit)?;
    let (resume, rest) = index_or_dash(rest).ok_or(Unread::Misfit)?;
    let (stack, rest) = stack(alloc, rest)?;
    let instruction = instruction(alloc, rest)?;
    Ok(CodeLine {
        context,
        resume,
        stack,
        instruction,
    })
}

/// A line under `EXPR`: the operands before the instruction, which may be no operation, and the instruction.
pub fn operation_line(alloc: Global, line: &[u8]) -> Result<(List<Letter>, Instruction), Unread>
    ensures { Reads (operation_line_at line.now) result }
{
    stack_and_instruction(alloc, line)
}

#[tactic(auto, unfolding(crate::specs::Groups::stack_and_instruction_at))]
fn stack_and_instruction(alloc: Global, line: &[u8]) -> Result<(List<Letter>, Instruction), Unread>
    ensures { Reads (stack_and_instruction_at line.now) result }
{
    let (stack, rest) = first_stack(alloc, line)?;
    let instruction = instruction(alloc, rest)?;
    Ok((stack, instruction))
}

/// The number at the front, and what follows it.
fn first_index(text: &[u8]) -> Option<(u32, &[u8])>
    ensures { option_map (λ x. (x.0, x.1.now)) result ≡ index_at text.now }
{
    let (n, size) = number(u32::MAX, text)?;
    Some((n, &text[size..]))
}

/// A number, or none for a dash, and what follows.
fn index_or_dash(rest: &[u8]) -> Option<(Option<u32>, &[u8])>
    ensures { option_map (λ x. (x.0, x.1.now)) result ≡ word (dash_or index_at) rest.now }
{
    match keyword(b" ", rest)? {
        [b'-', rest @ ..] => Some((None, rest)),
        after => {
            let (n, rest) = first_index(after)?;
            Some((Some(n), rest))
        }
    }
}

/// The operands after a blank, and what follows.
fn stack(alloc: Global, rest: &[u8]) -> Result<(List<Letter>, &[u8]), Unread>
    ensures { Takes (λ x. (x.0, x.1.now)) (word stack_at rest.now) result }
{
    match keyword(b" ", rest) {
        Some(after) => first_stack(alloc, after),
        None => Err(Unread::Misfit),
    }
}

/// The operands at the front, and what follows.
fn first_stack(alloc: Global, text: &[u8]) -> Result<(List<Letter>, &[u8]), Unread>
    ensures { Takes (λ x. (x.0, x.1.now)) (stack_at text.now) result }
{
    match psm_words::stack(alloc, text)? {
        Some((letters, size)) => Ok((List::of(letters), &text[size..])),
        None => Err(Unread::Misfit),
    }
}
