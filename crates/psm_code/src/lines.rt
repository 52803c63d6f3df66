//! The lines of a routine.
ghost use Rattle.std.specs.Prelude.{◌≡◌, ◌<◌, [], ◌∷◌, ◌++◌, ℕ, length, slice_get, option_map, IfSome, OnErr, OnOk};
ghost use Rattle.std.specs.List.{All};
ghost use Rattle.std.specs.Option.{option_copied};
ghost use Rattle.psm_code.specs.Numbered.{lines_of, with_instruction_at, with_resume_at, AreStatedIn};

use crate::instruction::Instruction;
use psm_exprcode::{Letter, Stacks};
use psm_list::List;
use std::alloc::{AllocError, Global};
use std::marker::Model;

/// A line of a routine, as contracts see it: its context, the line at which the run goes on after a condition that it raises, the
/// operands that stand before the instruction, the last one at the end, and the instruction.
#[derive(Debug, Drop)]
pub struct CodeLine {
    pub context: u32,
    pub resume: Option<u32>,
    pub stack: List<Letter>,
    pub instruction: Instruction,
}

/// A line that has its stack by number.
#[derive(Debug, Drop)]
pub(crate) struct NumberedLine {
    pub(crate) context: u32,
    pub(crate) resume: Option<u32>,
    pub(crate) stack: usize,
    pub(crate) instruction: Instruction,
}

/// The lines of a routine, seen as these. Stacks of lines share what lies below: a line takes memory for those of its letters alone
/// with which it differs from the line before it.
#[derive(Debug, Drop)]
pub struct Lines {
    stacks: Stacks,
    lines: Vec<NumberedLine>,
}

impl Model for Lines {
    ghost use Rattle.std.specs.Prelude.{List};
    ghost use Rattle.psm_code.specs.declared.lines.CodeLine.{CodeLine};
    ghost use Rattle.psm_code.specs.Numbered.{lines_of, AreStatedIn};

    ghost Value = { List CodeLine };

    ghost view = { λ c. lines_of c.stacks c.lines.items };

    ghost invariant = { λ c. AreStatedIn c.stacks c.lines.items };
}

impl Lines {
    /// No line.
    pub fn new(alloc: Global) -> Lines
        ensures { result ≡ [] }
    {
        Lines {
            stacks: Stacks::new(alloc),
            lines: Vec::new(alloc),
        }
    }

    /// Lines that have their stacks by number.
    pub(crate) fn numbered(stacks: Stacks, lines: Vec<NumberedLine>) -> Lines
        requires { AreStatedIn stacks lines.items }
        ensures { result ≡ lines_of stacks lines.items }
    {
        Lines { stacks, lines }
    }

    /// Puts a line after the others, with the letters of the operands that stand before its instruction, the last one at the end.
    pub fn push(
        &mut self,
        context: u32,
        resume: Option<u32>,
        stack: &[Letter],
        instruction: Instruction,
    ) -> Result<(), AllocError>
        ensures ok { OnOk result (self.new ≡ self.old ++ record { context = context; resume = resume; stack = stack.now; instruction = instruction } ∷ []) }
        ensures err { OnErr result (self.new ≡ self.old) }
    {
        let like = last_stack(self.lines.as_slice(), self.stacks.empty());
        let stack = self.stacks.number_of(stack, like)?;
        self.lines.push(NumberedLine {
            context,
            resume,
            stack,
            instruction,
        })?;
        Ok(())
    }

    /// How many lines there are.
    pub fn len(&self) -> usize
        ensures { result ≡ length self.now }
    {
        self.lines.len()
    }

    /// Lends the instruction of the line of that number, from 0.
    pub fn instruction(&self, at: usize) -> Option<&Instruction>
        ensures instruction { option_copied result ≡ option_map (λ l. l.instruction) (slice_get self.now at) }
        ensures within { IfSome result (λ _. at < usize.MAX) }
    {
        match self.lines.get(at) {
            Some(line) => Some(&line.instruction),
            None => None,
        }
    }

    /// The context of the line of that number.
    pub fn context(&self, at: usize) -> Option<u32>
        ensures { result ≡ option_map (λ l. l.context) (slice_get self.now at) }
    {
        match self.lines.get(at) {
            Some(line) => Some(line.context),
            None => None,
        }
    }

    /// The line at which the run goes on after a condition that the line of that number raises.
    pub fn resume(&self, at: usize) -> Option<Option<u32>>
        ensures { result ≡ option_map (λ l. l.resume) (slice_get self.now at) }
    {
        match self.lines.get(at) {
            Some(line) => Some(line.resume),
            None => None,
        }
    }

    /// Puts the letters of the line of that number in place of those that stand in the vector, the last one at the end.
    pub fn stack(&self, at: usize, letters: &mut Vec<Letter>) -> Result<(), AllocError>
        requires { at < length self.now }
        ensures { OnOk result (Some letters.new.items ≡ option_map (λ l. l.stack) (slice_get self.now at)) }
    {
        self.stacks.letters(self.lines[at].stack, letters)
    }

    /// Puts another instruction at the line of that number, which keeps all else. Where there is no such line nothing is changed.
    #[tactic(auto, using(crate::proofs::Replacing::instruction_set, crate::proofs::Replacing::beyond, crate::proofs::Replacing::stated_set))]
    pub fn set_instruction(&mut self, at: usize, instruction: Instruction)
        ensures { self.new ≡ with_instruction_at self.old at instruction }
    {
        if at < self.lines.len() {
            let line = &mut self.lines[at];
            line.instruction = instruction;
        }
    }

    /// Sets where the run goes on after a condition of the line of that number. Where there is no such line nothing is changed.
    #[tactic(auto, using(crate::proofs::Replacing::resume_set, crate::proofs::Replacing::resume_beyond, crate::proofs::Replacing::stated_set))]
    pub fn set_resume(&mut self, at: usize, resume: Option<u32>)
        ensures { self.new ≡ with_resume_at self.old at resume }
    {
        if at < self.lines.len() {
            let line = &mut self.lines[at];
            line.resume = resume;
        }
    }
}

// The stack of the last line, or the other one where there is no line.
fn last_stack(lines: &[NumberedLine], other: usize) -> usize
    ensures { (n : ℕ) → other < n → All (λ l. l.stack < n) lines.now → result < n }
{
    match lines.last() {
        Some(line) => line.stack,
        None => other,
    }
}
