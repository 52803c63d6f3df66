//! Lines of a routine that are written one after another.
ghost use Rattle.std.specs.Prelude.{◌≡◌, ◌∷◌, [], ◌++◌, drop, length, reverse, slice_get, IfOk};

use crate::instruction::Instruction;
use crate::lines::{Lines, NumberedLine};
use psm_exprcode::{Letter, LetterStack};
use std::alloc::{AllocError, Global};
use std::marker::Model;

/// The lines so far, and the letters of the operands after them. A line takes no time for the letters on which it stands: only the
/// letters that are put and taken off between two lines count.
#[derive(Debug, Drop)]
pub struct LinesWriter {
    stack: LetterStack,
    lines: Vec<NumberedLine>,
}

impl Model for LinesWriter {
    ghost use Rattle.psm_code.specs.Numbered.{lines_of, AreStatedIn};
    ghost use Rattle.psm_code.specs.Writing.{Writing};
    ghost use Rattle.psm_exprcode.specs.Writing.{letters_now};

    ghost Value = { Writing };

    ghost view = { λ w. record { lines = lines_of w.stack.stacks w.lines.items; stack = letters_now w.stack } };

    ghost invariant = { λ w. AreStatedIn w.stack.stacks w.lines.items };
}

impl LinesWriter {
    /// No line yet, and no operand.
    pub fn new(alloc: Global) -> LinesWriter
        ensures { result ≡ record { lines = []; stack = [] } }
    {
        LinesWriter {
            stack: LetterStack::new(alloc),
            lines: Vec::new(alloc),
        }
    }

    /// Writes a line with that instruction, which leaves the letters as they are.
    pub fn line(
        &mut self,
        context: u32,
        resume: Option<u32>,
        instruction: Instruction,
    ) -> Result<(), AllocError>
        ensures { IfOk result (λ _. self.new ≡ record { lines = self.old.lines ++ record { context = context; resume = resume; stack = reverse self.old.stack; instruction = instruction } ∷ []; stack = self.old.stack }) }
    {
        let stack = self.stack.number();
        self.lines.push(NumberedLine {
            context,
            resume,
            stack,
            instruction,
        })?;
        Ok(())
    }

    /// Takes n letters off, or all that there are.
    pub fn take(&mut self, count: usize)
        ensures { self.new ≡ record { lines = self.old.lines; stack = drop count self.old.stack } }
    {
        self.stack.take(count);
    }

    /// Puts a letter on the others.
    pub fn put(&mut self, letter: Letter) -> Result<(), AllocError>
        ensures { IfOk result (λ _. self.new ≡ record { lines = self.old.lines; stack = letter ∷ self.old.stack }) }
    {
        self.stack.put(letter)
    }

    /// Puts letters on the others, the first one last.
    pub fn put_all(&mut self, letters: &[Letter]) -> Result<(), AllocError>
        ensures { IfOk result (λ _. self.new ≡ record { lines = self.old.lines; stack = letters.now ++ self.old.stack }) }
    {
        self.stack.put_all(letters)
    }

    /// The letter that n others stand on. Takes the time of those.
    pub fn letter_below(&self, others: usize) -> Option<Letter>
        ensures { result ≡ slice_get self.now.stack others }
    {
        self.stack.letter_below(others)
    }

    /// How many letters there are. Takes the time of all of them.
    pub fn height(&self) -> usize
        ensures { result ≡ length self.now.stack }
    {
        self.stack.height()
    }

    /// How many lines there are.
    pub fn len(&self) -> usize
        ensures { result ≡ length self.now.lines }
    {
        self.lines.len()
    }

    /// Gives the lines back.
    pub fn into_lines(self) -> Lines
        ensures { result ≡ self.lines }
    {
        let LinesWriter { stack, lines } = self;
        Lines::numbered(stack.into_stacks(), lines)
    }
}
