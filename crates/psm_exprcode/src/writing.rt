//! Lines that are written one after another.
ghost use Rattle.std.specs.Prelude.{◌≡◌, ◌∷◌, [], ◌++◌, drop, length, reverse, slice_get, IfOk};
ghost use Rattle.psm_exprcode.specs.Numbered.{with_op_at};

use crate::letter_stack::LetterStack;
use crate::op::{Letter, Op};
use crate::raw::{NumberedLine, RawExpr};
use std::alloc::{AllocError, Global};
use std::marker::Model;

/// The lines so far, and the letters of the operands after them. A line takes no time for the letters on which it stands: only the
/// letters that are put and taken off between two lines count.
#[derive(Debug, Drop)]
pub struct ExprWriter {
    stack: LetterStack,
    lines: Vec<NumberedLine>,
}

impl Model for ExprWriter {
    ghost use Rattle.psm_exprcode.specs.Numbered.{lines_of, AreStatedIn};
    ghost use Rattle.psm_exprcode.specs.Writing.{Writing, letters_now};

    ghost Value = { Writing };

    ghost view = { λ w. record { lines = lines_of w.stack.stacks w.lines.items; stack = letters_now w.stack } };

    ghost invariant = { λ w. AreStatedIn w.stack.stacks w.lines.items };
}

impl ExprWriter {
    /// No line yet, and no operand.
    pub fn new(alloc: Global) -> ExprWriter
        ensures { result ≡ record { lines = []; stack = [] } }
    {
        ExprWriter {
            stack: LetterStack::new(alloc),
            lines: Vec::new(alloc),
        }
    }

    /// Writes a line with that operation, which leaves the letters as they are.
    pub fn line(&mut self, op: Op) -> Result<(), AllocError>
        ensures { IfOk result (λ _. self.new ≡ record { lines = self.old.lines ++ record { stack = reverse self.old.stack; op = op } ∷ []; stack = self.old.stack }) }
    {
        let stack = self.stack.number();
        self.lines.push(NumberedLine { stack, op })?;
        Ok(())
    }

    /// Takes n letters off, or all that there are.
    pub fn take(&mut self, count: usize)
        ensures { self.new ≡ record { lines = self.old.lines; stack = drop count self.old.stack } }
    {
        self.stack.take(count);
    }

    /// Puts a letter on the others.
    pub fn put(&mut self, letter: Letter) -> Result<(), AllocError>
        ensures { IfOk result (λ _. self.new ≡ record { lines = self.old.lines; stack = letter ∷ self.old.stack }) }
    {
        self.stack.put(letter)
    }

    /// The letter that n others stand on. Takes the time of those.
    pub fn letter_below(&self, others: usize) -> Option<Letter>
        ensures { result ≡ slice_get self.now.stack others }
    {
        self.stack.letter_below(others)
    }

    /// How many lines there are.
    pub fn len(&self) -> usize
        ensures { result ≡ length self.now.lines }
    {
        self.lines.len()
    }

    /// Puts another operation at the line of that number, which keeps its stack. Where there is no such line
    /// nothing is changed.
    #[tactic(auto, using(crate::proofs::Replacing::lines_set, crate::proofs::Replacing::lines_beyond, crate::proofs::Replacing::stated_set))]
    pub fn set_op(&mut self, at: usize, op: Op)
        ensures { self.new ≡ record { lines = with_op_at self.old.lines at op; stack = self.old.stack } }
    {
        if at < self.lines.len() {
            let line = &mut self.lines[at];
            line.op = op;
        }
    }

    /// Gives the lines back.
    pub fn into_lines(self) -> RawExpr
        ensures { result ≡ self.lines }
    {
        let ExprWriter { stack, lines } = self;
        RawExpr::numbered(stack.into_stacks(), lines)
    }
}
