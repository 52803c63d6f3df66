//! Lines of code that may break a rule.
ghost use Rattle.std.specs.Prelude.{◌≡◌, ◌<◌, [], ◌∷◌, ◌++◌, ℕ, length, slice_get, option_map, IfSome, OnErr, OnOk};
ghost use Rattle.std.specs.List.{All};
ghost use Rattle.std.specs.Option.{option_copied};
ghost use Rattle.psm_exprcode.specs.Lent.{lines_in};
ghost use Rattle.psm_exprcode.specs.Numbered.{lines_of, with_op_at, AreStatedIn};

use crate::lent::NumberedLines;
use crate::op::{Letter, Op};
use crate::stacks::Stacks;
use std::alloc::{AllocError, Global};
use std::marker::Model;

/// A line that has its stack by number.
#[derive(Debug, Drop)]
pub(crate) struct NumberedLine {
    pub(crate) stack: usize,
    pub(crate) op: Op,
}

/// Lines that may break a rule, seen as these. Stacks of lines share what lies below: a line takes memory for
/// those of its letters alone with which it differs from the line before it.
#[derive(Debug, Drop)]
pub struct RawExpr {
    stacks: Stacks,
    lines: Vec<NumberedLine>,
}

impl Model for RawExpr {
    ghost use Rattle.std.specs.Prelude.{List};
    ghost use Rattle.psm_exprcode.specs.declared.op.Line.{Line};
    ghost use Rattle.psm_exprcode.specs.Numbered.{lines_of, AreStatedIn};

    ghost Value = { List Line };

    ghost view = { λ c. lines_of c.stacks c.lines.items };

    ghost invariant = { λ c. AreStatedIn c.stacks c.lines.items };
}

impl RawExpr {
    /// No line.
    pub fn new(alloc: Global) -> RawExpr
        ensures { result ≡ [] }
    {
        RawExpr {
            stacks: Stacks::new(alloc),
            lines: Vec::new(alloc),
        }
    }

    /// Lines that have their stacks by number.
    pub(crate) fn numbered(stacks: Stacks, lines: Vec<NumberedLine>) -> RawExpr
        requires { AreStatedIn stacks lines.items }
        ensures { result ≡ lines_of stacks lines.items }
    {
        RawExpr { stacks, lines }
    }

    /// Puts a line after the others: the letters of the operands that stand before the operation, the last
    /// one at the end, and the operation.
    pub fn push(&mut self, stack: &[Letter], op: Op) -> Result<(), AllocError>
        ensures ok { OnOk result (self.new ≡ self.old ++ record { stack = stack.now; op = op } ∷ []) }
        ensures err { OnErr result (self.new ≡ self.old) }
    {
        let like = last_stack(self.lines.as_slice(), self.stacks.empty());
        let stack = self.stacks.number_of(stack, like)?;
        self.lines.push(NumberedLine { stack, op })?;
        Ok(())
    }

    /// How many lines there are.
    pub fn len(&self) -> usize
        ensures { result ≡ length self.now }
    {
        self.lines.len()
    }

    /// Lends the operation of the line of that number, from 0.
    pub fn op(&self, at: usize) -> Option<&Op>
        ensures op { option_copied result ≡ option_map (λ l. l.op) (slice_get self.now at) }
        ensures within { IfSome result (λ _. at < usize.MAX) }
    {
        match self.lines.get(at) {
            Some(line) => Some(&line.op),
            None => None,
        }
    }

    /// Puts the letters of the line of that number in place of those that stand in the vector, the last one
    /// at the end.
    pub fn stack(&self, at: usize, letters: &mut Vec<Letter>) -> Result<(), AllocError>
        requires { at < length self.now }
        ensures { OnOk result (Some letters.new.items ≡ option_map (λ l. l.stack) (slice_get self.now at)) }
    {
        self.stacks.letters(self.lines[at].stack, letters)
    }

    /// Puts another operation at the line of that number, which keeps its stack. Where there is no such line
    /// nothing is changed.
    #[tactic(auto, using(crate::proofs::Replacing::lines_set, crate::proofs::Replacing::lines_beyond, crate::proofs::Replacing::stated_set))]
    pub fn set_op(&mut self, at: usize, op: Op)
        ensures { self.new ≡ with_op_at self.old at op }
    {
        if at < self.lines.len() {
            let line = &mut self.lines[at];
            line.op = op;
        }
    }

    /// Lends the lines with their stacks.
    pub(crate) fn lent(&self) -> NumberedLines<'_>
        ensures { lines_in result ≡ self.now }
    {
        NumberedLines {
            stacks: &self.stacks,
            lines: self.lines.as_slice(),
        }
    }
}

// The stack of the last line, or the other one where there is no line.
fn last_stack(lines: &[NumberedLine], other: usize) -> usize
    ensures { (n : ℕ) → other < n → All (λ l. l.stack < n) lines.now → result < n }
{
    match lines.last() {
        Some(line) => line.stack,
        None => other,
    }
}
