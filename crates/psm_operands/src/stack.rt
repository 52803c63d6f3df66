//! The operand stack of a run.
ghost use Rattle.std.specs.Prelude.{◌≡◌, ◌≤◌, [], ◌∷◌, drop, length, reverse, IfNone, IfSome, OnErr, OnOk, IfOk};
ghost use Rattle.psm_exprcode.specs.Applied.{applied};
ghost use Rattle.psm_exprcode.specs.Fits.{Applies, Fits};
ghost use Rattle.psm_exprcode.specs.Operations.{taken};
ghost use Rattle.psm_operands.specs.Stacked.{Stacked, above, below, first_of};

use psm_exprcode::{Next, Op, Operand, apply};
use psm_value::{Datum, ValueFault};
use std::alloc::{AllocError, Global};
use std::marker::Model;

/// The operands of a run, those of the activation that runs on top. It is seen as the list of those, and the lists of those that
/// each activation keeps which called another one.
#[derive(Debug, Drop)]
pub struct OperandStack {
    // The last one of all at the end.
    operands: Vec<Operand>,
    // For each activation but the first, how many operands stand below its own; the innermost one at the end.
    bases: Vec<usize>,
}

impl Model for OperandStack {
    ghost use Rattle.std.specs.Prelude.{length, reverse};
    ghost use Rattle.psm_operands.specs.Stacked.{Falls, Stacked, stacked};

    ghost Value = { Stacked };

    ghost view = { λ s. stacked (reverse s.bases.items) (reverse s.operands.items) };

    ghost invariant = { λ s. Falls (length s.operands.items) (reverse s.bases.items) };
}

impl OperandStack {
    /// The stack of an activation that nothing called, without an operand. It takes no memory.
    pub fn new(alloc: Global) -> OperandStack
        ensures { result ≡ record { own = []; callers = [] } }
    {
        OperandStack {
            operands: Vec::new(alloc),
            bases: Vec::new(alloc),
        }
    }

    /// How many operands the activation that runs has.
    pub fn len(&self) -> usize
        ensures { result ≡ length self.now.own }
    {
        self.operands.len() - base_of(self.bases.as_slice())
    }

    /// The last operand of the activation that runs, taken off.
    #[inline(always)]
    pub fn pop(&mut self) -> Option<Operand>
        ensures some { IfSome result (λ o. self.old.own ≡ o ∷ self.new.own) }
        ensures none { IfNone result (self.old.own ≡ []) }
        ensures same { IfNone result (self.new ≡ self.old) }
        ensures callers { self.new.callers ≡ self.old.callers }
    {
        if self.operands.len() > base_of(self.bases.as_slice()) {
            self.operands.pop()
        } else {
            None
        }
    }

    /// One operand more. Where memory runs out nothing has changed.
    pub fn push(&mut self, operand: Operand) -> Result<(), AllocError>
        ensures ok { OnOk result (self.new.own ≡ operand ∷ self.old.own) }
        ensures err { OnErr result (self.new.own ≡ self.old.own) }
        ensures callers { self.new.callers ≡ self.old.callers }
    {
        self.operands.push(operand)?;
        Ok(())
    }

    /// Takes all operands of the activation that runs off.
    pub fn clear(&mut self)
        ensures { self.new ≡ record { own = []; callers = self.old.callers } }
    {
        let base = base_of(self.bases.as_slice());
        self.operands.truncate(base);
    }

    /// An activation begins, without an operand; the operands of the one that called it stay. Where memory runs out nothing has
    /// changed.
    pub fn begin(&mut self) -> Result<(), AllocError>
        ensures ok { OnOk result (self.new ≡ record { own = []; callers = self.old.own ∷ self.old.callers }) }
        ensures err { OnErr result (self.new ≡ self.old) }
    {
        self.bases.push(self.operands.len())?;
        Ok(())
    }

    /// The activation that runs ends: its operands are gone, and those of the one that called it are as they were then.
    pub fn end(&mut self)
        ensures { self.new ≡ record { own = first_of self.old.callers; callers = drop 1 self.old.callers } }
    {
        match self.bases.pop() {
            Some(base) => self.operands.truncate(base),
            None => self.operands.clear(),
        }
    }

    /// Carries out one operation over the operands of the activation that runs, as [`apply`] does over a stack of its own.
    #[inline(always)]
    pub fn apply(
        &mut self,
        alloc: Global,
        op: &Op,
        row: &[Datum],
        vars: &[Datum],
    ) -> Result<Next, ValueFault>
        requires { Fits op.now self.old.own row.now vars.now }
        ensures expected { Applies (taken op.now) self.old.own (applied op.now self.old.own row.now vars.now) result self.new.own }
        ensures callers { self.new.callers ≡ self.old.callers }
    {
        apply(alloc, op, &mut self.operands, row, vars)
    }
}

// How many operands stand below those of the activation that runs.
#[inline(always)]
fn base_of(bases: &[usize]) -> usize
    ensures { result ≡ below (reverse bases.now) }
{
    match bases.last() {
        Some(base) => *base,
        None => 0,
    }
}
