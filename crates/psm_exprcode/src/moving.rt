//! Operations that put values on the stack, move operands there, or jump.
ghost use Rattle.std.specs.Prelude.{◌≡◌, ◌<◌, ◌∷◌, ℕ, List as Seq, Some, IfOk, length, slice_get, reverse, IsTrue};
ghost use Rattle.psm_value.specs.declared.datum.Datum.{Datum};
ghost use Rattle.psm_exprcode.specs.declared.operand.Next.TheVariants.{FallThrough};
ghost use Rattle.psm_value.specs.Cast.{cast_of};
ghost use Rattle.psm_value.specs.SqlType.{IsType};
ghost use Rattle.psm_exprcode.specs.Comparison.{is_null};
ghost use Rattle.psm_exprcode.specs.Applied.{Went, with_value, with_named, on_value, on_truth, nipped, set_at, unless_true};
ghost use Rattle.psm_exprcode.specs.Fits.{are_values, are_truths, is_over_value, Carries};

use crate::comparing::is_null_value;
use crate::operand::{Next, Operand};
use crate::stack::{last_value, pop, pop_truth, pop_value, put, put_value};
use psm_value::{Datum, SqlType, ValueFault, cast};
use std::alloc::{AllocError, Global};

#[inline(always)]
pub(crate) fn put_copy(
    alloc: Global,
    operands: &mut Vec<Operand>,
    value: &Datum,
) -> Result<Next, ValueFault>
    ensures { Carries 0 (λ os. Went FallThrough (Operand.Value value.now ∷ os)) operands.old result operands.new }
{
    match value {
        Datum::Num(number) => put_value(operands, Datum::Num(*number))?,
        _ => put_value(operands, value.copy(alloc)?)?,
    }
    Ok(Next::FallThrough)
}

// The value at an index of a row, or of the variables.
#[inline(always)]
pub(crate) fn put_named(
    alloc: Global,
    operands: &mut Vec<Operand>,
    values: &[Datum],
    index: u32,
) -> Result<Next, ValueFault>
    requires { index < length values.now }
    ensures { Carries 0 (λ os. with_named os (slice_get values.now index)) operands.old result operands.new }
{
    put_copy(alloc, operands, &values[index as usize])
}

pub(crate) fn duplicate(alloc: Global, operands: &mut Vec<Operand>) -> Result<Next, ValueFault>
    requires { IsTrue (are_values 1 (reverse operands.old.items)) }
    ensures { Carries 0 (on_value (λ a below. Went FallThrough (Operand.Value a ∷ Operand.Value a ∷ below))) operands.old result operands.new }
{
    let (last, _) = last_value(operands.as_slice());
    let copy = last.copy(alloc)?;
    put_value(operands, copy)?;
    Ok(Next::FallThrough)
}

pub(crate) fn drop_last(operands: &mut Vec<Operand>) -> Next
    requires { IsTrue (are_values 1 (reverse operands.old.items)) }
    ensures { on_value (λ a below. Went FallThrough below) (reverse operands.old.items) ≡ Went result (reverse operands.new.items) }
{
    let _ = pop_value(operands);
    Next::FallThrough
}

pub(crate) fn nip(operands: &mut Vec<Operand>) -> Result<Next, ValueFault>
    requires { IsTrue (is_over_value (reverse operands.old.items)) }
    ensures { Carries 2 nipped operands.old result operands.new }
{
    let last = pop(operands);
    let _ = pop_value(operands);
    put(operands, last)?;
    Ok(Next::FallThrough)
}

pub(crate) fn jump_not(operands: &mut Vec<Operand>, index: u32) -> Next
    requires { IsTrue (are_truths 1 (reverse operands.old.items)) }
    ensures { on_truth (unless_true index) (reverse operands.old.items) ≡ Went result (reverse operands.new.items) }
{
    if pop_truth(operands).is_true() {
        Next::FallThrough
    } else {
        Next::Jump(index)
    }
}

pub(crate) fn jump_set(operands: &mut Vec<Operand>, index: u32) -> Next
    requires { IsTrue (are_values 1 (reverse operands.old.items)) }
    ensures { on_value (set_at index) (reverse operands.old.items) ≡ Went result (reverse operands.new.items) }
{
    if is_last_null(operands.as_slice()) {
        let _ = pop_value(operands);
        Next::FallThrough
    } else {
        Next::Jump(index)
    }
}

// Whether the last operand is null.
fn is_last_null(operands: &[Operand]) -> bool
    ensures { (a : Datum) (below : Seq Operand) → reverse operands.now ≡ Operand.Value a ∷ below → result ≡ is_null a }
{
    matches!(operands, [.., Operand::Value(Datum::Null)])
}

#[inline(never)]
pub(crate) fn cast_one(
    alloc: Global,
    operands: &mut Vec<Operand>,
    to: SqlType,
) -> Result<Next, ValueFault>
    requires bounds { IsType to }
    requires operand { IsTrue (are_values 1 (reverse operands.old.items)) }
    ensures { Carries 1 (on_value (λ a below. with_value below (cast_of to a))) operands.old result operands.new }
{
    let value = pop_value(operands);
    put_value(operands, cast(alloc, to, &value)?)?;
    Ok(Next::FallThrough)
}
