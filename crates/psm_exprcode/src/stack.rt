//! The operand stack. Operands stand in a vector with the last one at its end. What is asked of it here is a few words of code, which
//! each operation has within itself.
ghost use Rattle.std.specs.Prelude.{◌≡◌, ◌<◌, ◌∷◌, List as Seq, vec_len, drop, reverse, IsTrue, OnOk, OnErr};
ghost use Rattle.psm_exprcode.specs.Fits.{are_values, are_truths};

use crate::operand::Operand;
use psm_value::{Datum, Truth};
use std::alloc::AllocError;

// The last operand, taken off.
#[inline(always)]
pub(crate) fn pop(operands: &mut Vec<Operand>) -> Operand
    requires { 0 < vec_len operands.old }
    ensures { reverse operands.old.items ≡ result ∷ reverse operands.new.items }
{
    operands.pop().unwrap()
}

// The last operand, which is a value, taken off.
#[inline(always)]
pub(crate) fn pop_value(operands: &mut Vec<Operand>) -> Datum
    requires { IsTrue (are_values 1 (reverse operands.old.items)) }
    ensures { reverse operands.old.items ≡ Operand.Value result ∷ reverse operands.new.items }
{
    match operands.pop() {
        Some(Operand::Value(value)) => value,
        _ => unreachable!(),
    }
}

// The last two operands, which are values, taken off; the lower one first.
#[inline(always)]
pub(crate) fn pop_two(operands: &mut Vec<Operand>) -> (Datum, Datum)
    requires { IsTrue (are_values 2 (reverse operands.old.items)) }
    ensures { reverse operands.old.items ≡ Operand.Value result.1 ∷ Operand.Value result.0 ∷ reverse operands.new.items }
{
    let second = pop_value(operands);
    let first = pop_value(operands);
    (first, second)
}

// The last three operands, which are values, taken off; the lowest first.
#[inline(always)]
pub(crate) fn pop_three(operands: &mut Vec<Operand>) -> (Datum, Datum, Datum)
    requires { IsTrue (are_values 3 (reverse operands.old.items)) }
    ensures { reverse operands.old.items ≡ Operand.Value result.2 ∷ Operand.Value result.1 ∷ Operand.Value result.0 ∷ reverse operands.new.items }
{
    let third = pop_value(operands);
    let (first, second) = pop_two(operands);
    (first, second, third)
}

// The last operand, which is a value, and those below it, lent.
#[inline(always)]
pub(crate) fn last_value(operands: &[Operand]) -> (&Datum, &[Operand])
    requires { IsTrue (are_values 1 (reverse operands.now)) }
    ensures { reverse operands.now ≡ Operand.Value result.0.now ∷ reverse result.1.now }
{
    match operands.split_last() {
        Some((Operand::Value(value), below)) => (value, below),
        _ => unreachable!(),
    }
}

// The last two operands, which are values, lent; the lower one first.
#[inline(always)]
pub(crate) fn last_two(operands: &[Operand]) -> (&Datum, &Datum)
    requires { IsTrue (are_values 2 (reverse operands.now)) }
    ensures { (below : Seq Operand) × (reverse operands.now ≡ Operand.Value result.1.now ∷ Operand.Value result.0.now ∷ below) }
{
    let (second, below) = last_value(operands);
    let (first, _) = last_value(below);
    (first, second)
}

// The last two operands, taken off.
#[inline(always)]
pub(crate) fn drop_two(operands: &mut Vec<Operand>)
    requires { 1 < vec_len operands.old }
    ensures { reverse operands.new.items ≡ drop 2 (reverse operands.old.items) }
{
    let _ = pop(operands);
    let _ = pop(operands);
}

// One operand where the last two stood. It takes no memory.
#[inline(always)]
pub(crate) fn put_for_two(operands: &mut Vec<Operand>, operand: Operand)
    requires { 1 < vec_len operands.old }
    ensures { reverse operands.new.items ≡ operand ∷ drop 2 (reverse operands.old.items) }
{
    let _ = pop(operands);
    let at = operands.len() - 1;
    operands[at] = operand;
}

// The last operand, which is a truth value, taken off.
#[inline(always)]
pub(crate) fn pop_truth(operands: &mut Vec<Operand>) -> Truth
    requires { IsTrue (are_truths 1 (reverse operands.old.items)) }
    ensures { reverse operands.old.items ≡ Operand.Truth result ∷ reverse operands.new.items }
{
    match operands.pop() {
        Some(Operand::Truth(truth)) => truth,
        _ => unreachable!(),
    }
}

// The last two operands, which are truth values, taken off; the lower one first.
#[inline(always)]
pub(crate) fn pop_truths(operands: &mut Vec<Operand>) -> (Truth, Truth)
    requires { IsTrue (are_truths 2 (reverse operands.old.items)) }
    ensures { reverse operands.old.items ≡ Operand.Truth result.1 ∷ Operand.Truth result.0 ∷ reverse operands.new.items }
{
    let second = pop_truth(operands);
    let first = pop_truth(operands);
    (first, second)
}

// One value more.
#[inline(always)]
pub(crate) fn put_value(operands: &mut Vec<Operand>, value: Datum) -> Result<(), AllocError>
    ensures ok { OnOk result (reverse operands.new.items ≡ Operand.Value value ∷ reverse operands.old.items) }
    ensures err { OnErr result (reverse operands.new.items ≡ reverse operands.old.items) }
{
    put(operands, Operand::Value(value))
}

// One truth value more.
#[inline(always)]
pub(crate) fn put_truth(operands: &mut Vec<Operand>, truth: Truth) -> Result<(), AllocError>
    ensures ok { OnOk result (reverse operands.new.items ≡ Operand.Truth truth ∷ reverse operands.old.items) }
    ensures err { OnErr result (reverse operands.new.items ≡ reverse operands.old.items) }
{
    put(operands, Operand::Truth(truth))
}

// One operand more. Mostly there is room for it, and then nothing is asked of memory.
#[inline(always)]
pub(crate) fn put(operands: &mut Vec<Operand>, operand: Operand) -> Result<(), AllocError>
    ensures ok { OnOk result (reverse operands.new.items ≡ operand ∷ reverse operands.old.items) }
    ensures err { OnErr result (reverse operands.new.items ≡ reverse operands.old.items) }
{
    if operands.len() < operands.capacity() {
        operands.push_reserved(operand);
        return Ok(());
    }
    operands.push(operand)?;
    Ok(())
}
