//! Operations on numbers (ISO/IEC 9075:1992, 6.12).
ghost use Rattle.std.specs.Prelude.{◌≡◌, ◌<◌, ◌≤◌, drop, reverse, vec_len, IsTrue, Ok};
ghost use Rattle.psm_value.specs.Arithmetic.{sum_of, difference_of, product_of, quotient_of, negated_of};
ghost use Rattle.psm_exprcode.specs.Applied.{value_of_one, value_of_two, on_value, with_value};
ghost use Rattle.psm_exprcode.specs.Fits.{are_values, Applies, Carries};
ghost use Rattle.psm_exprcode.specs.Values.{rescaled};

use crate::operand::{Next, Operand};
use crate::stack::{drop_two, last_two, pop_value, put_for_two, put_value};
use psm_num::NumFault;
use psm_value::{Datum, SqlState, ValueFault, add, div, mul, neg, sub};

#[inline(never)]
pub(crate) fn negate(operands: &mut Vec<Operand>) -> Result<Next, ValueFault>
    requires { IsTrue (are_values 1 (reverse operands.old.items)) }
    ensures { Carries 1 (value_of_one negated_of) operands.old result operands.new }
{
    let number = pop_value(operands);
    put_value(operands, neg(&number))?;
    Ok(Next::FallThrough)
}

pub(crate) fn add_two(operands: &mut Vec<Operand>) -> Result<Next, ValueFault>
    requires { IsTrue (are_values 2 (reverse operands.old.items)) }
    ensures { Carries 2 (value_of_two sum_of) operands.old result operands.new }
{
    let (first, second) = last_two(operands.as_slice());
    let expected = add(first, second);
    give(operands, expected)
}

pub(crate) fn sub_two(operands: &mut Vec<Operand>) -> Result<Next, ValueFault>
    requires { IsTrue (are_values 2 (reverse operands.old.items)) }
    ensures { Carries 2 (value_of_two difference_of) operands.old result operands.new }
{
    let (first, second) = last_two(operands.as_slice());
    let expected = sub(first, second);
    give(operands, expected)
}

#[inline(never)]
pub(crate) fn mul_two(operands: &mut Vec<Operand>) -> Result<Next, ValueFault>
    requires { IsTrue (are_values 2 (reverse operands.old.items)) }
    ensures { Carries 2 (value_of_two product_of) operands.old result operands.new }
{
    let (first, second) = last_two(operands.as_slice());
    let expected = mul(first, second);
    give(operands, expected)
}

#[inline(never)]
pub(crate) fn div_two(operands: &mut Vec<Operand>) -> Result<Next, ValueFault>
    requires { IsTrue (are_values 2 (reverse operands.old.items)) }
    ensures { Carries 2 (value_of_two quotient_of) operands.old result operands.new }
{
    let (first, second) = last_two(operands.as_slice());
    let expected = div(first, second);
    give(operands, expected)
}

// The value that an operation on the last two operands gives stands in their place; where it gives a condition they are gone.
#[inline(always)]
fn give(operands: &mut Vec<Operand>, expected: Result<Datum, SqlState>) -> Result<Next, ValueFault>
    requires { 1 < vec_len operands.old }
    ensures { Applies 2 (reverse operands.old.items) (with_value (drop 2 (reverse operands.old.items)) expected) result (reverse operands.new.items) }
{
    match expected {
        Ok(value) => {
            put_for_two(operands, Operand::Value(value));
            Ok(Next::FallThrough)
        }
        Err(state) => {
            drop_two(operands);
            Err(ValueFault::Condition(state))
        }
    }
}

#[inline(never)]
pub(crate) fn rescale(operands: &mut Vec<Operand>, scale: u8) -> Result<Next, ValueFault>
    requires bound { scale ≤ 18 }
    requires operand { IsTrue (are_values 1 (reverse operands.old.items)) }
    ensures { Carries 1 (on_value (λ a below. with_value below (rescaled scale a))) operands.old result operands.new }
{
    let number = pop_value(operands);
    put_value(operands, at_scale(&number, scale)?)?;
    Ok(Next::FallThrough)
}

// The number with n digits after the point; digits that don't fit there are cut off.
fn at_scale(value: &Datum, scale: u8) -> Result<Datum, SqlState>
    requires { scale ≤ 18 }
    ensures { result ≡ rescaled scale value.now }
{
    match value {
        Datum::Num(number) => match number.rescale(scale) {
            Ok(number) => Ok(Datum::Num(number)),
            Err(NumFault::Range) => Err(SqlState::OUT_OF_RANGE),
            Err(NumFault::Zero) => Err(SqlState::DIVISION_BY_ZERO),
            Err(NumFault::NotNumber) => Err(SqlState::INVALID_CAST),
        },
        _ => Ok(Datum::Null),
    }
}
