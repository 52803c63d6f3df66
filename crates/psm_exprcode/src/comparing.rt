//! Comparisons of values (ISO/IEC 9075:1992, 8.2), and BETWEEN, IN and NULLIF, which stand for them.
ghost use Rattle.std.specs.Prelude.{◌≡◌, ◌<◌, ◌+◌, suc, reverse, drop, take, vec_len, length, IsTrue, Ok};
ghost use Rattle.psm_exprcode.specs.Applied.{compares, on_value, on_three, on_many, value_of_two, with_truth};
ghost use Rattle.psm_exprcode.specs.Among.{data_in};
ghost use Rattle.psm_exprcode.specs.Comparison.{truth_of, holds, judged, tested, between, among, unless_equal, is_null};
ghost use Rattle.psm_exprcode.specs.Fits.{are_values, Carries};

use crate::operand::{Next, Operand};
use crate::stack::{last_two, pop_three, pop_two, pop_value, put_for_two, put_truth, put_value};
use psm_value::{Datum, Truth, ValueFault, compare};
use std::cmp::Ordering;

/// What a comparison asks of the order of two values.
#[derive(Clone, Copy, Debug, PartialEq, Eq)]
pub(crate) enum Test {
    Equal,
    Unequal,
    Less,
    AtMost,
    Greater,
    AtLeast,
}

impl Test {
    fn holds(self, order: Ordering) -> bool
        ensures { result ≡ holds self order }
    {
        match self {
            Test::Equal => order.is_eq(),
            Test::Unequal => order.is_ne(),
            Test::Less => order.is_lt(),
            Test::AtMost => order.is_le(),
            Test::Greater => order.is_gt(),
            Test::AtLeast => order.is_ge(),
        }
    }

    fn judge(self, first: &Datum, second: &Datum) -> Truth
        ensures { result ≡ tested self first.now second.now }
    {
        match compare(first, second) {
            Some(order) => decided(self.holds(order)),
            None => Truth::Unknown,
        }
    }
}

pub(crate) fn decided(test: bool) -> Truth
    ensures { result ≡ truth_of test }
{
    if test { Truth::True } else { Truth::False }
}

#[inline(always)]
pub(crate) fn compare_two(operands: &mut Vec<Operand>, test: Test) -> Result<Next, ValueFault>
    requires { IsTrue (are_values 2 (reverse operands.old.items)) }
    ensures { Carries 2 (compares test) operands.old result operands.new }
{
    let (first, second) = last_two(operands.as_slice());
    let truth = test.judge(first, second);
    put_for_two(operands, Operand::Truth(truth));
    Ok(Next::FallThrough)
}

#[inline(never)]
pub(crate) fn test_between(operands: &mut Vec<Operand>) -> Result<Next, ValueFault>
    requires { IsTrue (are_values 3 (reverse operands.old.items)) }
    ensures { Carries 3 (on_three (λ a low high below. with_truth below (Ok (between a low high)))) operands.old result operands.new }
{
    let (value, low, high) = pop_three(operands);
    let truth = is_between(&value, &low, &high);
    put_truth(operands, truth)?;
    Ok(Next::FallThrough)
}

fn is_between(value: &Datum, low: &Datum, high: &Datum) -> Truth
    ensures { result ≡ between value.now low.now high.now }
{
    let above = Test::AtLeast.judge(value, low);
    above.and(Test::AtMost.judge(value, high))
}

#[inline(never)]
pub(crate) fn null_if(operands: &mut Vec<Operand>) -> Result<Next, ValueFault>
    requires { IsTrue (are_values 2 (reverse operands.old.items)) }
    ensures { Carries 2 (value_of_two (λ a b. Ok (unless_equal a b))) operands.old result operands.new }
{
    let (value, other) = pop_two(operands);
    put_value(operands, without_equal(value, &other))?;
    Ok(Next::FallThrough)
}

fn without_equal(value: Datum, other: &Datum) -> Datum
    ensures { result ≡ unless_equal value other.now }
{
    if Test::Equal.judge(&value, other).is_true() {
        Datum::Null
    } else {
        value
    }
}

pub(crate) fn test_null(operands: &mut Vec<Operand>) -> Result<Next, ValueFault>
    requires { IsTrue (are_values 1 (reverse operands.old.items)) }
    ensures { Carries 1 (on_value (λ a below. with_truth below (Ok (truth_of (is_null a))))) operands.old result operands.new }
{
    let value = pop_value(operands);
    put_truth(operands, decided(is_null_value(&value)))?;
    Ok(Next::FallThrough)
}

pub(crate) fn is_null_value(value: &Datum) -> bool
    ensures { result ≡ is_null value.now }
{
    matches!(value, Datum::Null)
}

#[inline(never)]
pub(crate) fn test_among(operands: &mut Vec<Operand>, count: u32) -> Result<Next, ValueFault>
    requires { IsTrue (are_values (suc count) (reverse operands.old.items)) }
    ensures { Carries (suc count) (on_many count (λ bs. on_value (λ a below. with_truth below (Ok (among a bs))))) operands.old result operands.new }
{
    let index = index_below(operands.as_slice(), count);
    let truth = judge_among(operands.as_slice(), count, index);
    operands.truncate(index);
    put_truth(operands, truth)?;
    Ok(Next::FallThrough)
}

// How many operands stand below a value with n others on it.
#[tactic(auto, using(crate::proofs::Among::enough))]
fn index_below(operands: &[Operand], count: u32) -> usize
    requires { IsTrue (are_values (suc count) (reverse operands.now)) }
    ensures index { result + suc count ≡ length operands.now }
    ensures below { drop (suc count) (reverse operands.now) ≡ reverse (take result operands.now) }
{
    operands.len() - 1 - count as usize
}

// Whether the value at the index is among the others that stand on it.
fn judge_among(operands: &[Operand], count: u32, index: usize) -> Truth
    requires values { IsTrue (are_values (suc count) (reverse operands.now)) }
    requires index { index + suc count ≡ length operands.now }
    ensures { on_many count (λ bs. on_value (λ a below. with_truth below (Ok (among a bs)))) (reverse operands.now) ≡ with_truth (reverse (take index operands.now)) (Ok result) }
{
    match &operands[index] {
        Operand::Value(value) => judge_each(value, after(operands, index)),
        Operand::Truth(_) => unreachable!(),
    }
}

fn after(operands: &[Operand], index: usize) -> &[Operand]
    requires { index < length operands.now }
    ensures { result.now ≡ drop (index + 1) operands.now }
{
    &operands[index + 1..]
}

// Whether a value is equal to one of the others.
fn judge_each(value: &Datum, others: &[Operand]) -> Truth
    ensures { result ≡ among value.now (data_in (reverse others.now)) }
{
    let mut truth = Truth::False;
    for other in others {
        if let Operand::Value(other) = other {
            truth = Test::Equal.judge(value, other).or(truth);
        }
    }
    truth
}
