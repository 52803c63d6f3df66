//! AND, OR and NOT (ISO/IEC 9075:1992, 8.12).
ghost use Rattle.std.specs.Prelude.{◌≡◌, reverse, IsTrue, Ok};
ghost use Rattle.psm_value.specs.Truth.{both, either, opposite};
ghost use Rattle.psm_exprcode.specs.Applied.{combines, on_truth, with_truth};
ghost use Rattle.psm_exprcode.specs.Fits.{are_truths, Carries};

use crate::operand::{Next, Operand};
use crate::stack::{pop_truth, pop_truths, put_truth};
use psm_value::ValueFault;

pub(crate) fn and_two(operands: &mut Vec<Operand>) -> Result<Next, ValueFault>
    requires { IsTrue (are_truths 2 (reverse operands.old.items)) }
    ensures { Carries 2 (combines both) operands.old result operands.new }
{
    let (first, second) = pop_truths(operands);
    put_truth(operands, first.and(second))?;
    Ok(Next::FallThrough)
}

pub(crate) fn or_two(operands: &mut Vec<Operand>) -> Result<Next, ValueFault>
    requires { IsTrue (are_truths 2 (reverse operands.old.items)) }
    ensures { Carries 2 (combines either) operands.old result operands.new }
{
    let (first, second) = pop_truths(operands);
    put_truth(operands, first.or(second))?;
    Ok(Next::FallThrough)
}

pub(crate) fn not_one(operands: &mut Vec<Operand>) -> Result<Next, ValueFault>
    requires { IsTrue (are_truths 1 (reverse operands.old.items)) }
    ensures { Carries 1 (on_truth (λ t below. with_truth below (Ok (opposite t)))) operands.old result operands.new }
{
    let truth = pop_truth(operands);
    put_truth(operands, truth.not())?;
    Ok(Next::FallThrough)
}
