//! What an operation evaluates to.
ghost use Rattle.std.specs.Prelude.{reverse};
ghost use Rattle.psm_exprcode.specs.Applied.{applied};
ghost use Rattle.psm_exprcode.specs.Fits.{Fits, Carries};
ghost use Rattle.psm_exprcode.specs.Operations.{taken};

use crate::comparing::{Test, compare_two, null_if, test_among, test_between, test_null};
use crate::deciding::{and_two, not_one, or_two};
use crate::moving::{cast_one, drop_last, duplicate, jump_not, jump_set, nip, put_copy, put_named};
use crate::numbers::{add_two, div_two, mul_two, negate, rescale, sub_two};
use crate::op::Op;
use crate::operand::{Next, Operand};
use crate::texts::{
    concatenate_two, count_one, find_two, like_three, like_two, lower_one, part_three, part_two,
    trim_one, upper_one,
};
use psm_value::{Datum, ValueFault};
use std::alloc::Global;

/// Carries out one operation over the operands, the last one at the end: what it takes is taken off, and its
/// result is put on. Null comes first: a null operand gives null or unknown, and no condition is asked.
///
/// The operands that the operation takes have to be there, of the letters that the table of operations says,
/// and so have the column and the variable that it names; its type, scale or constant is within bounds.
/// A condition comes exactly where it is expected. After it, and where memory runs out, the operands below those
/// that the operation takes are unchanged, and those are gone (ISO/IEC 9075:1992, clauses 6 and 8).
#[inline(always)]
pub fn apply(
    alloc: Global,
    op: &Op,
    operands: &mut Vec<Operand>,
    row: &[Datum],
    vars: &[Datum],
) -> Result<Next, ValueFault>
    requires { Fits op.now (reverse operands.old.items) row.now vars.now }
    ensures { Carries (taken op.now) (λ os. applied op.now os row.now vars.now) operands.old result operands.new }
{
    match op {
        Op::Constant(_, value) => put_copy(alloc, operands, value),
        Op::Variable(index) => put_named(alloc, operands, vars, *index),
        Op::Column(index) => put_named(alloc, operands, row, *index),
        Op::Duplicate => duplicate(alloc, operands),
        Op::Drop => Ok(drop_last(operands)),
        Op::DropBelow => nip(operands),
        Op::Negate => negate(operands),
        Op::Add => add_two(operands),
        Op::Subtract => sub_two(operands),
        Op::Multiply => mul_two(operands),
        Op::Divide => div_two(operands),
        Op::Rescale(scale) => rescale(operands, *scale),
        Op::Concatenate => concatenate_two(alloc, operands),
        Op::CharacterLength => count_one(operands),
        Op::Position => find_two(operands),
        Op::SubstringFrom => part_two(alloc, operands),
        Op::SubstringFromFor => part_three(alloc, operands),
        Op::Trim(side) => trim_one(alloc, operands, *side),
        Op::Upper => upper_one(alloc, operands),
        Op::Lower => lower_one(alloc, operands),
        Op::Equal => compare_two(operands, Test::Equal),
        Op::NotEqual => compare_two(operands, Test::Unequal),
        Op::Less => compare_two(operands, Test::Less),
        Op::LessOrEqual => compare_two(operands, Test::AtMost),
        Op::Greater => compare_two(operands, Test::Greater),
        Op::GreaterOrEqual => compare_two(operands, Test::AtLeast),
        Op::And => and_two(operands),
        Op::Or => or_two(operands),
        Op::Not => not_one(operands),
        Op::IsNull => test_null(operands),
        Op::Like => like_two(operands),
        Op::LikeEscape => like_three(operands),
        Op::Between => test_between(operands),
        Op::In(count) => test_among(operands, *count),
        Op::NullIf => null_if(operands),
        Op::Cast(to) => cast_one(alloc, operands, *to),
        Op::Jump(index) => Ok(Next::Jump(*index)),
        Op::JumpUnlessTrue(index) => Ok(jump_not(operands, *index)),
        Op::JumpUnlessNull(index) => Ok(jump_set(operands, *index)),
    }
}
