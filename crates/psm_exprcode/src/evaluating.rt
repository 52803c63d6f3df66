//! The value of an expression.
ghost use Rattle.std.specs.Prelude.{◌≡◌, ◌<◌, ◌^◌, [], IsTrue, IsSome, IfOk};
ghost use Rattle.psm_exprcode.specs.declared.op.Letter.{Letter};
ghost use Rattle.psm_exprcode.specs.Evaluated.{evaluated, line_after as line_that_follows, Evaluates, TypeChecks};
ghost use Rattle.psm_exprcode.specs.Kinds.{is_of};

use crate::applying::apply;
use crate::code::ExprCode;
use crate::operand::{Next, Operand};
use crate::raw::RawExpr;
use crate::stack::pop;
use psm_value::{Datum, ValueFault};
use std::alloc::Global;

/// The value of an expression: its operations one after another from the first line, and the one operand
/// that stands at the end, or the first condition that an operation raises. No operation is stuck.
/// The operand is of the letter with which the code ends: a truth value for B, a number or null for N, a
/// text or null for T.
///
/// The columns and the variables have to be of kinds that the code fits; null is of each kind. Memory is
/// taken for texts and for the operands alone (ISO/IEC 9075:1992, clauses 6 and 8).
pub fn eval(
    alloc: Global,
    code: &ExprCode,
    row: &[Datum],
    vars: &[Datum],
) -> Result<Operand, ValueFault>
    requires { (end : Letter) × TypeChecks code.now row.now vars.now end }
    ensures value { Evaluates (evaluated code.now row.now vars.now) result }
    ensures never_stuck { IsSome (evaluated code.now row.now vars.now) }
    ensures letter { (end : Letter) → TypeChecks code.now row.now vars.now end → IfOk result (λ o. IsTrue (is_of end o)) }
{
    eval_on(alloc, &mut Vec::new(alloc), code, row, vars)
}

/// As [`eval`], over an operand stack that is lent, so that many rows need one stack. What stands there is
/// dropped first, and with every answer the stack is empty.
pub fn eval_on(
    alloc: Global,
    operands: &mut Vec<Operand>,
    code: &ExprCode,
    row: &[Datum],
    vars: &[Datum],
) -> Result<Operand, ValueFault>
    requires { (end : Letter) × TypeChecks code.now row.now vars.now end }
    ensures value { Evaluates (evaluated code.now row.now vars.now) result }
    ensures never_stuck { IsSome (evaluated code.now row.now vars.now) }
    ensures letter { (end : Letter) → TypeChecks code.now row.now vars.now end → IfOk result (λ o. IsTrue (is_of end o)) }
    ensures empty { operands.new.items ≡ [] }
{
    operands.clear();
    let answer = run(alloc, operands, code.lines(), row, vars);
    operands.clear();
    answer
}

fn run(
    alloc: Global,
    operands: &mut Vec<Operand>,
    lines: &RawExpr,
    row: &[Datum],
    vars: &[Datum],
) -> Result<Operand, ValueFault>
    requires empty { operands.old.items ≡ [] }
    requires type_checks { (end : Letter) × TypeChecks lines.now row.now vars.now end }
    ensures value { Evaluates (evaluated lines.now row.now vars.now) result }
    ensures never_stuck { IsSome (evaluated lines.now row.now vars.now) }
{
    let mut index: usize = 0;
    while let Some(op) = lines.op(index) {
        let next = apply(alloc, op, operands, row, vars)?;
        index = line_after(index, next);
    }
    Ok(pop(operands))
}

// The index after that of a line.
fn line_after(at: usize, next: Next) -> usize
    requires { at < usize.MAX }
    ensures { result ≡ line_that_follows at next }
{
    match next {
        Next::FallThrough => at + 1,
        Next::Jump(index) => index as usize,
    }
}
