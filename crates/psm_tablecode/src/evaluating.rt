//! What code evaluates to on a row, and what a query takes of one. The operand stack is lent, so that many rows need one.
ghost use Rattle.std.specs.Prelude.{◌≡◌, All, IfSome};
ghost use Rattle.psm_value.specs.Answer.{Gives};
ghost use Rattle.psm_table.specs.Evaluator.{collected, mapped, test_of, values_of};
ghost use Rattle.psm_table.specs.Queries.{is_met, operand_of, taken as taken_of};
ghost use Rattle.psm_tablecode.specs.Codes.{over, truth_in, value_in};
ghost use Rattle.psm_tablecode.specs.Rows.{values_for};
ghost use Rattle.psm_tablecode.specs.TypeChecks.{Runs, RunItems, TypeChecksRow};
ghost use Rattle.psm_exprcode.specs.Evaluated.{evaluated};

use psm_exprcode::{Aggregate, ExprCode, Items, Operand, Query, eval_on};
use psm_table::Row;
use psm_value::{Datum, Dec, Truth, ValueFault};
use std::alloc::Global;

/// What the query takes of a row, if the row meets its test: the values of its items, or what its set functions are of,
/// where one stands for the row that COUNT(*) counts. The test is evaluated first, then the items from the left.
pub fn taken(
    alloc: Global,
    stack: &mut Vec<Operand>,
    query: &Query,
    row: &Row,
    vars: &[Datum],
) -> Result<Option<Row>, ValueFault>
    requires { TypeChecksRow query.now row.now vars.now }
    ensures { Gives (taken_of (test_of (over vars.now) query.now.test) (values_for vars.now query.now.items) row.now) result }
{
    if meets(alloc, stack, &query.test, row.values(), vars)? {
        Ok(Some(values_of_items(alloc, stack, &query.items, row.values(), vars)?))
    } else {
        Ok(None)
    }
}

/// Whether a row meets a test: the test is true on it, and not unknown. Without a test each row does.
pub fn meets(
    alloc: Global,
    stack: &mut Vec<Operand>,
    test: &Option<ExprCode>,
    row: &[Datum],
    vars: &[Datum],
) -> Result<bool, ValueFault>
    requires { IfSome test.now (Runs row.now vars.now) }
    ensures { Gives (mapped is_met (test_of (over vars.now) test.now row.now)) result }
{
    match test {
        None => Ok(true),
        Some(code) => Ok(is_true(truth(alloc, stack, code, row, vars)?)),
    }
}

fn is_true(truth: Truth) -> bool
    ensures { result ≡ is_met truth }
{
    match truth {
        Truth::True => true,
        Truth::False | Truth::Unknown => false,
    }
}

/// The truth value of a test on a row, or the condition that it raises. The code has to end with a truth value, and
/// else it is unknown.
pub fn truth(
    alloc: Global,
    stack: &mut Vec<Operand>,
    code: &ExprCode,
    row: &[Datum],
    vars: &[Datum],
) -> Result<Truth, ValueFault>
    requires { Runs row.now vars.now code.now }
    ensures { Gives (truth_in (evaluated code.now row.now vars.now)) result }
{
    match eval_on(alloc, stack, code, row, vars)? {
        Operand::Truth(truth) => Ok(truth),
        Operand::Value(_) => Ok(Truth::Unknown),
    }
}

/// The value of an expression on a row, or the condition that it raises. The code has to end with a value, and else
/// it is null. An expression without columns has one on the empty row.
pub fn value(
    alloc: Global,
    stack: &mut Vec<Operand>,
    code: &ExprCode,
    row: &[Datum],
    vars: &[Datum],
) -> Result<Datum, ValueFault>
    requires { Runs row.now vars.now code.now }
    ensures { Gives (value_in (evaluated code.now row.now vars.now)) result }
{
    match eval_on(alloc, stack, code, row, vars)? {
        Operand::Value(value) => Ok(value),
        Operand::Truth(_) => Ok(Datum::Null),
    }
}

fn values_of_items(
    alloc: Global,
    stack: &mut Vec<Operand>,
    items: &Items,
    row: &[Datum],
    vars: &[Datum],
) -> Result<Row, ValueFault>
    requires { RunItems row.now vars.now items.now }
    ensures { Gives (values_for vars.now items.now row.now) result }
{
    match items {
        Items::Rows(codes) => values(alloc, stack, codes.items(), row, vars),
        Items::Sets(sets) => operands(alloc, stack, sets.items(), row, vars),
    }
}

/// The values of some expressions on a row, from the left, or the first condition that one of them raises.
pub fn values(
    alloc: Global,
    stack: &mut Vec<Operand>,
    codes: &[ExprCode],
    row: &[Datum],
    vars: &[Datum],
) -> Result<Row, ValueFault>
    requires { All (Runs row.now vars.now) codes.now }
    ensures { Gives (values_of (over vars.now) codes.now row.now) result }
{
    let mut values = Vec::new(alloc);
    for code in codes {
        values.push(value(alloc, stack, code, row, vars)?)?;
    }
    Ok(Row::of(values))
}

// What some set functions are of, from the left.
fn operands(
    alloc: Global,
    stack: &mut Vec<Operand>,
    sets: &[Aggregate],
    row: &[Datum],
    vars: &[Datum],
) -> Result<Row, ValueFault>
    requires { All (λ a. IfSome a.operand (Runs row.now vars.now)) sets.now }
    ensures { Gives (collected (λ a. operand_of (over vars.now) a.operand row.now) sets.now) result }
{
    let mut values = Vec::new(alloc);
    for set in sets {
        values.push(operand(alloc, stack, &set.operand, row, vars)?)?;
    }
    Ok(Row::of(values))
}

// What a set function is of. Where rows are counted, one stands for the row.
fn operand(
    alloc: Global,
    stack: &mut Vec<Operand>,
    operand: &Option<ExprCode>,
    row: &[Datum],
    vars: &[Datum],
) -> Result<Datum, ValueFault>
    requires { IfSome operand.now (Runs row.now vars.now) }
    ensures { Gives (operand_of (over vars.now) operand.now row.now) result }
{
    match operand {
        None => Ok(Datum::Num(Dec::new(1, 0).unwrap())),
        Some(code) => value(alloc, stack, code, row, vars),
    }
}
