//! The CHECKs of a table on the new rows of a statement (ISO/IEC 9075:1992, 11.9).
ghost use Rattle.std.specs.Prelude.{◌≡◌, ◌+◌, ◌<◌, [], All, IfOk, length, slice_index_or};
ghost use Rattle.psm_value.specs.Answer.{Gives};
ghost use Rattle.psm_table.specs.Changing.{in_order, is_before as comes_before, is_kept as is_kept_truth, row_passes, rows_pass};
ghost use Rattle.psm_table.specs.Key.{AreColumnsOf};
ghost use Rattle.psm_tablecode.specs.Codes.{over};
ghost use Rattle.psm_tablecode.specs.TypeChecks.{Runs};
ghost use Rattle.psm_dml.specs.Judged.{result_of, verdict_with, IsRefused, IsWithin};

use crate::comparing::order;
use psm_exprcode::{ExprCode, Operand};
use psm_sqlstate::SqlState;
use psm_table::Row;
use psm_tablecode::truth;
use psm_value::{Datum, Truth, ValueFault};
use std::alloc::{AllocError, Global};
use std::cmp::Ordering;

/// What is known of the rows so far.
#[derive(Clone, Copy)]
pub(crate) enum Verdict {
    /// No CHECK raised a condition, and whether each held.
    Kept(bool),
    /// The index of the row whose condition counts, and the condition.
    Raised(usize, SqlState),
}

/// What the CHECKs evaluate to on a row.
#[derive(Clone, Copy)]
enum Passed {
    /// Whether each holds.
    Held(bool),
    /// The condition that one raises.
    Condition(SqlState),
}

/// Whether each CHECK holds on each of some rows, or the condition that one raises: of several rows on which one is
/// raised the first by its key counts, and of equal keys the first row.
pub(crate) fn judge(
    alloc: Global,
    checks: &[ExprCode],
    key: &[u32],
    rows: &[Row],
) -> Result<bool, ValueFault>
    requires runs { All (λ row. All (Runs row []) checks.now) rows.now }
    requires key { All (λ row. AreColumnsOf row key.now) rows.now }
    ensures { Gives (rows_pass (over []) checks.now (in_order key.now rows.now)) result }
{
    let mut stack = Vec::new(alloc);
    let mut verdict = Verdict::Kept(true);
    for (at, row) in rows.iter().enumerate() {
        let passed = row_of(alloc, &mut stack, checks, row.values())?;
        verdict = next(verdict, key, rows, at, passed);
    }
    match verdict {
        Verdict::Kept(kept) => Ok(kept),
        Verdict::Raised(_, state) => Err(ValueFault::Condition(state)),
    }
}

// What is known with one row more.
fn next(verdict: Verdict, key: &[u32], rows: &[Row], at: usize, passed: Passed) -> Verdict
    requires at { at < length rows.now }
    requires within { IsWithin (length rows.now) verdict }
    requires key { All (λ row. AreColumnsOf row key.now) rows.now }
    ensures { result ≡ verdict_with key.now rows.now verdict at (result_of passed) }
{
    match verdict {
        Verdict::Kept(kept) => match passed {
            Passed::Held(holds) => Verdict::Kept(kept & holds),
            Passed::Condition(state) => Verdict::Raised(at, state),
        },
        Verdict::Raised(index, state) => match passed {
            Passed::Held(_) => Verdict::Raised(index, state),
            Passed::Condition(other) => {
                if is_before(key, &rows[index], &rows[at]) {
                    Verdict::Raised(index, state)
                } else {
                    Verdict::Raised(at, other)
                }
            }
        },
    }
}

fn is_before(key: &[u32], a: &Row, b: &Row) -> bool
    requires a { AreColumnsOf a.now key.now }
    requires b { AreColumnsOf b.now key.now }
    ensures { result ≡ comes_before key.now a.now b.now }
{
    order(key, a.values(), b.values()) != Ordering::Greater
}

// Whether each CHECK holds on a row, or the first condition that one raises.
fn row_of(
    alloc: Global,
    stack: &mut Vec<Operand>,
    checks: &[ExprCode],
    row: &[Datum],
) -> Result<Passed, AllocError>
    requires { All (Runs row.now []) checks.now }
    ensures { IfOk result (λ passed. result_of passed ≡ row_passes (over []) checks.now row.now) }
{
    match holds(alloc, stack, checks, row) {
        Ok(holds) => Ok(Passed::Held(holds)),
        Err(fault) => condition_of(&fault),
    }
}

fn condition_of(fault: &ValueFault) -> Result<Passed, AllocError>
    ensures { IsRefused fault.now result }
{
    match fault {
        ValueFault::Condition(state) => Ok(Passed::Condition(*state)),
        ValueFault::Memory => Err(AllocError),
    }
}

fn holds(
    alloc: Global,
    stack: &mut Vec<Operand>,
    checks: &[ExprCode],
    row: &[Datum],
) -> Result<bool, ValueFault>
    requires { All (Runs row.now []) checks.now }
    ensures { Gives (row_passes (over []) checks.now row.now) result }
{
    let mut kept = true;
    for check in checks {
        kept &= is_kept(truth(alloc, stack, check, row, &[])?);
    }
    Ok(kept)
}

// A CHECK holds unless it is false.
fn is_kept(truth: Truth) -> bool
    ensures { result ≡ is_kept_truth truth }
{
    match truth {
        Truth::True | Truth::Unknown => true,
        Truth::False => false,
    }
}
