//! EXISTS, queries as values, and SELECT INTO (ISO/IEC 9075:1992, 7.11, 8.8 and 13.5).
ghost use Rattle.std.specs.Prelude.{◌≡◌, Ok, slice_get, IfSome};
ghost use Rattle.std.specs.Option.{option_copied};
ghost use Rattle.psm_exprcode.specs.Comparison.{truth_of};
ghost use Rattle.psm_code.specs.Querying.{answer_of, exists, is_any, only_row, scalar, scalar_of, select_row, skipping};
ghost use Rattle.psm_code.specs.Steps.{put_values};
ghost use Rattle.psm_unwind.specs.Marks.{SameFrames};
ghost use Rattle.psm_machine.specs.Allowed.{MayAsk};
ghost use Rattle.psm_machine.specs.ActResults.{Does, Finds};
ghost use Rattle.psm_machine.specs.Over.{DoesOver};

use crate::operands::put;
use crate::stop::{Stop, stop_at};
use crate::table_statements::part_of;
use psm_code::RawRoutine;
use psm_exprcode::{Operand, Query};
use psm_query::{Answer, rows};
use psm_sqlstate::SqlState;
use psm_store::{Row, Store};
use psm_unwind::Run;
use psm_value::{Datum, Truth};
use std::alloc::Global;

/// Puts on the operands whether a query has a row.
pub fn exists<S: Store>(
    alloc: Global,
    routine: &RawRoutine,
    run: &mut Run,
    store: &S,
    number: u32,
) -> Result<(), Stop>
    requires { IfSome (slice_get routine.now.queries number) (MayAsk (S.tables store.now) run.old.running.variables.items) }
    ensures expected { DoesOver (S.tables store.now) (exists routine.now number) run.old result (S.tables store.now) run.new }
    ensures same { SameFrames run.old run.new }
{
    let Some(query) = query_at(routine, number) else {
        return Err(Stop::Stuck);
    };
    let answer = answer_of(alloc, run, store, query)?;
    put(run, Operand::Truth(exist(answer.rows())))
}

/// Puts the value of a query on the operands: null where it has no row, and 21000 comes where it has more than one.
pub fn scalar<S: Store>(
    alloc: Global,
    routine: &RawRoutine,
    run: &mut Run,
    store: &S,
    number: u32,
) -> Result<(), Stop>
    requires { IfSome (slice_get routine.now.queries number) (MayAsk (S.tables store.now) run.old.running.variables.items) }
    ensures expected { DoesOver (S.tables store.now) (scalar routine.now number) run.old result (S.tables store.now) run.new }
    ensures same { SameFrames run.old run.new }
{
    let Some(query) = query_at(routine, number) else {
        return Err(Stop::Stuck);
    };
    let answer = answer_of(alloc, run, store, query)?;
    put_scalar(alloc, run, answer.into_rows())
}

/// Puts the items of the one row of a query on the operands, the first of them on top. 02000 comes where there is no row, and
/// 21000 where there are more. Nulls that a set function skipped make the warning 01003 pending, in place of any other.
pub fn select_row<S: Store>(
    alloc: Global,
    routine: &RawRoutine,
    run: &mut Run,
    store: &S,
    number: u32,
) -> Result<(), Stop>
    requires { IfSome (slice_get routine.now.queries number) (MayAsk (S.tables store.now) run.old.running.variables.items) }
    ensures expected { DoesOver (S.tables store.now) (select_row routine.now number) run.old result (S.tables store.now) run.new }
    ensures same { SameFrames run.old run.new }
{
    let Some(query) = query_at(routine, number) else {
        return Err(Stop::Stuck);
    };
    let answer = answer_of(alloc, run, store, query)?;
    let skipped = answer.skipped();
    let row = only_row(alloc, answer.into_rows())?;
    skip(run, skipped);
    put_values(run, row)
}

/// The query of that number.
pub(crate) fn query_at(routine: &RawRoutine, number: u32) -> Option<&Query>
    ensures { option_copied result ≡ slice_get routine.now.queries number }
{
    routine.queries.items().get(number as usize)
}

/// The answer of a query over its table and the variables as they are now.
pub(crate) fn answer_of<S: Store>(
    alloc: Global,
    run: &Run,
    store: &S,
    query: &Query,
) -> Result<Answer, Stop>
    requires { MayAsk (S.tables store.now) run.now.running.variables.items query.now }
    ensures { DoesOver (S.tables store.now) (answer_of query.now) run.now result (S.tables store.now) run.now }
{
    part_of(rows(alloc, store, query, run.running.variables.as_slice()))
}

// Whether there are rows.
fn exist(rows: &[Row]) -> Truth
    ensures { result ≡ truth_of (is_any rows.now) }
{
    match rows.first() {
        None => Truth::False,
        Some(_) => Truth::True,
    }
}

// Puts the item of the one row on the operands, or null without a row.
fn put_scalar(alloc: Global, run: &mut Run, rows: Vec<Row>) -> Result<(), Stop>
    ensures expected { Does (scalar_of rows.items) run.old result run.new }
    ensures same { SameFrames run.old run.new }
{
    let mut rows = rows;
    match rows.pop() {
        None => put(run, Operand::Value(Datum::Null)),
        Some(row) => {
            if !rows.is_empty() {
                return Err(stop_at(alloc, SqlState::CARDINALITY_VIOLATION));
            }
            match first_of(row) {
                None => Err(Stop::Stuck),
                Some(value) => put(run, Operand::Value(value)),
            }
        }
    }
}

// The one row of some.
fn only_row(alloc: Global, rows: Vec<Row>) -> Result<Row, Stop>
    ensures { Finds (only_row rows.items) result }
{
    let mut rows = rows;
    match rows.pop() {
        None => Err(stop_at(alloc, SqlState::NO_DATA)),
        Some(row) => {
            if rows.is_empty() {
                Ok(row)
            } else {
                Err(stop_at(alloc, SqlState::CARDINALITY_VIOLATION))
            }
        }
    }
}

// Nulls that a set function skipped are a warning, in place of one that is pending.
fn skip(run: &mut Run, skipped: bool)
    ensures expected { Does (skipping skipped) run.old (Ok tt) run.new }
    ensures same { SameFrames run.old run.new }
{
    if skipped {
        run.pending = Some(SqlState::NULL_ELIMINATED);
    }
}

/// Puts values on the operands, the first of them on top.
pub(crate) fn put_values(run: &mut Run, row: Row) -> Result<(), Stop>
    ensures expected { Does (put_values row) run.old result run.new }
    ensures same { SameFrames run.old run.new }
{
    let mut values = row.into_vec();
    while let Some(value) = values.pop() {
        put(run, Operand::Value(value))?;
    }
    Ok(())
}

// The first value of a row.
fn first_of(row: Row) -> Option<Datum>
    ensures { result ≡ slice_get row 0 }
{
    row.into_vec().into_iter().next()
}
