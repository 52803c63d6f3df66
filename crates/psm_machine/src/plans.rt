//! What plans do: INSERT, UPDATE and DELETE of the rows that meet a test (ISO/IEC 9075:1992, 13.7, 13.8 and 13.10).
ghost use Rattle.std.specs.Prelude.{◌≡◌, ◌<◌, slice_get, IfSome};
ghost use Rattle.std.specs.Option.{option_copied};
ghost use Rattle.psm_store.specs.Marks.{AnyMark, Keeps, most_marks};
ghost use Rattle.psm_code.specs.Plans.{delete_rows, done, plan, some_row, update_rows};
ghost use Rattle.psm_unwind.specs.Marks.{MarksStand, SameFrames};
ghost use Rattle.psm_unwind.specs.View.{machine_of};
ghost use Rattle.psm_machine.specs.Allowed.{MayChange, MayDo, MayErase};
ghost use Rattle.psm_machine.specs.ActResults.{Evaluates, Finds};
ghost use Rattle.psm_machine.specs.Over.{DoesOver};

use crate::positioned::{delete_at, update_at};
use crate::putting::{put_operands, put_query};
use crate::stop::{Stop, stop_at};
use crate::table_statements::part_of;
use psm_code::{CodeTable, Plan, RawCode, RawRoutine};
use psm_dml::{delete, update};
use psm_exprcode::{ExprCode, SetItem};
use psm_sqlstate::SqlState;
use psm_store::Store;
use psm_unwind::Run;
use std::alloc::Global;

/// Does what a plan of the routine says.
///
/// The plan has to fit its tables and the variables, and the marks of the run have to stand. They stand afterwards, and each stands
/// for the same tables, also where memory runs out.
pub fn change<S: Store>(
    alloc: Global,
    code: &RawCode,
    routine: &RawRoutine,
    run: &mut Run,
    store: &mut S,
    number: u32,
) -> Result<(), Stop>
    requires stand { MarksStand (S.holds store.old) (S.marks store.old) run.old }
    requires may { IfSome (slice_get routine.now.plans number) (MayDo code.now routine.now (S.tables store.old) run.old.running.variables.items run.old.running.cursors.items) }
    ensures expected { Evaluates (plan code.now routine.now number (machine_of (S.tables store.old) (S.at store.old) run.old)) result (machine_of (S.tables store.new) (S.at store.new) run.new) }
    ensures stand { MarksStand (S.holds store.new) (S.marks store.new) run.new }
    ensures keeps { Keeps AnyMark (S.holds store.old) (S.at store.old) (S.holds store.new) (S.at store.new) }
    ensures same { SameFrames run.old run.new }
{
    match plan_at(routine, number) {
        None => Err(Stop::Stuck),
        Some(plan) => carry_out(alloc, code, routine, run, store, plan),
    }
}

fn plan_at(routine: &RawRoutine, number: u32) -> Option<&Plan>
    ensures { option_copied result ≡ slice_get routine.now.plans number }
{
    routine.plans.items().get(number as usize)
}

fn carry_out<S: Store>(
    alloc: Global,
    code: &RawCode,
    routine: &RawRoutine,
    run: &mut Run,
    store: &mut S,
    plan: &Plan,
) -> Result<(), Stop>
    requires may { MayDo code.now routine.now (S.tables store.old) run.old.running.variables.items run.old.running.cursors.items plan.now }
    requires room { S.marks store.old < most_marks }
    ensures expected { DoesOver (S.tables store.old) (done code.now routine.now plan.now) run.old result (S.tables store.new) run.new }
    ensures marks { S.marks store.new ≡ S.marks store.old }
    ensures keeps { Keeps AnyMark (S.holds store.old) (S.at store.old) (S.holds store.new) (S.at store.new) }
    ensures same { SameFrames run.old run.new }
{
    match plan {
        Plan::Insert {
            table,
            columns,
            rows,
        } => put_operands(alloc, code, run, store, *table, columns.items(), *rows),
        Plan::InsertQuery {
            table,
            columns,
            query,
        } => put_query(
            alloc,
            code,
            routine,
            run,
            store,
            *table,
            columns.items(),
            *query,
        ),
        Plan::Update { table, sets, test } => {
            update_rows(alloc, code, run, store, *table, sets.items(), test.as_ref())
        }
        Plan::Delete { table, test } => {
            delete_rows(alloc, code, run, store, *table, test.as_ref())
        }
        Plan::UpdateAt { cursor, sets } => {
            update_at(alloc, code, routine, run, store, *cursor, sets.items())
        }
        Plan::DeleteAt { cursor } => delete_at(alloc, code, routine, run, store, *cursor),
    }
}

/// A table of the code by its number.
pub(crate) fn table_at(code: &RawCode, number: u32) -> Option<&CodeTable>
    ensures { option_copied result ≡ slice_get code.now.tables number }
{
    code.tables.items().get(number as usize)
}

fn update_rows<S: Store>(
    alloc: Global,
    code: &RawCode,
    run: &mut Run,
    store: &mut S,
    table: u32,
    sets: &[SetItem],
    test: Option<&ExprCode>,
) -> Result<(), Stop>
    requires may { IfSome (slice_get code.now.tables table) (MayChange code.now.keys (S.tables store.old) table run.old.running.variables.items sets.now (option_copied test)) }
    requires room { S.marks store.old < most_marks }
    ensures expected { DoesOver (S.tables store.old) (update_rows code.now table sets.now (option_copied test.entry)) run.old result (S.tables store.new) run.new }
    ensures marks { S.marks store.new ≡ S.marks store.old }
    ensures keeps { Keeps AnyMark (S.holds store.old) (S.at store.old) (S.holds store.new) (S.at store.new) }
    ensures same { SameFrames run.old run.new }
{
    let Some(declared) = table_at(code, table) else {
        return Err(Stop::Stuck);
    };
    let keys = &code.keys;
    let vars = run.running.variables.as_slice();
    let count = part_of(update(
        alloc,
        store,
        table,
        declared.checks.items(),
        keys,
        sets,
        test,
        vars,
    ))?;
    run.area.set_rows(count);
    some_row(alloc, count)
}

fn delete_rows<S: Store>(
    alloc: Global,
    code: &RawCode,
    run: &mut Run,
    store: &mut S,
    table: u32,
    test: Option<&ExprCode>,
) -> Result<(), Stop>
    requires may { IfSome (slice_get code.now.tables table) (MayErase code.now.keys (S.tables store.old) table run.old.running.variables.items (option_copied test)) }
    requires room { S.marks store.old < most_marks }
    ensures expected { DoesOver (S.tables store.old) (delete_rows code.now table (option_copied test.entry)) run.old result (S.tables store.new) run.new }
    ensures marks { S.marks store.new ≡ S.marks store.old }
    ensures keeps { Keeps AnyMark (S.holds store.old) (S.at store.old) (S.holds store.new) (S.at store.new) }
    ensures same { SameFrames run.old run.new }
{
    let Some(_declared) = table_at(code, table) else {
        return Err(Stop::Stuck);
    };
    let keys = &code.keys;
    let vars = run.running.variables.as_slice();
    let count = part_of(delete(alloc, store, table, keys, test, vars))?;
    run.area.set_rows(count);
    some_row(alloc, count)
}

// A statement about no row raises 02000.
fn some_row(alloc: Global, count: u32) -> Result<(), Stop>
    ensures { Finds (some_row count) result }
{
    if count == 0 {
        Err(stop_at(alloc, SqlState::NO_DATA))
    } else {
        Ok(())
    }
}
