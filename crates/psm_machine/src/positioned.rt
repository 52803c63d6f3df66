//! UPDATE and DELETE of the row on which a cursor stands (ISO/IEC 9075:1992, 13.6 and 13.9).
ghost use Rattle.std.specs.Prelude.{◌≡◌, ◌<◌, None, Ok, Some, IfNone, IfSome, IsSome, slice_get};
ghost use Rattle.psm_table.specs.Cursors.{Cursor as CursorValue};
ghost use Rattle.psm_table.specs.Definition.{IsKey};
ghost use Rattle.psm_table.specs.Table.{keyed};
ghost use Rattle.psm_store.specs.Marks.{AnyMark, Keeps, most_marks};
ghost use Rattle.psm_cursor.specs.Current.{current_key, current_row};
ghost use Rattle.psm_cursor.specs.TypeChecks.{StandsIn};
ghost use Rattle.psm_code.specs.Plans.{delete_at, leave_row, update_at};
ghost use Rattle.psm_unwind.specs.Marks.{SameFrames};
ghost use Rattle.psm_machine.specs.Allowed.{MayChangeAt, MayEraseAt, OfCursor, OverQuery};
ghost use Rattle.psm_machine.specs.ActResults.{Does};
ghost use Rattle.psm_machine.specs.Over.{DoesOver};

use crate::cursors::{cursor_at, declared_at, wrong_state};
use crate::plans::table_at;
use crate::queries::query_at;
use crate::stop::Stop;
use crate::table_statements::part_of;
use psm_code::{RawCode, RawRoutine};
use psm_cursor::Cursor;
use psm_exprcode::SetItem;
use psm_store::{Key, Store, Table};
use psm_unwind::Run;
use std::alloc::Global;

/// Changes the row on which a cursor stands. 24000 comes where it stands on none. Where the row has another key now, the cursor stands
/// on none.
pub(crate) fn update_at<S: Store>(
    alloc: Global,
    code: &RawCode,
    routine: &RawRoutine,
    run: &mut Run,
    store: &mut S,
    number: u32,
    sets: &[SetItem],
) -> Result<(), Stop>
    requires may { OfCursor routine.now run.old.running.cursors.items number (λ x c. OverQuery routine.now x (λ n. IfSome (slice_get code.now.tables n) (MayChangeAt code.now.keys (S.tables store.old) n run.old.running.variables.items sets.now c))) }
    requires room { S.marks store.old < most_marks }
    ensures expected { DoesOver (S.tables store.old) (update_at code.now routine.now number sets.now) run.old result (S.tables store.new) run.new }
    ensures marks { S.marks store.new ≡ S.marks store.old }
    ensures keeps { Keeps AnyMark (S.holds store.old) (S.at store.old) (S.holds store.new) (S.at store.new) }
    ensures same { SameFrames run.old run.new }
{
    let Some(declared) = declared_at(routine, number) else {
        return Err(Stop::Stuck);
    };
    let Some(query) = query_at(routine, declared.query) else {
        return Err(Stop::Stuck);
    };
    let Some(table) = table_at(code, query.table) else {
        return Err(Stop::Stuck);
    };
    let Some(cursor) = cursor_at(run, number) else {
        return Err(Stop::Stuck);
    };
    let Some(key) = key_on(cursor, store.table(query.table)) else {
        return Err(wrong_state(alloc, declared));
    };
    let keys = &code.keys;
    let moved = part_of(psm_dml::update_at(
        alloc,
        store,
        query.table,
        table.checks.items(),
        keys,
        key,
        sets,
        run.running.variables.as_slice(),
    ))?;
    run.area.set_rows(1);
    leave_row(run, moved, number);
    Ok(())
}

// The key of the row on which a cursor stands, if the table has it.
fn key_on<'a>(cursor: &'a Cursor, table: &Table) -> Option<&'a Key>
    requires { StandsIn table.now.contents.def cursor.now }
    ensures none { IfNone result (current_row table.now.contents cursor.now ≡ None) }
    ensures some { IfSome result (λ key. current_key cursor.now ≡ Some key.now) }
    ensures row { IfSome result (λ key. IsSome (keyed table.now.contents key.now)) }
    ensures fits { IfSome result (λ key. IsKey table.now.contents.def key.now) }
{
    match cursor.key() {
        None => None,
        Some(key) => {
            if table.get(key).is_some() {
                Some(key)
            } else {
                None
            }
        }
    }
}

/// Takes out the row on which a cursor stands, which then stands on none. 24000 comes where it stands on none.
pub(crate) fn delete_at<S: Store>(
    alloc: Global,
    code: &RawCode,
    routine: &RawRoutine,
    run: &mut Run,
    store: &mut S,
    number: u32,
) -> Result<(), Stop>
    requires may { OfCursor routine.now run.old.running.cursors.items number (λ x c. OverQuery routine.now x (λ n. IfSome (slice_get code.now.tables n) (MayEraseAt code.now.keys (S.tables store.old) n c))) }
    requires room { S.marks store.old < most_marks }
    ensures expected { DoesOver (S.tables store.old) (delete_at code.now routine.now number) run.old result (S.tables store.new) run.new }
    ensures marks { S.marks store.new ≡ S.marks store.old }
    ensures keeps { Keeps AnyMark (S.holds store.old) (S.at store.old) (S.holds store.new) (S.at store.new) }
    ensures same { SameFrames run.old run.new }
{
    let Some(declared) = declared_at(routine, number) else {
        return Err(Stop::Stuck);
    };
    let Some(query) = query_at(routine, declared.query) else {
        return Err(Stop::Stuck);
    };
    let Some(_declared) = table_at(code, query.table) else {
        return Err(Stop::Stuck);
    };
    let Some(cursor) = cursor_at(run, number) else {
        return Err(Stop::Stuck);
    };
    let table = store.table(query.table);
    let Some(row) = cursor.current(table) else {
        return Err(wrong_state(alloc, declared));
    };
    let key = table.key_of(alloc, row)?;
    let keys = &code.keys;
    part_of(psm_dml::delete_at(alloc, store, query.table, keys, &key))?;
    run.area.set_rows(1);
    leave_row(run, true, number);
    Ok(())
}

// A cursor whose row is gone stands on none.
fn leave_row(run: &mut Run, is_gone: bool, number: u32)
    ensures expected { (c : CursorValue) → slice_get run.old.running.cursors.items number ≡ Some c → Does (leave_row is_gone number c) run.old (Ok tt) run.new }
    ensures same { SameFrames run.old run.new }
{
    let at = number as usize;
    if is_gone && at < run.running.cursors.len() {
        run.running.cursors[at].leave_row();
    }
}
