//! OPEN, CLOSE, FETCH and the next row of FOR (ISO/IEC 9075:1992, 13.2 to 13.4, and 9075-4:1996, for statement).
ghost use Rattle.std.specs.Prelude.{◌≡◌, false, true, ℕ, Ok, slice_get, IfSome};
ghost use Rattle.std.specs.Option.{option_copied};
ghost use Rattle.psm_exprcode.specs.declared.query.Query.{Query as QueryValue};
ghost use Rattle.psm_code.specs.Querying.{close, fetch, next, «open», open_as};
ghost use Rattle.psm_code.specs.Run.{next_or_end};
ghost use Rattle.psm_code.specs.State.{with_cursor};
ghost use Rattle.psm_code.specs.Steps.{change};
ghost use Rattle.psm_unwind.specs.Marks.{SameFrames};
ghost use Rattle.psm_machine.specs.Allowed.{MayAsk, MayMove, MayOpen, OfCursor};
ghost use Rattle.psm_machine.specs.ActResults.{Does};
ghost use Rattle.psm_machine.specs.Over.{DoesOver, StopsIn, as_successor};

use crate::queries::{put_values, query_at};
use crate::stop::{Stop, stop_at};
use crate::table_statements::part_of;
use psm_code::{CodeCursor, RawRoutine};
use psm_cond::Condition;
use psm_cursor::Cursor;
use psm_exprcode::Query;
use psm_sqlstate::SqlState;
use psm_store::{Row, Store};
use psm_unwind::Run;
use std::alloc::Global;

/// Opens a cursor. A plain one keeps the variables as they are now, and an insensitive one takes its whole answer. 24000 comes
/// where the cursor is open.
pub fn open<S: Store>(
    alloc: Global,
    routine: &RawRoutine,
    run: &mut Run,
    store: &S,
    number: u32,
) -> Result<(), Stop>
    requires { IfSome (slice_get routine.now.cursors number) (MayOpen routine.now (S.tables store.now) run.old.running.variables.items) }
    ensures expected { DoesOver (S.tables store.now) («open» routine.now number) run.old result (S.tables store.now) run.new }
    ensures same { SameFrames run.old run.new }
{
    let Some(declared) = declared_at(routine, number) else {
        return Err(Stop::Stuck);
    };
    let Some(cursor) = cursor_at(run, number) else {
        return Err(Stop::Stuck);
    };
    if cursor.is_open() {
        return Err(wrong_state(alloc, declared));
    }
    let Some(query) = query_at(routine, declared.query) else {
        return Err(Stop::Stuck);
    };
    if declared.insensitive {
        open_insensitive(alloc, run, store, number, query)
    } else {
        open_plain(alloc, run, number)
    }
}

fn open_plain(alloc: Global, run: &mut Run, number: u32) -> Result<(), Stop>
    ensures expected { (query : QueryValue) → Does (open_as false number query) run.old result run.new }
    ensures same { SameFrames run.old run.new }
{
    let cursor = Cursor::open_plain(alloc, run.running.variables.as_slice())?;
    set_cursor(run, number, cursor);
    Ok(())
}

fn open_insensitive<S: Store>(
    alloc: Global,
    run: &mut Run,
    store: &S,
    number: u32,
    query: &Query,
) -> Result<(), Stop>
    requires { MayAsk (S.tables store.now) run.old.running.variables.items query.now }
    ensures expected { DoesOver (S.tables store.now) (open_as true number query.now) run.old result (S.tables store.now) run.new }
    ensures same { SameFrames run.old run.new }
{
    let vars = run.running.variables.as_slice();
    let cursor = part_of(Cursor::open_insensitive(alloc, store, query, vars))?;
    set_cursor(run, number, cursor);
    Ok(())
}

/// Closes a cursor. 24000 comes where it isn't open.
pub fn close(alloc: Global, routine: &RawRoutine, run: &mut Run, number: u32) -> Result<(), Stop>
    ensures expected { Does (close routine.now number) run.old result run.new }
    ensures same { SameFrames run.old run.new }
{
    let Some(declared) = declared_at(routine, number) else {
        return Err(Stop::Stuck);
    };
    let Some(cursor) = cursor_at(run, number) else {
        return Err(Stop::Stuck);
    };
    if !cursor.is_open() {
        return Err(wrong_state(alloc, declared));
    }
    set_cursor(run, number, Cursor::closed());
    Ok(())
}

/// Puts the items of the next row of a cursor on the operands, the first of them on top. 02000 comes where there is none, and 24000
/// where the cursor isn't open.
pub fn fetch<S: Store>(
    alloc: Global,
    routine: &RawRoutine,
    run: &mut Run,
    store: &S,
    number: u32,
) -> Result<(), Stop>
    requires { OfCursor routine.now run.old.running.cursors.items number (MayMove routine.now (S.tables store.now)) }
    ensures expected { DoesOver (S.tables store.now) (fetch routine.now number) run.old result (S.tables store.now) run.new }
    ensures same { SameFrames run.old run.new }
{
    match next_row(alloc, routine, run, store, number)? {
        None => Err(stop_at(alloc, SqlState::NO_DATA)),
        Some(row) => put_values(run, row),
    }
}

/// The same of FOR, where no row is no condition. It answers whether there is one; without one the run is to go on at the line that
/// the instruction names.
pub fn next<S: Store>(
    alloc: Global,
    routine: &RawRoutine,
    run: &mut Run,
    store: &S,
    number: u32,
) -> Result<bool, Stop>
    requires { OfCursor routine.now run.old.running.cursors.items number (MayMove routine.now (S.tables store.now)) }
    ensures expected { (end : ℕ) → DoesOver (S.tables store.now) (next_or_end routine.now number end) run.old (as_successor end result) (S.tables store.now) run.new }
    ensures same { SameFrames run.old run.new }
{
    match next_row(alloc, routine, run, store, number)? {
        None => Ok(false),
        Some(row) => {
            put_values(run, row)?;
            Ok(true)
        }
    }
}

// The items of the next row of a cursor, if there is one.
fn next_row<S: Store>(
    alloc: Global,
    routine: &RawRoutine,
    run: &mut Run,
    store: &S,
    number: u32,
) -> Result<Option<Row>, Stop>
    requires { OfCursor routine.now run.old.running.cursors.items number (MayMove routine.now (S.tables store.now)) }
    ensures expected { DoesOver (S.tables store.now) (next routine.now number) run.old result (S.tables store.now) run.new }
    ensures same { SameFrames run.old run.new }
{
    let Some(declared) = declared_at(routine, number) else {
        return Err(Stop::Stuck);
    };
    let Some(cursor) = cursor_at(run, number) else {
        return Err(Stop::Stuck);
    };
    if !cursor.is_open() {
        return Err(wrong_state(alloc, declared));
    }
    let Some(query) = query_at(routine, declared.query) else {
        return Err(Stop::Stuck);
    };
    let cursor = &mut run.running.cursors[number as usize];
    part_of(cursor.next(alloc, store, query))
}

/// The declared cursor of that number.
pub(crate) fn declared_at(routine: &RawRoutine, number: u32) -> Option<&CodeCursor>
    ensures { option_copied result ≡ slice_get routine.now.cursors number }
{
    routine.cursors.items().get(number as usize)
}

/// The cursor of that number as it is now.
pub(crate) fn cursor_at(run: &Run, number: u32) -> Option<&Cursor>
    ensures { option_copied result ≡ slice_get run.now.running.cursors.items number }
{
    run.running.cursors.as_slice().get(number as usize)
}

fn set_cursor(run: &mut Run, number: u32, cursor: Cursor)
    ensures expected { Does (change (with_cursor number cursor)) run.old (Ok tt) run.new }
    ensures same { SameFrames run.old run.new }
{
    let at = number as usize;
    if at < run.running.cursors.len() {
        run.running.cursors[at] = cursor;
    }
}

/// The state of a cursor doesn't allow the statement; or memory ran out.
pub(crate) fn wrong_state(alloc: Global, declared: &CodeCursor) -> Stop
    ensures { StopsIn declared.now result }
{
    match Condition::at_cursor(alloc, SqlState::INVALID_CURSOR_STATE, &declared.name) {
        Ok(condition) => Stop::Raises(condition),
        Err(_) => Stop::Memory,
    }
}
