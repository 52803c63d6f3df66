//! Rows that are put in the places of those that have their keys.
ghost use Rattle.std.specs.Prelude.{◌≡◌, [], ◌∷◌, ◌<◌, IfOk, IfSome, IsSome, OnErr, OnOk, length, slice_get};
ghost use Rattle.std.specs.List.{list_all};
ghost use Rattle.psm_table.specs.Changing.{is_filled as is_row_filled};
ghost use Rattle.psm_table.specs.Definition.{IsRow};
ghost use Rattle.psm_table.specs.Table.{namesake, with_row};
ghost use Rattle.psm_store.specs.Marks.{AnyMark, Keeps, defs_of, most_marks};
ghost use Rattle.psm_store.specs.RowCalls.{changed_at};
ghost use Rattle.psm_row_changes.specs.Rows.{changed_if, with_rows, AreInPlace};

use crate::filling::is_filled;
use psm_store::{Row, RowFault, Store, put_back};
use psm_table::TableDef;
use std::alloc::{AllocError, Global};

/// Puts each of some rows in the place of the one that has its key. `false` comes exactly where one has a null in a column
/// that refuses it. Then, and where memory runs out, the tables are as before. It opens no mark for one row.
pub(crate) fn change_rows<S: Store>(
    alloc: Global,
    store: &mut S,
    t: u32,
    rows: Vec<Row>,
) -> Result<bool, AllocError>
    requires exists { t < length (S.tables store.old) }
    requires places { IfSome (slice_get (S.tables store.old) t) (λ c. AreInPlace c rows.items) }
    requires room { S.marks store.old < most_marks }
    ensures answer { IfSome (slice_get (S.tables store.old) t) (λ c. IfOk result (λ b. b ≡ list_all (is_row_filled c.def) rows.items)) }
    ensures tables { S.tables store.new ≡ changed_if result (with_rows rows.items) (S.tables store.old) t }
    ensures marks { S.marks store.new ≡ S.marks store.old }
    ensures keeps { Keeps AnyMark (S.holds store.old) (S.at store.old) (S.holds store.new) (S.at store.new) }
{
    if !are_filled(store.table(t).def(), rows.as_slice()) {
        return Ok(false);
    }
    change_all(alloc, store, t, rows)?;
    Ok(true)
}

// Whether no row has a null in a column that refuses it.
fn are_filled(def: &TableDef, rows: &[Row]) -> bool
    ensures { result ≡ list_all (is_row_filled def.now) rows.now }
{
    rows.iter().all(|row| is_filled(def, row.values()))
}

// Puts each of some rows in the place of the one that has its key. Where memory runs out, the tables are as before.
fn change_all<S: Store>(
    alloc: Global,
    store: &mut S,
    t: u32,
    rows: Vec<Row>,
) -> Result<(), AllocError>
    requires exists { t < length (S.tables store.old) }
    requires places { IfSome (slice_get (S.tables store.old) t) (λ c. AreInPlace c rows.items) }
    requires room { S.marks store.old < most_marks }
    ensures ok { OnOk result (S.tables store.new ≡ changed_at (with_rows rows.items) (S.tables store.old) t) }
    ensures err { OnErr result (S.tables store.new ≡ S.tables store.old) }
    ensures marks { S.marks store.new ≡ S.marks store.old }
    ensures keeps { Keeps AnyMark (S.holds store.old) (S.at store.old) (S.holds store.new) (S.at store.new) }
{
    let mut rows = rows;
    if rows.len() == 1 {
        if let Some(row) = rows.pop() {
            return change_one(alloc, store, t, row);
        }
    }
    let mark = store.mark(alloc)?;
    match change_each(alloc, store, t, rows) {
        Ok(()) => {
            store.release(mark);
            Ok(())
        }
        Err(error) => {
            put_back(store, mark);
            Err(error)
        }
    }
}

// The same of one row, without a mark.
fn change_one<S: Store>(alloc: Global, store: &mut S, t: u32, row: Row) -> Result<(), AllocError>
    requires exists { t < length (S.tables store.old) }
    requires places { IfSome (slice_get (S.tables store.old) t) (λ c. AreInPlace c (row ∷ [])) }
    ensures ok { OnOk result (S.tables store.new ≡ changed_at (with_rows (row ∷ [])) (S.tables store.old) t) }
    ensures err { OnErr result (S.tables store.new ≡ S.tables store.old) }
    ensures marks { S.marks store.new ≡ S.marks store.old }
    ensures keeps { Keeps AnyMark (S.holds store.old) (S.at store.old) (S.holds store.new) (S.at store.new) }
{
    change_row(alloc, store, t, row)
}

// The same without a mark: where memory runs out, the rows before are in their places.
fn change_each<S: Store>(
    alloc: Global,
    store: &mut S,
    t: u32,
    rows: Vec<Row>,
) -> Result<(), AllocError>
    requires exists { t < length (S.tables store.old) }
    requires places { IfSome (slice_get (S.tables store.old) t) (λ c. AreInPlace c rows.items) }
    ensures ok { OnOk result (S.tables store.new ≡ changed_at (with_rows rows.items) (S.tables store.old) t) }
    ensures marks { S.marks store.new ≡ S.marks store.old }
    ensures keeps { Keeps AnyMark (S.holds store.old) (S.at store.old) (S.holds store.new) (S.at store.new) }
{
    for row in rows {
        change_row(alloc, store, t, row)?;
    }
    Ok(())
}

// Puts a row in the place of the one that has its key. Since that one is there, no refusal comes but that memory runs
// out, and then nothing changes.
fn change_row<S: Store>(alloc: Global, store: &mut S, t: u32, row: Row) -> Result<(), AllocError>
    requires exists { t < length (S.tables store.old) }
    requires fits { IfSome (slice_get (S.tables store.old) t) (λ c. IsRow c.def row) }
    requires named { IfSome (slice_get (S.tables store.old) t) (λ c. IsSome (namesake c row)) }
    ensures ok { OnOk result (S.tables store.new ≡ changed_at (λ c. with_row c row) (S.tables store.old) t) }
    ensures err { OnErr result (S.tables store.new ≡ S.tables store.old) }
    ensures defs { defs_of (S.tables store.new) ≡ defs_of (S.tables store.old) }
    ensures marks { S.marks store.new ≡ S.marks store.old }
    ensures keeps { Keeps AnyMark (S.holds store.old) (S.at store.old) (S.holds store.new) (S.at store.new) }
{
    match store.change(alloc, t, row) {
        Ok(()) => Ok(()),
        Err(RowFault::Memory) => Err(AllocError),
        Err(RowFault::Duplicate | RowFault::Absent | RowFault::Full) => unreachable!(),
    }
}
