//! Values by which FOREIGN KEY constraints are tested after a change (ISO/IEC 9075:1992, 11.8).
ghost use Rattle.std.specs.Prelude.{◌≡◌, ◌<◌, ◌∷◌, ◌++◌, [], All, IfOk, IfSome, OnOk, length, map, nat_le, slice_get};
ghost use Rattle.psm_table.specs.Definition.{IsKey};
ghost use Rattle.psm_table.specs.Key.{values_at, AreColumnsOf};
ghost use Rattle.psm_table.specs.Keyed.{defs_in, IsKeyOf};
ghost use Rattle.psm_row_changes.specs.KeyTests.{found_in, values_new as new_values, IsSought, Matched};
ghost use Rattle.psm_row_changes.specs.Rows.{IsWhole};

use crate::lookups::{is_late, values_in};
use psm_store::{Key, Row, Store, Table};
use psm_table::{ForeignKey, List, Parts};
use psm_value::Datum;
use std::alloc::{AllocError, Global};

/// What is looked up of a constraint after a change: the values of the new rows in the referencing columns, and those that the
/// rows which went had in the referenced columns.
#[derive(Drop)]
pub(crate) struct Sought {
    pub refer: List<Key>,
    pub gone: List<Key>,
}

/// What is looked up of each constraint; nothing where it isn't tested late, and where a walk is shorter.
pub(crate) fn seek<S: Store>(
    alloc: Global,
    store: &S,
    t: u32,
    constraints: &[ForeignKey],
    keys: &[Key],
    rows: &[Row],
) -> Result<List<Option<Sought>>, AllocError>
    requires exists { t < length (S.tables store.now) }
    requires constraints { All (IsKeyOf (defs_in (S.tables store.now))) constraints.now }
    requires fit { IfSome (slice_get (S.tables store.now) t) (λ c. All (IsKey c.def) keys.now) }
    requires rows { IfSome (slice_get (S.tables store.now) t) (λ c. All (IsWhole c.def) rows.now) }
    ensures { IfOk result (Matched (IsSought (S.tables store.now) t keys.now rows.now) constraints.now) }
{
    let mut sought = Vec::with_capacity(alloc, constraints.len())?;
    for key in constraints {
        sought.push(sought_by(alloc, store, t, key, keys, rows)?)?;
    }
    Ok(List::of(sought))
}

// What is looked up of one.
fn sought_by<S: Store>(
    alloc: Global,
    store: &S,
    t: u32,
    key: &ForeignKey,
    keys: &[Key],
    rows: &[Row],
) -> Result<Option<Sought>, AllocError>
    requires exists { t < length (S.tables store.now) }
    requires key { IsKeyOf (defs_in (S.tables store.now)) key.now }
    requires fit { IfSome (slice_get (S.tables store.now) t) (λ c. All (IsKey c.def) keys.now) }
    requires rows { IfSome (slice_get (S.tables store.now) t) (λ c. All (IsWhole c.def) rows.now) }
    ensures { IfOk result (IsSought (S.tables store.now) t keys.now rows.now key.now) }
{
    if !is_late(key, t, None, keys.is_empty()) {
        return Ok(None);
    }
    if !goes_by_values(store.table(key.from), keys.len()) {
        return Ok(None);
    }
    Ok(Some(Sought {
        refer: values_new(alloc, t, key, rows)?,
        gone: values_gone(alloc, store.table(t), key.target.items(), keys)?,
    }))
}

// Whether the values of rows that go are looked up in the referencing table: with more of them than that has rows, a walk over
// these is shorter.
fn goes_by_values(from: &Table, gone: usize) -> bool
    ensures { result ≡ nat_le gone (length from.now.contents.rows) }
{
    gone <= from.len() as usize
}

// The values of new rows in the referencing columns, if theirs is the referencing table.
fn values_new(
    alloc: Global,
    t: u32,
    key: &ForeignKey,
    rows: &[Row],
) -> Result<List<Key>, AllocError>
    requires { key.now.from ≡ t → All (λ row. AreColumnsOf row key.now.columns) rows.now }
    ensures { IfOk result (λ values. values ≡ new_values t key.now rows.now) }
{
    if key.from == t {
        values_of(alloc, key.columns.items(), rows)
    } else {
        Ok(List::of(Vec::new(alloc)))
    }
}

// The values of rows in columns.
fn values_of(alloc: Global, columns: &[u32], rows: &[Row]) -> Result<List<Key>, AllocError>
    requires { All (λ row. AreColumnsOf row columns.now) rows.now }
    ensures { IfOk result (λ values. values ≡ map (values_at columns.now) rows.now) }
{
    let mut values = Vec::with_capacity(alloc, rows.len())?;
    for row in rows {
        values.push(values_key(alloc, columns, row.values())?)?;
    }
    Ok(List::of(values))
}

// The values in columns of the rows of a table that have some keys.
fn values_gone(
    alloc: Global,
    table: &Table,
    columns: &[u32],
    keys: &[Key],
) -> Result<List<Key>, AllocError>
    requires columns { All (λ i. i < length table.now.contents.def.columns) columns.now }
    requires fit { All (IsKey table.now.contents.def) keys.now }
    ensures { IfOk result (λ values. values ≡ map (values_at columns.now) (found_in table.now.contents.def.key table.now.contents.rows keys.now)) }
{
    let mut values = Vec::with_capacity(alloc, keys.len())?;
    for key in keys {
        add_gone(alloc, &mut values, table, columns, key)?;
    }
    Ok(List::of(values))
}

// Appends those of one key.
fn add_gone(
    alloc: Global,
    values: &mut Vec<Key>,
    table: &Table,
    columns: &[u32],
    key: &Key,
) -> Result<(), AllocError>
    requires columns { All (λ i. i < length table.now.contents.def.columns) columns.now }
    requires fit { IsKey table.now.contents.def key.now }
    ensures { OnOk result (values.new.items ≡ values.old.items ++ map (values_at columns.now) (found_in table.now.contents.def.key table.now.contents.rows (key.now ∷ []))) }
{
    if let Some(row) = table.get(key) {
        values.push(values_key(alloc, columns, row.values())?)?;
    }
    Ok(())
}

// The row's values in the columns. One number takes no memory.
fn values_key(alloc: Global, columns: &[u32], row: &[Datum]) -> Result<Key, AllocError>
    requires { AreColumnsOf row.now columns.now }
    ensures { IfOk result (λ key. key ≡ values_at columns.now row.now) }
{
    match columns {
        [column] => Ok(Key::of_parts(Parts::One([row[*column as usize].copy(alloc)?]))),
        _ => Ok(Key::of(values_in(alloc, columns, row)?)),
    }
}
