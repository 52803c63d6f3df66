//! The end of a statement that has new rows (ISO/IEC 9075:1992, 11.7 to 11.9).
ghost use Rattle.std.specs.Prelude.{◌≡◌, ◌<◌, ◌++◌, [], All, IfSome, codes, length, slice_get, true};
ghost use Rattle.psm_table.specs.Changing.{counting, ended, in_order, rows_pass, IsLegal};
ghost use Rattle.psm_table.specs.Keyed.{are_keyed, defs_in, rows_in, IsKeyOf};
ghost use Rattle.psm_table.specs.Table.{IsTable};
ghost use Rattle.psm_store.specs.Marks.{AnyMark, Keeps, most_marks};
ghost use Rattle.psm_tablecode.specs.Codes.{over};
ghost use Rattle.psm_dml.specs.Ends.{keyed_schema, schema_of, Bears, Ends, Passes};
ghost use Rattle.psm_row_changes.specs.Rows.{keys_of_rows, without_keys, AreInPlace, IsWhole, TakesRows};
ghost use Rattle.psm_dml.specs.TypeChecks.{ChecksTypeCheck};

use crate::checking::judge;
use psm_cond::{Condition, DataFault};
use psm_exprcode::ExprCode;
use psm_row_changes::{change_keyed, replace_keyed};
use psm_sqlstate::SqlState;
use psm_store::{Key, Row, Store, Table};
use psm_table::ForeignKeys;
use psm_tablecode::raised;
use std::alloc::Global;

/// Takes the rows of some keys out of a table and puts new rows in, where these keep the rules of the table and all FOREIGN
/// KEY constraints hold with them, and gives how many the new rows are. First comes a condition that a CHECK raises, and then 23000.
pub(crate) fn finish<S: Store>(
    alloc: Global,
    store: &mut S,
    t: u32,
    checks: &[ExprCode],
    constraints: &ForeignKeys,
    keys: &[Key],
    rows: Vec<Row>,
) -> Result<u32, DataFault>
    requires takes { TakesRows (S.tables store.old) t keys.now rows.items }
    requires type_checks { IfSome (slice_get (S.tables store.old) t) (λ c. ChecksTypeCheck checks.now c.def) }
    requires legal { IfSome (slice_get (S.tables store.old) t) (λ c. IsLegal (over []) (schema_of c.def checks.now) (without_keys keys.now c).rows) }
    requires constraints { All (IsKeyOf (defs_in (S.tables store.old))) constraints.now }
    requires lawful { are_keyed constraints.now (rows_in (S.tables store.old)) ≡ true }
    requires room { S.marks store.old < most_marks }
    ensures answer { IfSome (slice_get (S.tables store.old) t) (λ c. Ends c (counting (length rows.items) (ended (over []) (keyed_schema constraints.now (S.tables store.old) t c.def checks.now) ((without_keys keys.now c).rows ++ rows.items))) (S.tables store.old) t (S.tables store.new) result) }
    ensures marks { S.marks store.new ≡ S.marks store.old }
    ensures keeps { Keeps AnyMark (S.holds store.old) (S.at store.old) (S.holds store.new) (S.at store.new) }
{
    match check(alloc, store.table(t), checks, rows.as_slice()) {
        Ok(()) => {}
        Err(fault) => return Err(fault),
    }
    let count = rows.len() as u32;
    if replace_keyed(alloc, store, t, constraints, keys, rows)? {
        Ok(count)
    } else {
        Err(violated(alloc, store.table(t)))
    }
}

/// The same where the new rows may be put in the places of those that have their keys.
pub(crate) fn finish_in_place<S: Store>(
    alloc: Global,
    store: &mut S,
    t: u32,
    checks: &[ExprCode],
    constraints: &ForeignKeys,
    made: Vec<Row>,
) -> Result<u32, DataFault>
    requires exists { t < length (S.tables store.old) }
    requires places { IfSome (slice_get (S.tables store.old) t) (λ c. AreInPlace c made.items) }
    requires type_checks { IfSome (slice_get (S.tables store.old) t) (λ c. ChecksTypeCheck checks.now c.def) }
    requires legal { IfSome (slice_get (S.tables store.old) t) (λ c. IsLegal (over []) (schema_of c.def checks.now) (without_keys (keys_of_rows c.def made.items) c).rows) }
    requires constraints { All (IsKeyOf (defs_in (S.tables store.old))) constraints.now }
    requires lawful { are_keyed constraints.now (rows_in (S.tables store.old)) ≡ true }
    requires room { S.marks store.old < most_marks }
    ensures answer { IfSome (slice_get (S.tables store.old) t) (λ c. Ends c (counting (length made.items) (ended (over []) (keyed_schema constraints.now (S.tables store.old) t c.def checks.now) ((without_keys (keys_of_rows c.def made.items) c).rows ++ made.items))) (S.tables store.old) t (S.tables store.new) result) }
    ensures marks { S.marks store.new ≡ S.marks store.old }
    ensures keeps { Keeps AnyMark (S.holds store.old) (S.at store.old) (S.holds store.new) (S.at store.new) }
{
    match check(alloc, store.table(t), checks, made.as_slice()) {
        Ok(()) => {}
        Err(fault) => return Err(fault),
    }
    let count = made.len() as u32;
    if change_keyed(alloc, store, t, constraints, made)? {
        Ok(count)
    } else {
        Err(violated(alloc, store.table(t)))
    }
}

// Whether the CHECKs hold on the new rows: the condition that one raises, or 23000 where one is false.
fn check(alloc: Global, table: &Table, checks: &[ExprCode], rows: &[Row]) -> Result<(), DataFault>
    requires type_checks { ChecksTypeCheck checks.now table.now.contents.def }
    requires rows { All (IsWhole table.now.contents.def) rows.now }
    ensures passes { Passes table.now.contents.def (rows_pass (over []) checks.now (in_order table.now.contents.def.key rows.now)) result }
    ensures table { IsTable table.now.contents }
{
    match judge(alloc, checks, table.def().key.items(), rows) {
        Ok(true) => Ok(()),
        Ok(false) => Err(violated(alloc, table)),
        Err(fault) => Err(raised(alloc, &fault)),
    }
}

/// 23000 with the name of the table.
pub(crate) fn violated(alloc: Global, table: &Table) -> DataFault
    ensures { Bears (codes "23000") table.now.contents.def result }
{
    at_table(alloc, SqlState::INTEGRITY_VIOLATION, table)
}

/// The fault of an SQLSTATE with the name of the table.
pub(crate) fn at_table(alloc: Global, state: SqlState, table: &Table) -> DataFault
    ensures { Bears state table.now.contents.def result }
{
    match Condition::at_table(alloc, state, &table.def().name) {
        Ok(condition) => DataFault::Raised(condition),
        Err(_) => DataFault::Memory,
    }
}
