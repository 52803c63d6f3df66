//! UPDATE of the row that has a key (ISO/IEC 9075:1992, 13.9).
ghost use Rattle.std.specs.Prelude.{◌≡◌, ◌<◌, [], All, IfSome, length, map, slice_get, true};
ghost use Rattle.std.specs.Ordering.{is_ne};
ghost use Rattle.psm_value.specs.Answer.{Gives};
ghost use Rattle.psm_table.specs.Changing.{updated_at, IsLegal};
ghost use Rattle.psm_table.specs.Definition.{IsKey, IsRow};
ghost use Rattle.psm_table.specs.Key.{key_order, values_at, AreColumnsOf};
ghost use Rattle.psm_table.specs.Keyed.{are_keyed, defs_in, rows_in, IsKeyOf};
ghost use Rattle.psm_table.specs.Table.{keyed, IsTable};
ghost use Rattle.psm_store.specs.Marks.{AnyMark, Keeps, most_marks};
ghost use Rattle.psm_tablecode.specs.Codes.{over};
ghost use Rattle.psm_dml.specs.Changes.{changing, row_set, set_of};
ghost use Rattle.psm_dml.specs.Ends.{keyed_schema, schema_of, EndsAtRow};
ghost use Rattle.psm_dml.specs.TypeChecks.{ChecksTypeCheck, SetsTypeCheck};

use crate::comparing::order;
use crate::ending::finish;
use crate::planning::{Change, Plan, split};
use crate::setting::set_row;
use psm_cond::DataFault;
use psm_exprcode::{ExprCode, SetItem};
use psm_store::{Key, Row, Store, Table};
use psm_table::ForeignKeys;
use psm_tablecode::raised;
use psm_value::{Datum, ValueFault};
use std::alloc::Global;

/// Sets columns of the row that has a key to new values (UPDATE WHERE CURRENT OF), and answers whether the row has
/// another key now, as keys compare. All values are evaluated over the old row before the first is stored; what follows
/// is as in `update`. A key without a row changes nothing, and then the answer is `false`. With each condition, and
/// where memory runs out, the tables are as before.
///
/// The table has to be there and to be legal for the CHECKs, and CHECKs and assignments have to fit its columns, the
/// latter the variables too. The FOREIGN KEY constraints have to be of the store's tables, and to hold. `vars` are the values of
/// the variables. Marks stay as they are; fewer than 2^100 have to be open.
pub fn update_at<S: Store>(
    alloc: Global,
    store: &mut S,
    t: u32,
    checks: &[ExprCode],
    constraints: &ForeignKeys,
    key: &Key,
    sets: &[SetItem],
    vars: &[Datum],
) -> Result<bool, DataFault>
    requires exists { t < length (S.tables store.old) }
    requires checks { IfSome (slice_get (S.tables store.old) t) (λ c. ChecksTypeCheck checks.now c.def) }
    requires fits { IfSome (slice_get (S.tables store.old) t) (λ c. IsKey c.def key.now) }
    requires sets { IfSome (slice_get (S.tables store.old) t) (λ c. SetsTypeCheck sets.now vars.now c.def) }
    requires legal { IfSome (slice_get (S.tables store.old) t) (λ c. IsLegal (over []) (schema_of c.def checks.now) c.rows) }
    requires constraints { All (IsKeyOf (defs_in (S.tables store.old))) constraints.now }
    requires lawful { are_keyed constraints.now (rows_in (S.tables store.old)) ≡ true }
    requires room { S.marks store.old < most_marks }
    ensures answer { IfSome (slice_get (S.tables store.old) t) (λ c. EndsAtRow c (λ row. updated_at (over vars.now) (over []) (keyed_schema constraints.now (S.tables store.old) t c.def checks.now) (map set_of sets.now) row c.rows) (keyed c key.now) (S.tables store.old) t (S.tables store.new) result) }
    ensures marks { S.marks store.new ≡ S.marks store.old }
    ensures keeps { Keeps AnyMark (S.holds store.old) (S.at store.old) (S.holds store.new) (S.at store.new) }
{
    let table = store.table(t);
    let Some(row) = table.get(key) else {
        return Ok(false);
    };
    let change = match change_of_row(alloc, table, row, sets, vars) {
        Ok(change) => change,
        Err(fault) => return Err(raised(alloc, &fault)),
    };
    let moved = has_moved(table.def().key.items(), row, &change.made);
    let Plan { keys: gone, rows } = split(alloc, vec![in alloc; change]?)?;
    finish(alloc, store, t, checks, constraints, gone.as_slice(), rows)?;
    Ok(moved)
}

// What is made of a row of the table, and its key.
fn change_of_row(
    alloc: Global,
    table: &Table,
    row: &Row,
    sets: &[SetItem],
    vars: &[Datum],
) -> Result<Change, ValueFault>
    requires row { IsRow table.now.contents.def row.now }
    requires sets { SetsTypeCheck sets.now vars.now table.now.contents.def }
    ensures change { Gives (changing table.now.contents.def.key (row_set vars.now table.now.contents.def sets.now) row.now) result }
    ensures table { IsTable table.now.contents }
{
    let mut stack = Vec::new(alloc);
    let made = set_row(alloc, &mut stack, table.def(), sets, row, vars)?;
    Ok(Change {
        key: table.key_of(alloc, row)?,
        made,
    })
}

// Whether two rows have different keys.
fn has_moved(key: &[u32], old: &Row, new: &Row) -> bool
    requires old { AreColumnsOf old.now key.now }
    requires new { AreColumnsOf new.now key.now }
    ensures { result ≡ is_ne (key_order (values_at key.now old.now) (values_at key.now new.now)) }
{
    order(key, old.values(), new.values()).is_ne()
}
