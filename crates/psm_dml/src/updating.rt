//! UPDATE (ISO/IEC 9075:1992, 13.9 and 13.10).
ghost use Rattle.std.specs.Prelude.{◌≡◌, ◌<◌, [], All, IfSome, length, map, slice_get, true};
ghost use Rattle.std.specs.Option.{option_copied};
ghost use Rattle.psm_table.specs.Changing.{updated, IsLegal};
ghost use Rattle.psm_table.specs.Keyed.{are_keyed, defs_in, rows_in, IsKeyOf};
ghost use Rattle.psm_store.specs.Marks.{AnyMark, Keeps, most_marks};
ghost use Rattle.psm_tablecode.specs.Codes.{over};
ghost use Rattle.psm_dml.specs.Changes.{keep_places as places_kept, set_of};
ghost use Rattle.psm_dml.specs.Ends.{keyed_schema, schema_of, Ends};
ghost use Rattle.psm_dml.specs.TypeChecks.{ChecksTypeCheck, SetsTypeCheck, TypeChecksTest};

use crate::ending::{finish, finish_in_place};
use crate::placing::keep_places;
use crate::planning::{Plan, changes, made_rows, split};
use psm_cond::DataFault;
use psm_exprcode::{ExprCode, SetItem};
use psm_store::Store;
use psm_table::ForeignKeys;
use psm_tablecode::raised;
use psm_value::Datum;
use std::alloc::Global;

/// Sets columns of the rows that meet a test to new values, and gives how many rows these are. Without a test it sets
/// those of all. Row by row in the order of the keys come the test, all new values of the row over its old ones, and
/// their storing; the first condition that one of these raises is that of the statement. Then come a condition that a
/// CHECK raises, of several rows by that of the first in the order of the new keys, and 23000, where a CHECK is
/// false, a null stands in a column that refuses it, two rows have equal keys or agree in a UNIQUE list, or a FOREIGN KEY
/// constraint doesn't hold (11.8). The keys are those of all rows together, after the last row was changed. 23000 bears the
/// table's name. With each condition, and where memory runs out, the tables are as before.
///
/// The table has to be there and to be legal for the CHECKs, and CHECKs, test and assignments have to fit its columns, the
/// latter two the variables too. The FOREIGN KEY constraints have to be of the store's tables, and to hold. `vars` are the values
/// of the variables. Marks stay as they are; fewer than 2^100 have to be open.
pub fn update<S: Store>(
    alloc: Global,
    store: &mut S,
    t: u32,
    checks: &[ExprCode],
    constraints: &ForeignKeys,
    sets: &[SetItem],
    test: Option<&ExprCode>,
    vars: &[Datum],
) -> Result<u32, DataFault>
    requires exists { t < length (S.tables store.old) }
    requires checks { IfSome (slice_get (S.tables store.old) t) (λ c. ChecksTypeCheck checks.now c.def) }
    requires sets { IfSome (slice_get (S.tables store.old) t) (λ c. SetsTypeCheck sets.now vars.now c.def) }
    requires test { IfSome (slice_get (S.tables store.old) t) (λ c. TypeChecksTest (option_copied test) vars.now c.def) }
    requires legal { IfSome (slice_get (S.tables store.old) t) (λ c. IsLegal (over []) (schema_of c.def checks.now) c.rows) }
    requires constraints { All (IsKeyOf (defs_in (S.tables store.old))) constraints.now }
    requires lawful { are_keyed constraints.now (rows_in (S.tables store.old)) ≡ true }
    requires room { S.marks store.old < most_marks }
    ensures answer { IfSome (slice_get (S.tables store.old) t) (λ c. Ends c (updated (over vars.now) (over []) (keyed_schema constraints.now (S.tables store.old) t c.def checks.now) (map set_of sets.now) (option_copied test.entry) c.rows) (S.tables store.old) t (S.tables store.new) result) }
    ensures marks { S.marks store.new ≡ S.marks store.old }
    ensures keeps { Keeps AnyMark (S.holds store.old) (S.at store.old) (S.holds store.new) (S.at store.new) }
{
    if keep_places(store.table(t).def(), sets) {
        update_in_place(alloc, store, t, checks, constraints, sets, test, vars)
    } else {
        update_anew(alloc, store, t, checks, constraints, sets, test, vars)
    }
}

// The same where no assignment sets a column of the key, nor one of a UNIQUE list: each new row is put in the place of the
// old one.
fn update_in_place<S: Store>(
    alloc: Global,
    store: &mut S,
    t: u32,
    checks: &[ExprCode],
    constraints: &ForeignKeys,
    sets: &[SetItem],
    test: Option<&ExprCode>,
    vars: &[Datum],
) -> Result<u32, DataFault>
    requires exists { t < length (S.tables store.old) }
    requires checks { IfSome (slice_get (S.tables store.old) t) (λ c. ChecksTypeCheck checks.now c.def) }
    requires sets { IfSome (slice_get (S.tables store.old) t) (λ c. SetsTypeCheck sets.now vars.now c.def) }
    requires test { IfSome (slice_get (S.tables store.old) t) (λ c. TypeChecksTest (option_copied test) vars.now c.def) }
    requires legal { IfSome (slice_get (S.tables store.old) t) (λ c. IsLegal (over []) (schema_of c.def checks.now) c.rows) }
    requires places { IfSome (slice_get (S.tables store.old) t) (λ c. places_kept c.def sets.now ≡ true) }
    requires constraints { All (IsKeyOf (defs_in (S.tables store.old))) constraints.now }
    requires lawful { are_keyed constraints.now (rows_in (S.tables store.old)) ≡ true }
    requires room { S.marks store.old < most_marks }
    ensures answer { IfSome (slice_get (S.tables store.old) t) (λ c. Ends c (updated (over vars.now) (over []) (keyed_schema constraints.now (S.tables store.old) t c.def checks.now) (map set_of sets.now) (option_copied test.entry) c.rows) (S.tables store.old) t (S.tables store.new) result) }
    ensures marks { S.marks store.new ≡ S.marks store.old }
    ensures keeps { Keeps AnyMark (S.holds store.old) (S.at store.old) (S.holds store.new) (S.at store.new) }
{
    let rows = match made_rows(alloc, store.table(t), sets, test, vars) {
        Ok(rows) => rows.into_vec(),
        Err(fault) => return Err(raised(alloc, &fault)),
    };
    finish_in_place(alloc, store, t, checks, constraints, rows)
}

// The same in general: all old rows are taken out before the first new one is put in.
fn update_anew<S: Store>(
    alloc: Global,
    store: &mut S,
    t: u32,
    checks: &[ExprCode],
    constraints: &ForeignKeys,
    sets: &[SetItem],
    test: Option<&ExprCode>,
    vars: &[Datum],
) -> Result<u32, DataFault>
    requires exists { t < length (S.tables store.old) }
    requires checks { IfSome (slice_get (S.tables store.old) t) (λ c. ChecksTypeCheck checks.now c.def) }
    requires sets { IfSome (slice_get (S.tables store.old) t) (λ c. SetsTypeCheck sets.now vars.now c.def) }
    requires test { IfSome (slice_get (S.tables store.old) t) (λ c. TypeChecksTest (option_copied test) vars.now c.def) }
    requires legal { IfSome (slice_get (S.tables store.old) t) (λ c. IsLegal (over []) (schema_of c.def checks.now) c.rows) }
    requires constraints { All (IsKeyOf (defs_in (S.tables store.old))) constraints.now }
    requires lawful { are_keyed constraints.now (rows_in (S.tables store.old)) ≡ true }
    requires room { S.marks store.old < most_marks }
    ensures answer { IfSome (slice_get (S.tables store.old) t) (λ c. Ends c (updated (over vars.now) (over []) (keyed_schema constraints.now (S.tables store.old) t c.def checks.now) (map set_of sets.now) (option_copied test.entry) c.rows) (S.tables store.old) t (S.tables store.new) result) }
    ensures marks { S.marks store.new ≡ S.marks store.old }
    ensures keeps { Keeps AnyMark (S.holds store.old) (S.at store.old) (S.holds store.new) (S.at store.new) }
{
    let Plan { keys: gone, rows } = match changes(alloc, store.table(t), sets, test, vars) {
        Ok(changes) => split(alloc, changes.into_vec())?,
        Err(fault) => return Err(raised(alloc, &fault)),
    };
    finish(alloc, store, t, checks, constraints, gone.as_slice(), rows)
}
