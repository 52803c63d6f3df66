//! INSERT (ISO/IEC 9075:1992, 13.8).
ghost use Rattle.std.specs.Prelude.{◌≡◌, ◌<◌, [], All, IfSome, length, slice_get, true};
ghost use Rattle.psm_table.specs.Changing.{inserted, IsLegal};
ghost use Rattle.psm_table.specs.Definition.{HasColumns};
ghost use Rattle.psm_table.specs.Keyed.{are_keyed, defs_in, rows_in, IsKeyOf};
ghost use Rattle.psm_store.specs.Marks.{AnyMark, Keeps, most_marks};
ghost use Rattle.psm_tablecode.specs.Codes.{over};
ghost use Rattle.psm_dml.specs.Ends.{keyed_schema, schema_of, Ends};
ghost use Rattle.psm_dml.specs.TypeChecks.{ChecksTypeCheck};

use crate::ending::{at_table, finish};
use crate::storing::stored_rows;
use psm_cond::DataFault;
use psm_exprcode::ExprCode;
use psm_sqlstate::SqlState;
use psm_store::{Row, Store};
use psm_table::ForeignKeys;
use psm_tablecode::raised;
use std::alloc::Global;

const MOST_ROWS: u32 = 200_000;

/// Puts rows into a table, and gives how many these are. All are stored first, row by row and in each from the left;
/// the first condition that this raises is that of the statement. Then comes X0002, where the table would have more
/// than 200,000 rows, equal keys among them; then a condition that a CHECK raises, of several rows by that of the first in
/// the order of the keys; and then 23000, where a CHECK is false, a null stands in a column that refuses it, or
/// two rows have equal keys or agree in a UNIQUE list, or a FOREIGN KEY constraint doesn't hold with the rows in (11.8). X0002 and
/// 23000 bear the table's name. With each condition, and where memory runs out, the tables are as before.
///
/// The table has to be there and to be legal for the CHECKs, and these have to fit its columns. The FOREIGN KEY constraints
/// have to be of the store's tables, and to hold. A row has a value for each column, which isn't stored yet. Marks stay as they are; fewer than 2^100 have to be open.
pub fn insert<S: Store>(
    alloc: Global,
    store: &mut S,
    t: u32,
    checks: &[ExprCode],
    constraints: &ForeignKeys,
    rows: Vec<Row>,
) -> Result<u32, DataFault>
    requires exists { t < length (S.tables store.old) }
    requires type_checks { IfSome (slice_get (S.tables store.old) t) (λ c. ChecksTypeCheck checks.now c.def) }
    requires legal { IfSome (slice_get (S.tables store.old) t) (λ c. IsLegal (over []) (schema_of c.def checks.now) c.rows) }
    requires rows { IfSome (slice_get (S.tables store.old) t) (λ c. All (HasColumns c.def) rows.items) }
    requires constraints { All (IsKeyOf (defs_in (S.tables store.old))) constraints.now }
    requires lawful { are_keyed constraints.now (rows_in (S.tables store.old)) ≡ true }
    requires room { S.marks store.old < most_marks }
    ensures answer { IfSome (slice_get (S.tables store.old) t) (λ c. Ends c (inserted (over []) (keyed_schema constraints.now (S.tables store.old) t c.def checks.now) rows.items c.rows) (S.tables store.old) t (S.tables store.new) result) }
    ensures marks { S.marks store.new ≡ S.marks store.old }
    ensures keeps { Keeps AnyMark (S.holds store.old) (S.at store.old) (S.holds store.new) (S.at store.new) }
{
    let table = store.table(t);
    let rows = match stored_rows(alloc, table.def().columns.items(), rows.as_slice()) {
        Ok(rows) => rows.into_vec(),
        Err(fault) => return Err(raised(alloc, &fault)),
    };
    if rows.len() > (MOST_ROWS - table.len()) as usize {
        return Err(at_table(alloc, SqlState::TABLE_FULL, table));
    }
    finish(alloc, store, t, checks, constraints, &[], rows)
}
