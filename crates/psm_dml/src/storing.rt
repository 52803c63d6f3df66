//! Rows as the columns of a table store them (ISO/IEC 9075:1992, 9.2).
ghost use Rattle.std.specs.Prelude.{◌≡◌, All, length};
ghost use Rattle.psm_value.specs.Answer.{Gives};
ghost use Rattle.psm_value.specs.SqlType.{IsType};
ghost use Rattle.psm_value.specs.Stored.{stored};
ghost use Rattle.psm_table.specs.Changing.{stored_row as row_as_stored, stored_rows as rows_as_stored};
ghost use Rattle.psm_table.specs.Definition.{kinds_of};

use psm_table::{Column, List, Row};
use psm_value::{Datum, ValueFault, store_into};
use std::alloc::Global;

/// The rows as the columns store them, or the first condition that storing a value raises, row by row and in each from the
/// left.
pub(crate) fn stored_rows(
    alloc: Global,
    columns: &[Column],
    rows: &[Row],
) -> Result<List<Row>, ValueFault>
    requires types { All IsType (kinds_of columns.now) }
    requires long { All (λ row. length row ≡ length columns.now) rows.now }
    ensures { Gives (rows_as_stored (kinds_of columns.now) rows.now) result }
{
    let mut stored = Vec::with_capacity(alloc, rows.len())?;
    for row in rows {
        stored.push(stored_row(alloc, columns, row.values())?)?;
    }
    Ok(List::of(stored))
}

fn stored_row(alloc: Global, columns: &[Column], values: &[Datum]) -> Result<Row, ValueFault>
    requires types { All IsType (kinds_of columns.now) }
    requires long { length values.now ≡ length columns.now }
    ensures { Gives (row_as_stored (kinds_of columns.now) values.now) result }
{
    let mut stored = Vec::with_capacity(alloc, columns.len())?;
    for at in 0..columns.len() {
        let value = stored_value(alloc, &columns[at], &values[at])?;
        stored.push(value)?;
    }
    Ok(Row::of(stored))
}

/// The value as a column stores it.
pub(crate) fn stored_value(
    alloc: Global,
    column: &Column,
    value: &Datum,
) -> Result<Datum, ValueFault>
    requires { IsType column.now.kind }
    ensures { Gives (stored column.now.kind value.now) result }
{
    store_into(alloc, column.kind, value)
}
