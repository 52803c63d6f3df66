//! Nulls in columns that refuse them (ISO/IEC 9075:1992, 11.7 and 11.8).
ghost use Rattle.std.specs.Prelude.{◌≡◌, not, ◌&&◌, slice_index_or};
ghost use Rattle.psm_value.specs.declared.datum.Datum.TheVariants as data_of;
ghost use Rattle.std.specs.List.{list_all, zip};
ghost use Rattle.psm_table.specs.Changing.{is_filled as is_row_filled};
ghost use Rattle.psm_table.specs.Key.{values_at};
ghost use Rattle.psm_table.specs.Unique.{has_null, is_null as is_null_value};

use psm_table::{Column, TableDef};
use psm_value::Datum;

/// Whether no null stands in a column that refuses it, nor in the key.
pub(crate) fn is_filled(def: &TableDef, row: &[Datum]) -> bool
    ensures { result ≡ is_row_filled def.now row.now }
{
    are_filled(def.columns.items(), row) && !has_null_in(def.key.items(), row)
}

fn are_filled(columns: &[Column], row: &[Datum]) -> bool
    ensures { result ≡ list_all (λ p. not (p.0.not_null && is_null_value p.1)) (zip columns.now row.now) }
{
    columns
        .iter()
        .zip(row)
        .all(|(column, value)| !(column.not_null && is_null(value)))
}

fn has_null_in(columns: &[u32], row: &[Datum]) -> bool
    ensures { result ≡ has_null (values_at columns.now row.now) }
{
    for column in columns {
        if is_null_at(row, *column as usize) {
            return true;
        }
    }
    false
}

// Whether a row has a null in a column, or doesn't have it.
fn is_null_at(row: &[Datum], column: usize) -> bool
    ensures { result ≡ is_null_value (slice_index_or row.now column data_of.Null) }
{
    match row.get(column) {
        None | Some(Datum::Null) => true,
        Some(Datum::Num(_) | Datum::Text(_)) => false,
    }
}

/// Whether a value is null.
pub(crate) fn is_null(value: &Datum) -> bool
    ensures { result ≡ is_null_value value.now }
{
    match value {
        Datum::Null => true,
        Datum::Num(_) | Datum::Text(_) => false,
    }
}
