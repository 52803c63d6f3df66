//! Rows that others refer to (ISO/IEC 9075:1992, 11.8).
ghost use Rattle.std.specs.Bool.{OnTrue};
ghost use Rattle.std.specs.Prelude.{◌≡◌, length, slice_get, take, Some, IfSome, false};
ghost use Rattle.psm_table.specs.Key.{values_at};
ghost use Rattle.psm_table.specs.Keyed.{has_values};
ghost use Rattle.psm_table.specs.Unique.{equal_values, has_null};

use crate::index::is_null_in;
use crate::probe::Probe;
use crate::walk::RowsLeft;
use psm_list::List;
use psm_value::Datum;

/// Whether a key begins with the columns, in order.
pub(crate) fn begins(key: &[u32], columns: &[u32]) -> bool
    ensures { OnTrue result (take (length columns.now) key.now ≡ columns.now) }
{
    columns.len() <= key.len() && &key[..columns.len()] == columns
}

/// The index of a list that has just these columns, in order.
pub(crate) fn list_of(lists: &[List<u32>], columns: &[u32]) -> Option<usize>
    ensures { IfSome result (λ i. slice_get lists.now i ≡ Some columns.now) }
{
    for i in 0..lists.len() {
        if lists[i].items() == columns {
            return Some(i);
        }
    }
    None
}

/// Whether one of the rows of a walk has the values in the columns. It takes no memory.
pub(crate) fn has_row_with(mut rows: RowsLeft<'_>, columns: &[u32], values: &[Datum]) -> bool
    requires filled { has_null values.now ≡ false }
    ensures { result ≡ has_values columns.now values.now rows.entry }
{
    'rows: while let Some(row) = rows.next() {
        if has_in(row.values(), columns, values) {
            return true;
        }
    }
    false
}

/// Whether a row has the values in the columns. A column that it doesn't have counts as null.
pub(crate) fn has_in(row: &[Datum], columns: &[u32], values: &[Datum]) -> bool
    requires filled { has_null values.now ≡ false }
    ensures { result ≡ equal_values values.now (values_at columns.now row.now) }
{
    if is_null_in(row, columns) {
        return false;
    }
    Probe::Of(values).order(Probe::In { columns, row }).is_eq()
}
