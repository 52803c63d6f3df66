//! Rows compared by their keys.
ghost use Rattle.std.specs.Prelude.{◌≡◌};
ghost use Rattle.psm_table.specs.Key.{key_order, values_at, AreColumnsOf};

use psm_value::Datum;
use std::cmp::Ordering;

/// The order of the keys of two rows: the first values that differ decide, numbers by value and texts padded, and null
/// goes before all (ISO/IEC 9075:1992, 8.2).
pub(crate) fn order(key: &[u32], a: &[Datum], b: &[Datum]) -> Ordering
    requires a { AreColumnsOf a.now key.now }
    requires b { AreColumnsOf b.now key.now }
    ensures { result ≡ key_order (values_at key.now a.now) (values_at key.now b.now) }
{
    for column in key {
        let i = *column as usize;
        match a[i].total_cmp(&b[i]) {
            Ordering::Equal => {}
            unequal => return unequal,
        }
    }
    Ordering::Equal
}
