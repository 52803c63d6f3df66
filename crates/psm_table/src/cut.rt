//! Cuts of keys in their order.

use psm_value::Datum;

/// A cut of the keys in their order: before those that begin with the values, or after them.
#[derive(Clone, Copy)]
pub struct Cut<'a> {
    pub values: &'a [Datum],
    pub is_after: bool,
}
