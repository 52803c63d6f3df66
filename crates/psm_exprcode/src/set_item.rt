//! The assignments of UPDATE.

use crate::code::ExprCode;

/// A column that UPDATE sets, and what it is set to (ISO/IEC 9075:1992, 13.10).
#[derive(Debug, Drop)]
pub struct SetItem {
    /// The number of the column.
    pub column: u32,
    /// Its columns are those of the table, with their values in the old row.
    pub source: ExprCode,
}
