//! Queries over one table.

use crate::code::ExprCode;
use crate::items::Items;

/// A query over one table (ISO/IEC 9075:1992, 7.9): from which table rows come, in which order of their keys, what is
/// taken of them, and the test that they have to meet.
#[derive(Debug, Drop)]
pub struct Query {
    /// The number of the table.
    pub table: u32,
    /// Whether the rows come in descending order of their keys.
    pub downward: bool,
    /// What is taken.
    pub items: Items,
    /// Its columns are those of the table. Without a test each row is taken.
    pub test: Option<ExprCode>,
}
