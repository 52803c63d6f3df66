//! What a query takes of the rows that meet its test.

use crate::aggregate::Aggregate;
use crate::code::ExprCode;
use psm_list::List;

/// What a query takes of the rows that meet its test (ISO/IEC 9075:1992, 7.9).
#[derive(Debug, Drop)]
pub enum Items {
    /// The values of expressions on each row.
    Rows(List<ExprCode>),
    /// Set functions of all rows.
    Sets(List<Aggregate>),
}
