//! Set functions of expressions.

use crate::code::ExprCode;

/// The name of a set function (ISO/IEC 9075:1992, 6.5).
#[derive(Clone, Copy, Debug, PartialEq, Eq)]
pub enum SetFunction {
    /// The number of values.
    Count,
    /// The sum of numbers.
    Sum,
    /// The first value than which none is less.
    Min,
    /// The first value than which none is greater.
    Max,
    /// The sum of numbers over how many they are.
    Avg,
}

/// A set function, and the expression whose values it is of. `COUNT(*)` has none: it counts rows.
#[derive(Debug, Drop)]
pub struct Aggregate {
    /// What is made of the values.
    pub function: SetFunction,
    /// Its columns are those of the query's table.
    pub operand: Option<ExprCode>,
}
