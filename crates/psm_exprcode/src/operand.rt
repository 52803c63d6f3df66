//! The operands of expression code.
use psm_value::{Datum, Truth};

/// An operand: a value, or a truth value.
#[derive(Debug, Drop)]
pub enum Operand {
    Value(Datum),
    Truth(Truth),
}

/// Where an expression goes on.
#[derive(Clone, Copy, Debug, PartialEq, Eq)]
pub enum Next {
    /// At the line that follows.
    FallThrough,
    /// At a line of that number.
    Jump(u32),
}
