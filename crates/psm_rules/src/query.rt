//! The items of a query.

use crate::shape::Shape;
use psm_token::Place;

/// The form of an item of a query.
#[derive(Clone, Copy, Debug, PartialEq, Eq)]
pub enum Picked {
    /// All columns.
    All,
    Plain,
    /// A set function.
    Set,
}

/// An item of a query, or one column of all columns: its place, and its shape, where it has one.
#[derive(Clone, Copy, Debug)]
pub struct Item {
    pub place: Place,
    pub shape: Option<Shape>,
}
