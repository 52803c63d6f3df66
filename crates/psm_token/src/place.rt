//! Places in a file.

/// A place in a file: the line and the column, both from 1. A column is a character, and a line feed
/// alone begins a new line.
#[derive(Clone, Copy, Debug, PartialEq, Eq)]
pub struct Place {
    pub line: u32,
    pub column: u32,
}
