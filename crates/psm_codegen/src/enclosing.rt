//! What LEAVE and ITERATE can name.

/// A loop, with the lines at which it is left and begun again; a block, with its context, that of its statement, and the line at which
/// it is left; or the block of a FOR statement, with its context and that of its statement. While lines are written, labels stand in
/// place of those lines.
#[derive(Clone, Copy, Debug, PartialEq, Eq)]
pub enum EnclosingBlock {
    Loop {
        level: u32,
        out: u32,
        again: u32,
    },
    Block {
        level: u32,
        context: u32,
        outer: u32,
        exit: u32,
    },
    Rows {
        context: u32,
        outer: u32,
    },
}
