//! What a journal keeps of a change.
use psm_table::{Key, Row};

/// A change of a row of a table, by the table's number.
#[derive(Drop)]
pub(crate) struct Entry {
    pub table: u32,
    pub change: Change,
}

/// What was changed, as undoing it needs to know: the key of a row that was put in, or the row that was
/// taken or put out.
#[derive(Drop)]
pub(crate) enum Change {
    Inserted(Key),
    Erased(Row),
    Changed(Row),
}
