//! Tables that can be put back to marks by undoing the changes since, one after another.
#![tactic(auto)]

mod entry;
mod journal;
mod journaled;
mod packed;
mod plain;
mod touched;
mod undo_store;

pub use journal::Journal;
pub use psm_store::{ForeignKey, Key, List, Mark, Row, RowFault, Steps, Store, Table, TableDef};
pub use undo_store::UndoStore;
