//! Sets of what may not stand twice in a listing: names, numbers of columns, routines, and the condition values of handlers. Each is
//! seen as the list of what was added so far, and says whether one more is among them, through a map.
#![tactic(auto)]

mod handled_values;
mod names;
mod numbers;
mod signatures;

pub use handled_values::HandledSet;
pub use names::NameSet;
pub use numbers::{NumberSet, are_distinct};
pub use signatures::SignatureSet;
