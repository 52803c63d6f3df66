//! The text of a module file's tree: each tree is printed by the shortest of its spellings, and what is
//! printed is read again as the same tree, up to positions. A module file is formatted so: it is read, and its tree is printed.
//! Trees without positions, and what holds of them wherever their tokens stand, are here too.
#![tactic(auto)]

mod declarations;
mod diagnostics;
mod exprs;
mod files;
mod format;
mod laws;
mod names;
mod operators;
mod parts;
mod simple;
mod statements;
mod tree_text;

pub use format::{FormatFault, format_module};
pub use laws::{one_tree_up_to_positions, trees_at_other_places, trees_without_places};
pub use tree_text::print;
