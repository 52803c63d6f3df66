//! The first fault of a file: of its tokens, of the tree that they spell, or of a rule that a part of the tree breaks, with its place
//! and its text. What faults files have is said in `specs/Source`.
#![tactic(auto)]

mod accepting;
mod fault;

pub use accepting::accept;
pub use fault::{BuildFault, Fault, refused_script, refused_tokens, refused_tree};
