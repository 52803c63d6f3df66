//! The laws that all bytes are tokens, and all tokens a tree, or have a fault. It has no code that runs.
#![tactic(auto)]

mod laws;

pub use laws::files_are_read;
