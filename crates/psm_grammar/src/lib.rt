//! Grammars as data: the language of each, its reader, and the laws that tie the two.
//!
//! The definitions stand in `specs/`. A parser in Rust has the contract that it gives what the reader of
//! its production gives (`Gives`), and the whole parser that its answer is exact for the language of the
//! grammar (`Answers`). `grammar_laws` states what holds of every grammar.
#![tactic(auto)]

mod halt;
mod laws;

pub use halt::Halt;
pub use laws::grammar_laws;
