//! The listing of code: a text of lines, each of which stands for a part of the code, in the order in which the rules of
//! code count them.
#![tactic(auto)]

mod expressions;
mod handlers;
mod instructions;
mod laws;
mod listing;
mod plans;
mod queries;
mod references;
mod routines;
mod tables;
mod words;

pub use laws::{mnemonics_are_those_of_the_table, rules_count_the_lines_of_a_listing};
pub use listing::write;
