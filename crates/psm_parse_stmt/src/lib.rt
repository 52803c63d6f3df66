//! Statements, blocks, declarations and handlers (ISO/IEC 9075-4:1996).
//!
//! Each function takes what the reader of its production takes (`Takes`, psm_tree). A `Halt` holds the
//! number of tokens that are left at the fault.
#![tactic(auto)]

mod branch;
mod compound;
mod condition;
mod cursor;
mod data;
mod declaration;
mod declare;
mod diagnostics;
mod item;
mod label;
mod loops;
mod named;
mod parse;
mod parts;
mod simple;
mod statements;

pub use condition::ordered_select;
pub use parse::parse_stmt;
pub use statements::statement;
