//! Expressions and queries (ISO/IEC 9075:1992, 6.1 to 8.12): what tokens spell one, and the tree of it.
//!
//! Each function takes what the reader of its production takes (`Takes`, psm_tree). An operand without an
//! operator around it is itself at the levels above.
//!
//! Each answers `Syntax` at the first token that no spelling goes on with, `Deep` at a token that opens a level
//! where none is left, and `Memory`. A `Halt` holds the number of tokens that are left at the fault.
#![tactic(auto)]

mod argument;
mod case;
mod condition;
mod function;
mod operator;
mod predicate;
mod primary;
mod query;
mod value;
mod whole;

pub use argument::{arguments, source, sources};
pub use condition::expr;
pub use query::{from_table, picks, select};
pub use whole::{parse_expr, parse_picks, parse_target, parse_type};
