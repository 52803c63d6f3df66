//! A cursor over tokens, and the parsers of names, types and constants, in which no level is opened.
//!
//! Each function takes what the reader of its production takes (`Takes`, psm_tree). A `Halt` holds the
//! number of tokens that are left at the fault.
#![tactic(auto)]

mod constants;
mod cursor;
mod fault;
mod names;
mod token;
mod types;

pub use constants::{constant, plus_minus};
pub use cursor::Tokens;
pub use fault::fault_of;
pub use names::{names_in_parens, next_names, perhaps_names, second_name, target, targets};
pub use types::{char_length, char_rest, data_type, plain_type, type_length, varying};
