//! The words of a line of a listing: numbers, quoted texts, data, types, stacks of letters and states. Each is
//! written in one way, and only what is written so is read.
#![tactic(auto)]

mod data;
mod decimals;
mod fronts;
mod laws;
mod numbers;
mod quoting;
mod stacks;
mod states;
mod types;

pub use data::{datum, put_datum};
pub use laws::{
    data_have_one_spelling, numbers_have_one_spelling, quoted_texts_have_one_spelling,
    stacks_have_one_spelling, states_have_one_spelling, types_have_one_spelling,
};
pub use numbers::{number, put_number};
pub use quoting::{put_quoted, quoted};
pub use stacks::{put_stack, stack};
pub use states::{put_state, state};
pub use types::{put_type, sql_type};
