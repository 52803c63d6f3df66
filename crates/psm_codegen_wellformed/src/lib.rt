//! The laws that code which is written for well-formed module files is well-formed. It has no code that runs.
#![tactic(auto)]

mod laws;

pub use laws::{
    expressions_break_no_rule, written_code_is_well_formed, written_code_keeps_letters,
};
