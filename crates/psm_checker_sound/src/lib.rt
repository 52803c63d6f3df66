//! What stands for an accepted module file is well-typed (ISO/IEC 9075-4:1996). It has no code that runs.
#![tactic(auto)]

mod laws;

pub use laws::{
    accepted_expressions_are_well_typed, accepted_files_are_well_formed,
    accepted_simple_statements_are_well_typed, null_stands_in_files_where_it_may,
    null_stands_in_what_is_read_where_it_may, null_stands_where_it_may,
};
