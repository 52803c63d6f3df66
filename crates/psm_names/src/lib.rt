//! The law that each name is resolved to the declaration that the look-up of scopes gives. It has no code that runs.
#![tactic(auto)]

mod laws;

pub use laws::{
    each_number_is_of_one_declaration, names_are_resolved, names_in_expressions_are_resolved,
    names_in_files_are_resolved, names_in_keys_are_resolved, names_mean_declarations_before_them,
    names_mean_what_the_file_declares, scopes_hold_what_is_declared,
};
