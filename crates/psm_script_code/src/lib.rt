//! Makes the commands of an accepted script into those that are run over the code of a module file.
#![tactic(auto)]

mod commands;
mod known;
mod laws;
mod lowering;

pub use laws::{
    accepted_scripts_are_well_typed, commands_of_accepted_scripts_fit_their_code,
    commands_of_accepted_scripts_fit_well_formed_code,
    scripts_name_the_same_of_a_file_and_its_code, the_tables_of_well_formed_code_are_definitions,
};
pub use lowering::lower_script;
