//! What is expected of a script that is run over code without its module file, and the laws that it is one thing. It has no code that
//! runs.
#![tactic(auto)]

mod laws;

pub use laws::{
    code_has_the_sessions_of_its_module, commands_that_fit_have_one_session,
    runs_over_well_formed_code_show_their_session, scripts_over_code_are_one_thing,
    scripts_over_well_formed_code_have_one_session,
};
