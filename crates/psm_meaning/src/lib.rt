//! What the statements of a module and the commands of a script mean (ISO/IEC 9075-4:1996): definitions over resolved trees,
//! and laws of them. It has no code that runs.
#![tactic(auto)]

mod laws;

pub use laws::{fuel_of_a_file_is_enough, more_fuel_changes_nothing};
