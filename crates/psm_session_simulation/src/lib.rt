//! Which commands of code stand for the commands of a script, and the law that these run what the module and the script mean. It has no
//! code that runs.
#![tactic(auto)]

mod laws;

pub use laws::code_runs_what_its_module_means;
