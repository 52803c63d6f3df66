//! The commands of the program. `run` puts the pieces of a script over a module file, `compile` the listing of a module file, and
//! `exec` the pieces of a script over an object, which is such a listing; each puts the line that says why a file is not accepted.
//! `gen` puts a summary of a session of generated calls.
#![tactic(auto)]

mod command;
mod compile;
mod exec;
mod generate;
mod laws;
mod refusal;
mod run;
mod session_run;
mod source;

pub use command::{Command, Files, perform};
pub use generate::MOST_CALLS;
pub use laws::something_is_expected;
