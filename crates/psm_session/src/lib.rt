//! Runs a script over code and the tables of a store, command after command, and puts the piece of text of each into a sink, or gives
//! that of the last.
#![tactic(auto)]

mod call;
mod command;
mod insert;
mod lines;
mod piece;
mod script;
mod select;
mod selecting;
mod silent;
mod step;
mod transaction;
mod work;

pub use command::{ScriptCode, ScriptCommand};
pub use script::{ScriptEnd, run_script};
pub use silent::{SilentEnd, run_silently};
pub use step::CommandEnd;
