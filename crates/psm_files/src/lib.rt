//! How a call of a program ends, and the files that it names: a fetch of one, the lines that say why nothing is run, and a
//! put of one line.
#![tactic(auto)]

mod file;
mod line;
mod put;
mod status;

pub use file::{FetchFault, fetch};
pub use line::{fault_line, object_fault_line, too_long_line, unread_line};
pub use put::put_line;
pub use status::Status;
