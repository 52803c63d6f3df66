//! SQLSTATEs: their five characters, what their class says, and what they mean.
#![tactic(auto)]

mod kind;
mod state;

pub use kind::Kind;
pub use state::SqlState;
