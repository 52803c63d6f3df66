//! The state of a run of code, and what happens where a line raises a condition (ISO/IEC 9075-4:1996): blocks are left, what an
//! ATOMIC block changed is taken back, and the action of a handler begins.
#![tactic(auto)]

mod actions;
mod ending;
mod leaving;
mod parts;
mod raising;
mod run;
mod turns;

pub use actions::{activating, leave_action, stacked_condition_item, stacked_statement_item};
pub use ending::{Ending, Outcome};
pub use leaving::{leave_frame, leave_until};
pub use parts::{block_at, handler_at, routine_at};
pub use raising::raise;
pub use run::{Activation, Frame, Run};
pub use turns::spend;
