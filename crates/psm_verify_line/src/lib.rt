//! What the verifier asks about a single line of a routine: whether its jump, its context and the line after its statement are right,
//! and which operands are there. A jump, a context or a line is right where the rules of code (psm_code) say so.
#![tactic(auto)]

mod contexts;
mod jumps;
mod operands;
mod resumes;

pub use contexts::{context_after, is_action_of, is_block, is_in, jumps_within, stands_right};
pub use jumps::{falls_through, is_target, jump_of, jumps_right};
pub use operands::{are_same, are_stated, is_known, left};
pub use resumes::{is_bare, resumes_at, wants_resume};
