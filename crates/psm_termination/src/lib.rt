//! Runs of code end. There is no running code here.
#![tactic(auto)]

mod laws;

pub use laws::well_formed_code_ends;
