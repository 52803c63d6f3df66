//! Exact decimal numbers: a coefficient of at most 18 digits and a scale from 0 to 18, with their
//! arithmetic, order, numeric literals and printed form (ISO/IEC 9075:1992, 4.4, 5.3 and 6.12).
#![tactic(auto)]

mod dec;
mod fault;
mod laws;
mod power;
mod print;
mod read;

pub use dec::Dec;
pub use fault::NumFault;
pub use laws::{order_is_total, read_inverts_print};
