//! SQL values: null, exact numbers and texts, with their types, arithmetic, order and truth, how they
//! are stored, fetched, cast and printed (ISO/IEC 9075:1992), and a counter of row steps.
#![tactic(auto)]

mod arithmetic;
mod casting;
mod datum;
mod fault;
mod order;
mod sqltype;
mod steps;
mod storing;
mod truth;

pub use arithmetic::{add, div, mul, neg, sub};
pub use casting::{cast, cast_reads_literals};
pub use datum::Datum;
pub use fault::ValueFault;
pub use order::{compare, data_order_is_total};
pub use psm_num::Dec;
pub use psm_sqlstate::SqlState;
pub use psm_text::Text;
pub use sqltype::SqlType;
pub use steps::Steps;
pub use storing::{fetch_into, is_stored, store_into, storing_is_stable};
pub use truth::Truth;
