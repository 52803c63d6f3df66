//! INSERT, UPDATE and DELETE over the tables of a store (ISO/IEC 9075:1992, 13.6 to 13.10).
#![tactic(auto)]

mod checking;
mod comparing;
mod deleting;
mod ending;
mod finding;
mod inserting;
mod moving;
mod placing;
mod planning;
mod setting;
mod storing;
mod typing;
mod updating;

pub use deleting::{delete, delete_at};
pub use inserting::insert;
pub use moving::update_at;
pub use psm_cond::DataFault;
pub use psm_exprcode::{ExprCode, SetItem};
pub use typing::{checks_type_check, sets_type_check};
pub use updating::update;
