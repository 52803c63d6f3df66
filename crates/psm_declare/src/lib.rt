//! The declarations of compound statements with their names resolved: each variable has a slot, each cursor and each condition without an
//! SQLSTATE a number, and expressions are read in the scopes that are open where they stand.
#![tactic(auto)]

mod declarations;
mod declaring;
mod exprs;
mod numbering;
mod resolver;

pub use declarations::{Declared, enter_compound, known_type, ordered_query};
pub use declaring::{declare_cursor, declare_known, declare_variable};
pub use exprs::{expr_at, optional_at, push_expr};
pub use numbering::Numbering;
pub use resolver::ResolveContext;
