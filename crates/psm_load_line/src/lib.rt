//! How the lines of a listing are read: each line has one reading and one spelling.
#![tactic(auto)]

mod code_lines;
mod details;
mod fault;
mod front;
mod handlers;
mod head;
mod heads;
mod laws;
mod lists;
mod mnemonics;
mod queries;
mod routines;
mod tables;
mod values;

pub use code_lines::{code_line, operation_line};
pub use fault::Unread;
pub use handlers::{condition, context, handler};
pub use head::{
    ControlCounts, DataCounts, ItemHead, PlanHead, QueryHead, Reference, RoutineHead, TableHead,
};
pub use heads::{expression_head, first_head, set_head};
pub use laws::{lines_have_one_spelling, other_lines_have_one_spelling};
pub use queries::{cursor, item_head, plan_head, query_head};
pub use routines::{parameter, routine_head, slot};
pub use tables::{column, key, reference, table_head, unique};
