//! The checker's half over expressions and queries: their first fault and the shapes of their values, with what is seen around them.
#![tactic(auto)]

mod checker_scope;
mod exprs;
mod known;
mod operators;
mod queries;
mod results;
mod symbols;
mod types;

pub use checker_scope::{CheckerScope, name_in, on_row, same_name, spelling};
pub use exprs::{check_expr, check_query};
pub use known::{CheckedCursor, Scopes};
pub use operators::{simple_test, text_result};
pub use queries::{
    PickChecked, QueryChecked, first_set, may_be, misplaced_set, row_of, set_result, table_fault,
    test_fault,
};
pub use symbols::{Columns, Key, SymbolTable};
pub use types::{type_fault, type_of};
