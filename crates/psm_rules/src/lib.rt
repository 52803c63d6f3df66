//! The rules of the checker: their codes and words, the first fault of a part, and what small parts evaluate to by themselves.
#![tactic(auto)]

mod block;
mod checked;
mod fault;
mod query;
mod rule;
mod shape;
mod shapes;
mod table;

pub use block::undo_fault;
pub use checked::{
    Checked, all_of, are_shaped, as_condition, as_value, broken, combined, faults_in, of_family,
    shape_of, well_typed,
};
pub use fault::{Fault, breaks, breaks_if, earlier};
pub use query::{Item, Picked};
pub use rule::Rule;
pub use shape::{Family, Shape, Typed};
pub use shapes::{
    CHARACTER, INTEGER, VARYING, at_larger_scale, family_of, higher, is_of, joined, of_literal,
    typed,
};
pub use table::too_many;
