//! From the text of a listing to well-formed code, or the first line by which it is none.
#![tactic(auto)]

mod expressions;
mod fault;
mod handlers;
mod items;
mod laws;
mod left;
mod listed;
mod loading;
mod plans;
mod queries;
mod routines;
mod stop;
mod tables;

pub use fault::{LoadFault, ObjectFault};
pub use laws::{
    a_text_stands_for_the_code_that_it_lists, objects_have_numbered_handlers, texts_are_one_thing,
    the_lines_of_a_listing_are_due,
};
pub use loading::load;
