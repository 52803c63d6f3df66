//! A list and a box that contracts see as what they hold, so that a tree of them is plain data and
//! two trees with the same contents are the same value.
#![tactic(auto)]

mod boxed;
mod list;
mod one_or_more;

pub use boxed::Boxed;
pub use list::List;
pub use one_or_more::OneOrMore;

#[cfg(test)]
mod tests;
