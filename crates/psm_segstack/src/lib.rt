//! A stack whose items never move: it grows by segments, and an item stays in the segment it was put into.
#![tactic(auto)]

mod segment;
mod stack;

pub use stack::SegStack;

#[cfg(test)]
mod tests;
