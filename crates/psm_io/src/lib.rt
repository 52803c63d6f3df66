//! The outside of the program: a shelf that files are fetched from, and a sink that pieces of text are
//! put into. Each has a form in memory, for tests, and the real one, which is the trusted edge.
#![tactic(auto)]

mod failures;
mod file_shelf;
mod mem_shelf;
mod mem_sink;
mod shelf;
mod sink;
mod std_sink;

pub use file_shelf::FileShelf;
pub use mem_shelf::MemShelf;
pub use mem_sink::MemSink;
pub use shelf::{Shelf, ShelfFault};
pub use sink::{Sink, SinkFault};
pub use std_sink::StdSink;

#[cfg(test)]
mod tests;
