//! Cursors over one table (ISO/IEC 9075:1992, 13.1 to 13.5).
#![tactic(auto)]

mod cursor;
mod fetching;
mod position;
mod walking;

pub use cursor::Cursor;
