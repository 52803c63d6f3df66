//! Changes of several rows of one table of a store, all of them or none, under the rules of the table and FOREIGN KEY constraints
//! (ISO/IEC 9075:1992, 11.7 and 11.8).
#![tactic(auto)]

mod applying;
mod changing;
mod filling;
mod keying;
mod lookups;
mod seeking;

pub use keying::{change_keyed, erase_keyed, replace_keyed};
