//! A resolved module file: each name is the slot, the number or the place of what it means where it stands.
#![tactic(auto)]

mod blocks;
mod calls;
mod conditions;
mod constants;
mod files;
mod forms;
mod fors;
mod handlers;
mod keys;
mod known;
mod laws;
mod references;
mod routines;
mod rows;
mod simple;
mod symbol_tables;
mod tables;

pub use files::resolve_file;
pub use laws::each_declaration_has_a_number_of_its_own;
