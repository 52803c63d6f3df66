//! Writes the code of resolved module files (ISO/IEC 9075-4:1996), one line after another.
#![tactic(auto)]

mod calling;
mod changes;
mod declared_letters;
mod diagnostics;
mod enclosing;
mod labels;
mod leaving;
mod lowering;
mod parts;
mod routines;
mod simples;
mod statements;
mod steps;
mod storing;
mod tables;

pub use declared_letters::columns_of;
pub use enclosing::EnclosingBlock;
pub use lowering::lower;
