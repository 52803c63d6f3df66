//! What resolved module files are that the checker accepts (ISO/IEC 9075-4:1996), and the laws that such a file is well-typed, that
//! its tables are defined as tables may be, and that code can stand for it. It has no code that runs.
#![tactic(auto)]

mod laws;

pub use laws::{
    well_formed_files_are_well_typed, well_formed_files_can_stand,
    well_formed_tables_are_definitions,
};
