//! When a resolved module file is well-typed (ISO/IEC 9075-4:1996), and the law that a well-typed one is never stuck. It has no code that
//! runs.
#![tactic(auto)]

mod laws;

pub use laws::well_typed_files_never_get_stuck;
