//! Which code stands for a module (ISO/IEC 9075-4:1996), and the law that it does what the module means. It has no code that runs.
#![tactic(auto)]

mod laws;

pub use laws::code_does_what_its_module_means;
