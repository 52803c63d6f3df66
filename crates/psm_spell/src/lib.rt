//! Tokens as text, such that the text, read again, is these tokens (ISO/IEC 9075:1992, 5.1 to 5.4).
#![tactic(auto)]

mod gaps;
mod laws;
mod log;
mod part;
mod spaced;
mod spell;
mod writer;

pub use gaps::Gaps;
pub use laws::spelled_tokens;
pub use spaced::SpacedWriter;
pub use writer::Writer;
