//! Why a call means no function.

/// Why no function is chosen for a call (ISO/IEC 9075-4:1996, subject routine determination).
#[derive(Clone, Copy, Debug, PartialEq, Eq)]
pub enum ChoiceFault {
    /// No function has the name and takes the arguments.
    NoRoutine,
    /// Of several functions that take the arguments none is better than all others.
    Ambiguous,
}
