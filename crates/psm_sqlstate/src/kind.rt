//! Success, warning, no data or exception.

/// What an SQLSTATE says of its statement (ISO/IEC 9075:1992, 22.1).
#[derive(Clone, Copy, Debug, PartialEq, Eq)]
pub enum Kind {
    /// Class 00.
    Success,
    /// Class 01.
    Warning,
    /// Class 02.
    NotFound,
    /// Every other class.
    Exception,
}
