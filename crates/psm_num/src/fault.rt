//! Why an operation gives no number.
use thiserror::Error;

/// Why an operation gives no number.
#[derive(Clone, Copy, Debug, PartialEq, Eq, Error)]
pub enum NumFault {
    #[error("numeric value out of range")]
    Range,
    #[error("division by zero")]
    Zero,
    #[error("not a number")]
    NotNumber,
}
