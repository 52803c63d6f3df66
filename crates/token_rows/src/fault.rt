//! Why a row has no tokens.

use psm_token::{LexFault, Place};
use std::alloc::{AllocError, AllocFailed, Global};

/// What is wrong with a row or its text.
#[derive(Drop)]
pub enum Fault {
    /// The line is no row, or its text is too long.
    Row,
    /// The text is no list of tokens.
    Token(LexFault),
    /// Other tokens are read of what is written.
    Otherwise,
    /// There is no memory.
    Memory,
}

impl Fault {
    /// What is wrong, after the place where it is.
    pub fn display(self, alloc: Global) -> Result<String, AllocError> {
        match self {
            Fault::Row => String::from_str(alloc, "no row"),
            Fault::Token(fault) => token_fault(alloc, fault),
            Fault::Otherwise => String::from_str(alloc, "read again otherwise"),
            Fault::Memory => Err(AllocError),
        }
    }
}

fn token_fault(alloc: Global, fault: LexFault) -> Result<String, AllocError> {
    match fault.place() {
        None => String::from_str(alloc, fault.text()),
        Some(Place { line, column }) => format!(in alloc; "{line}:{column} {}", fault.text()),
    }
}

impl From<AllocError> for Fault {
    fn from(_error: AllocError) -> Fault {
        Fault::Memory
    }
}

impl<T: Drop> From<AllocFailed<T>> for Fault {
    fn from(_error: AllocFailed<T>) -> Fault {
        Fault::Memory
    }
}

impl From<LexFault> for Fault {
    fn from(fault: LexFault) -> Fault {
        match fault {
            LexFault::Memory => Fault::Memory,
            fault => Fault::Token(fault),
        }
    }
}
