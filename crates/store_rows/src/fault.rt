//! Why a row has no answer.

use psm_table::RowFault;
use psm_text::{NameFault, TextFault};
use std::alloc::{AllocError, AllocFailed, Global};

/// Why an operation gives nothing.
#[derive(Drop)]
pub enum Fault {
    /// The line is no row, or its table, its mark or its row that was taken out isn't there.
    NoRow,
    /// The table refuses it.
    Refused(RowFault),
    /// There is no memory.
    Memory,
}

impl Fault {
    /// What is wrong.
    pub fn display(self, alloc: Global) -> Result<String, AllocError> {
        match self {
            Fault::NoRow => String::from_str(alloc, "no row"),
            Fault::Refused(RowFault::Duplicate) => String::from_str(alloc, "duplicate"),
            Fault::Refused(RowFault::Absent) => String::from_str(alloc, "absent"),
            Fault::Refused(RowFault::Full) => String::from_str(alloc, "full"),
            Fault::Refused(RowFault::Memory) | Fault::Memory => Err(AllocError),
        }
    }
}

impl From<AllocError> for Fault {
    fn from(_error: AllocError) -> Fault {
        Fault::Memory
    }
}

impl<T: Drop> From<AllocFailed<T>> for Fault {
    fn from(_error: AllocFailed<T>) -> Fault {
        Fault::Memory
    }
}

impl From<RowFault> for Fault {
    fn from(fault: RowFault) -> Fault {
        Fault::Refused(fault)
    }
}

impl From<TextFault> for Fault {
    fn from(fault: TextFault) -> Fault {
        match fault {
            TextFault::Memory => Fault::Memory,
            _ => Fault::NoRow,
        }
    }
}

impl From<NameFault> for Fault {
    fn from(fault: NameFault) -> Fault {
        match fault {
            NameFault::Memory => Fault::Memory,
            _ => Fault::NoRow,
        }
    }
}
