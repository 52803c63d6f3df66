//! Why a row has no value.

use psm_num::NumFault;
use psm_sqlstate::SqlState;
use psm_text::{NameFault, TextFault};
use psm_value::ValueFault;
use std::alloc::{AllocError, AllocFailed, Global};

/// Why an operation gives nothing.
#[derive(Drop)]
pub enum Fault {
    /// The line is no row.
    Row,
    Number(NumFault),
    Text(TextFault),
    Name(NameFault),
    /// The lines of code break a rule.
    IllFormed,
    /// The code names what isn't there, or is of another kind.
    Unfit,
    /// The condition that the operation raises.
    Condition(SqlState),
    /// There is no memory.
    Memory,
}

impl Fault {
    /// What is wrong.
    pub fn reported(self, alloc: Global) -> Result<String, AllocError> {
        match self {
            Fault::Row => String::from_str(alloc, "no row"),
            Fault::Number(fault) => format!(in alloc; "{fault}"),
            Fault::Text(fault) => String::from_str(alloc, text_fault(fault)),
            Fault::Name(fault) => String::from_str(alloc, name_fault(fault)),
            Fault::IllFormed => String::from_str(alloc, "ill-formed"),
            Fault::Unfit => String::from_str(alloc, "unfit"),
            Fault::Condition(state) => format!(in alloc; "SQLSTATE {}", state.text()),
            Fault::Memory => Err(AllocError),
        }
    }
}

fn text_fault(fault: TextFault) -> &'static str {
    match fault {
        TextFault::TooLong => "text too long",
        TextFault::Substring => "negative count",
        TextFault::EscapeChar => "invalid escape character",
        TextFault::EscapePair => "invalid escape sequence",
        TextFault::Lost => "character lost",
        TextFault::Memory => "no memory",
    }
}

fn name_fault(fault: NameFault) -> &'static str {
    match fault {
        NameFault::Empty => "empty name",
        NameFault::TooLong => "name too long",
        NameFault::Memory => "no memory",
    }
}

impl From<AllocError> for Fault {
    fn from(_error: AllocError) -> Fault {
        Fault::Memory
    }
}

impl<T: Drop> From<AllocFailed<T>> for Fault {
    fn from(_error: AllocFailed<T>) -> Fault {
        Fault::Memory
    }
}

impl From<NumFault> for Fault {
    fn from(fault: NumFault) -> Fault {
        Fault::Number(fault)
    }
}

impl From<SqlState> for Fault {
    fn from(state: SqlState) -> Fault {
        Fault::Condition(state)
    }
}

impl From<TextFault> for Fault {
    fn from(fault: TextFault) -> Fault {
        match fault {
            TextFault::Memory => Fault::Memory,
            fault => Fault::Text(fault),
        }
    }
}

impl From<NameFault> for Fault {
    fn from(fault: NameFault) -> Fault {
        match fault {
            NameFault::Memory => Fault::Memory,
            fault => Fault::Name(fault),
        }
    }
}

impl From<ValueFault> for Fault {
    fn from(fault: ValueFault) -> Fault {
        match fault {
            ValueFault::Condition(state) => Fault::Condition(state),
            ValueFault::Memory => Fault::Memory,
        }
    }
}
