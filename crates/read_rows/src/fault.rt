//! Why a row has no other answer.

use psm_print::FormatFault;
use psm_token::{LexFault, Place};
use psm_tree::ParseFault;
use std::alloc::{AllocError, AllocFailed, Global};

/// What is wrong with a row or its text.
#[derive(Clone, Copy, Debug, PartialEq, Eq)]
pub enum Fault {
    /// The line is no row, or its text is too long, or it has no such token or level.
    Row,
    /// The text is no list of tokens.
    Token(LexFault),
    /// The tokens have no tree.
    Tree(ParseFault),
    /// What is printed of a file isn't printed of itself.
    Unstable,
    /// There is no memory.
    Memory,
}

impl Fault {
    fn place(self) -> Option<Place> {
        match self {
            Fault::Token(fault) => fault.place(),
            Fault::Tree(fault) => fault.place(),
            Fault::Row | Fault::Unstable | Fault::Memory => None,
        }
    }

    fn text(self) -> &'static str {
        match self {
            Fault::Row => "no row",
            Fault::Token(fault) => fault.text(),
            Fault::Tree(fault) => fault.text(),
            Fault::Unstable => "printed anew otherwise",
            Fault::Memory => "no memory",
        }
    }

    /// Where it is wrong, and what.
    pub fn reported(self, alloc: Global) -> Result<String, AllocError> {
        match self.place() {
            None => String::from_str(alloc, self.text()),
            Some(Place { line, column }) => format!(in alloc; "{line}:{column} {}", self.text()),
        }
    }
}

impl From<AllocError> for Fault {
    fn from(_error: AllocError) -> Fault {
        Fault::Memory
    }
}

impl<T: Drop> From<AllocFailed<T>> for Fault {
    fn from(_error: AllocFailed<T>) -> Fault {
        Fault::Memory
    }
}

impl From<LexFault> for Fault {
    fn from(fault: LexFault) -> Fault {
        Fault::Token(fault)
    }
}

impl From<ParseFault> for Fault {
    fn from(fault: ParseFault) -> Fault {
        match fault {
            ParseFault::Memory => Fault::Memory,
            fault => Fault::Tree(fault),
        }
    }
}

impl From<FormatFault> for Fault {
    fn from(fault: FormatFault) -> Fault {
        match fault {
            FormatFault::Lex(fault) => Fault::from(fault),
            FormatFault::Parse(fault) => Fault::from(fault),
            FormatFault::Memory => Fault::Memory,
        }
    }
}
