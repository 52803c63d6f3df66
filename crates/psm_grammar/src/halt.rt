//! Why a parser stops.
ghost use Rattle.std.specs.Prelude.{◌≡◌};
ghost use Rattle.psm_grammar.specs.declared.halt.Halt.TheVariants.{Memory};

use std::alloc::{AllocError, AllocFailed};

/// Why a parser stops, with the number of tokens that are left there.
#[derive(Debug, Clone, Copy)]
pub enum Halt {
    /// No word of the grammar goes on as the tokens do.
    Syntax(usize),
    /// The next token opens a level above the limit.
    Deep(usize),
    /// There is no memory for the value.
    Memory,
}

impl From<AllocError> for Halt {
    ghost from_gives = { λ _ e. e ≡ Memory };

    fn from(_error: AllocError) -> Halt {
        Halt::Memory
    }
}

impl<T: Drop> From<AllocFailed<T>> for Halt {
    ghost from_gives = { λ _ e. e ≡ Memory };

    fn from(_error: AllocFailed<T>) -> Halt {
        Self::Memory
    }
}
