//! Why a file is no list of tokens.
ghost use Rattle.std.specs.Prelude.{◌≡◌};
ghost use Rattle.psm_token.specs.FaultTexts.{fault_text, fault_place};

use crate::place::Place;
use std::alloc::{AllocError, AllocFailed};

/// The first fault of a file, with its place. Of several faults of one token the earlier place decides,
/// and then the order of the variants.
#[derive(Clone, Copy, Debug, PartialEq, Eq)]
pub enum LexFault {
    /// The first byte that is part of no character.
    BadUtf8(Place),
    /// A character that begins no token, a letter directly after a number, or the second quote of `""`.
    BadChar(Place),
    /// A text without an end.
    OpenText(Place),
    /// A delimited name without an end.
    OpenName(Place),
    /// A text of more than 4000 characters.
    LongText(Place),
    /// A number of more than 18 digits.
    LongNumber(Place),
    /// A name of more than 128 characters.
    LongName(Place),
    /// The token after 2,000,000 others.
    ManyTokens(Place),
    /// Memory ran out.
    Memory,
}

impl LexFault {
    /// What is wrong, in words; nothing for `Memory`.
    pub fn text(self) -> &'static str
        ensures { result.now ≡ fault_text self }
    {
        match self {
            LexFault::BadUtf8(_) => "not UTF-8",
            LexFault::BadChar(_) => "bad character",
            LexFault::OpenText(_) => "text without end",
            LexFault::OpenName(_) => "name without end",
            LexFault::LongText(_) => "text too long",
            LexFault::LongNumber(_) => "number too long",
            LexFault::LongName(_) => "name too long",
            LexFault::ManyTokens(_) => "too many tokens",
            LexFault::Memory => "",
        }
    }

    /// Where it is wrong; `None` for `Memory`.
    pub fn place(self) -> Option<Place>
        ensures { result ≡ fault_place self }
    {
        match self {
            LexFault::BadUtf8(place)
            | LexFault::BadChar(place)
            | LexFault::OpenText(place)
            | LexFault::OpenName(place)
            | LexFault::LongText(place)
            | LexFault::LongNumber(place)
            | LexFault::LongName(place)
            | LexFault::ManyTokens(place) => Some(place),
            LexFault::Memory => None,
        }
    }
}

impl From<AllocError> for LexFault {
    ghost use Rattle.std.specs.Prelude.{◌≡◌};
    ghost use Rattle.psm_token.specs.declared.fault.LexFault.TheVariants.{Memory};

    ghost from_gives = { λ _ e. e ≡ Memory };

    fn from(_e: AllocError) -> LexFault {
        LexFault::Memory
    }
}

impl<T: Drop> From<AllocFailed<T>> for LexFault {
    ghost use Rattle.std.specs.Prelude.{◌≡◌};
    ghost use Rattle.psm_token.specs.declared.fault.LexFault.TheVariants.{Memory};

    ghost from_gives = { λ _ e. e ≡ Memory };

    fn from(_e: AllocFailed<T>) -> LexFault {
        LexFault::Memory
    }
}
