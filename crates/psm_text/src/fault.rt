//! Why an operation gives no text.
use std::alloc::AllocError;

/// Why a text operation gives no text.
#[derive(Clone, Copy, Debug, PartialEq, Eq)]
pub enum TextFault {
    /// The text would have more than 4000 characters (22001).
    TooLong,
    /// The count of a substring is negative (22011).
    Substring,
    /// The escape text of LIKE isn't one character (22019).
    EscapeChar,
    /// The escape character is last, or stands before a character that needs no escape (22025).
    EscapePair,
    /// A character that isn't a blank would be lost in storing (22001).
    Lost,
    /// Memory ran out.
    Memory,
}

impl From<AllocError> for TextFault {
    ghost use Rattle.std.specs.Prelude.{◌≡◌};
    ghost use Rattle.psm_text.specs.declared.fault.TextFault.TheVariants.{Memory};

    ghost from_gives = { λ _ e. e ≡ Memory };

    fn from(_e: AllocError) -> TextFault {
        TextFault::Memory
    }
}

/// Why a string isn't a name.
#[derive(Clone, Copy, Debug, PartialEq, Eq)]
pub enum NameFault {
    /// There is no character.
    Empty,
    /// There are more than 128 characters.
    TooLong,
    /// Memory ran out.
    Memory,
}

impl From<AllocError> for NameFault {
    ghost use Rattle.std.specs.Prelude.{◌≡◌};
    ghost use Rattle.psm_text.specs.declared.fault.NameFault.TheVariants.{Memory};

    ghost from_gives = { λ _ e. e ≡ Memory };

    fn from(_e: AllocError) -> NameFault {
        NameFault::Memory
    }
}
