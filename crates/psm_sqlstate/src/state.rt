//! SQLSTATEs, their classes and their messages.
ghost use Rattle.std.specs.Prelude.{◌≡◌, length, SomeIff};
ghost use Rattle.std.specs.List.{list_all};
ghost use Rattle.psm_sqlstate.specs.Kind.{kind_of};
ghost use Rattle.psm_sqlstate.specs.Message.{message_of};
ghost use Rattle.psm_sqlstate.specs.State.{IsState, is_state_character};

use crate::kind::Kind;
use std::marker::Model;
use std::str;

/// An SQLSTATE: five digits or capital letters (ISO/IEC 9075:1992, 22.1).
#[derive(Clone, Copy, Debug, PartialEq, Eq)]
pub struct SqlState {
    bytes: [u8; 5],
    // So that a state lies and is copied in whole words.
    align: [u32; 0],
}

impl Model for SqlState {
    ghost use Rattle.std.specs.Prelude.{◌≡◌, ℕ, List, []};
    ghost use Rattle.psm_sqlstate.specs.State.{IsState};

    ghost Value = { List ℕ };

    ghost view = { λ s. s.bytes };

    ghost invariant = { λ s. IsState s.bytes × (s.align ≡ []) };

    ghost inverse = { λ text. record { bytes = text; align = [] } };
}

impl SqlState {
    /// Successful completion.
    pub const SUCCESS: SqlState = SqlState {
        bytes: *b"00000",
        align: [],
    };

    /// Null value eliminated in set function.
    pub const NULL_ELIMINATED: SqlState = SqlState {
        bytes: *b"01003",
        align: [],
    };

    /// String data, right truncation.
    pub const TRUNCATION_WARNING: SqlState = SqlState {
        bytes: *b"01004",
        align: [],
    };

    /// No data.
    pub const NO_DATA: SqlState = SqlState {
        bytes: *b"02000",
        align: [],
    };

    /// Resignal when handler not active.
    pub const HANDLER_NOT_ACTIVE: SqlState = SqlState {
        bytes: *b"0K000",
        align: [],
    };

    /// Stacked diagnostics accessed without active handler.
    pub const NO_STACKED_DIAGNOSTICS: SqlState = SqlState {
        bytes: *b"0Z002",
        align: [],
    };

    /// Case not found for case statement.
    pub const CASE_NOT_FOUND: SqlState = SqlState {
        bytes: *b"20000",
        align: [],
    };

    /// Cardinality violation.
    pub const CARDINALITY_VIOLATION: SqlState = SqlState {
        bytes: *b"21000",
        align: [],
    };

    /// String data, right truncation.
    pub const RIGHT_TRUNCATION: SqlState = SqlState {
        bytes: *b"22001",
        align: [],
    };

    /// Numeric value out of range.
    pub const OUT_OF_RANGE: SqlState = SqlState {
        bytes: *b"22003",
        align: [],
    };

    /// Substring error.
    pub const SUBSTRING_ERROR: SqlState = SqlState {
        bytes: *b"22011",
        align: [],
    };

    /// Division by zero.
    pub const DIVISION_BY_ZERO: SqlState = SqlState {
        bytes: *b"22012",
        align: [],
    };

    /// Invalid character value for cast.
    pub const INVALID_CAST: SqlState = SqlState {
        bytes: *b"22018",
        align: [],
    };

    /// Invalid escape character.
    pub const INVALID_ESCAPE_CHARACTER: SqlState = SqlState {
        bytes: *b"22019",
        align: [],
    };

    /// Invalid escape sequence.
    pub const INVALID_ESCAPE_SEQUENCE: SqlState = SqlState {
        bytes: *b"22025",
        align: [],
    };

    /// Integrity constraint violation.
    pub const INTEGRITY_VIOLATION: SqlState = SqlState {
        bytes: *b"23000",
        align: [],
    };

    /// Invalid cursor state.
    pub const INVALID_CURSOR_STATE: SqlState = SqlState {
        bytes: *b"24000",
        align: [],
    };

    /// Function executed no return statement.
    pub const NO_RETURN: SqlState = SqlState {
        bytes: *b"2F005",
        align: [],
    };

    /// Invalid condition number.
    pub const INVALID_CONDITION_NUMBER: SqlState = SqlState {
        bytes: *b"35000",
        align: [],
    };

    /// Unhandled user-defined exception.
    pub const UNHANDLED_EXCEPTION: SqlState = SqlState {
        bytes: *b"45000",
        align: [],
    };

    /// Routine nesting too deep.
    pub const NESTING_TOO_DEEP: SqlState = SqlState {
        bytes: *b"X0001",
        align: [],
    };

    /// Table full.
    pub const TABLE_FULL: SqlState = SqlState {
        bytes: *b"X0002",
        align: [],
    };

    /// The state that the text is, if it is five digits or capital letters.
    pub fn read(text: &str) -> Option<SqlState>
        ensures { SomeIff result (IsState text.now) text.now }
    {
        let bytes = five_of(text.as_bytes())?;
        if are_state_characters(&bytes) {
            Some(SqlState { bytes, align: [] })
        } else {
            None
        }
    }

    /// What the class says, that is the first two characters (ISO/IEC 9075:1992, 22.1).
    pub fn kind(self) -> Kind
        ensures { result ≡ kind_of self }
    {
        match &self.bytes {
            [b'0', b'0', ..] => Kind::Success,
            [b'0', b'1', ..] => Kind::Warning,
            [b'0', b'2', ..] => Kind::NotFound,
            _ => Kind::Exception,
        }
    }

    /// The five characters.
    pub fn text(&self) -> &str
        ensures value { result.now ≡ self.now }
        ensures state { IsState result.now }
    {
        str::from_utf8(&self.bytes).unwrap()
    }

    /// What the state means, in words. It is empty for a state that has no text here.
    pub fn message(self) -> &'static str
        ensures { result.now ≡ message_of self }
    {
        message(self.text())
    }
}

/// The bytes, if there are five.
fn five_of(bytes: &[u8]) -> Option<[u8; 5]>
    ensures { SomeIff result (length bytes.now ≡ 5) bytes.now }
{
    <[u8; 5]>::try_from(bytes).ok()
}

/// Whether each byte can stand in a state.
fn are_state_characters(bytes: &[u8]) -> bool
    ensures { result ≡ list_all is_state_character bytes.now }
{
    bytes.iter().all(|b| is_state_character(*b))
}

/// Whether the byte is a digit or a capital letter.
fn is_state_character(byte: u8) -> bool
    ensures { result ≡ is_state_character byte }
{
    byte.is_ascii_digit() || byte.is_ascii_uppercase()
}

/// What the state of that text means.
fn message(text: &str) -> &'static str
    ensures { result.now ≡ message_of text.now }
{
    match text {
        "00000" => "successful completion",
        "01003" => "null value eliminated in set function",
        "01004" => "string data, right truncation",
        "02000" => "no data",
        "0K000" => "resignal when handler not active",
        "0Z002" => "stacked diagnostics accessed without active handler",
        "20000" => "case not found for case statement",
        "21000" => "cardinality violation",
        "22001" => "string data, right truncation",
        "22003" => "numeric value out of range",
        "22011" => "substring error",
        "22012" => "division by zero",
        "22018" => "invalid character value for cast",
        "22019" => "invalid escape character",
        "22025" => "invalid escape sequence",
        "23000" => "integrity constraint violation",
        "24000" => "invalid cursor state",
        "2F005" => "function executed no return statement",
        "35000" => "invalid condition number",
        "45000" => "unhandled user-defined exception",
        "X0001" => "routine nesting too deep",
        "X0002" => "table full",
        _ => "",
    }
}
