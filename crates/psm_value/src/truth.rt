//! Truth values, and AND, OR and NOT (ISO/IEC 9075:1992, 8.12).
ghost use Rattle.std.specs.Prelude.{◌≡◌};
ghost use Rattle.psm_value.specs.Truth.{both, either, opposite, is_certain};

/// The three truth values (ISO/IEC 9075:1992, 8.12).
#[derive(Clone, Copy, Debug, PartialEq, Eq)]
pub enum Truth {
    True,
    False,
    Unknown,
}

impl Truth {
    /// AND: false where a side is false, and else unknown where a side is.
    pub fn and(self, other: Truth) -> Truth
        ensures { result ≡ both self other }
    {
        match (self, other) {
            (Truth::False, _) | (_, Truth::False) => Truth::False,
            (Truth::True, Truth::True) => Truth::True,
            _ => Truth::Unknown,
        }
    }

    /// OR: true where a side is true, and else unknown where a side is.
    pub fn or(self, other: Truth) -> Truth
        ensures { result ≡ either self other }
    {
        match (self, other) {
            (Truth::True, _) | (_, Truth::True) => Truth::True,
            (Truth::False, Truth::False) => Truth::False,
            _ => Truth::Unknown,
        }
    }

    /// NOT: unknown stays unknown.
    pub fn not(self) -> Truth
        ensures { result ≡ opposite self }
    {
        match self {
            Truth::True => Truth::False,
            Truth::False => Truth::True,
            Truth::Unknown => Truth::Unknown,
        }
    }

    /// Whether it is true: a test that is unknown isn't.
    pub fn is_true(self) -> bool
        ensures { result ≡ is_certain self }
    {
        self == Truth::True
    }
}
