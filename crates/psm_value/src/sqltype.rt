//! The types of columns and variables (ISO/IEC 9075:1992, 6.1).
ghost use Rattle.std.specs.Prelude.{◌↔◌, IsTrue};
ghost use Rattle.psm_value.specs.SqlType.{IsType};

/// A type that a value is stored in (ISO/IEC 9075:1992, 6.1).
#[derive(Clone, Copy, Debug, PartialEq, Eq)]
pub enum SqlType {
    /// -32768 to 32767.
    SmallInt,
    /// -2147483648 to 2147483647.
    Integer,
    /// At most `p` digits, of which `s` stand after the point.
    Numeric { p: u8, s: u8 },
    /// Exactly `n` characters.
    Char { n: u16 },
    /// At most `n` characters.
    VarChar { n: u16 },
}

impl SqlType {
    /// Whether the digits, decimals and lengths are those that a type may have: 1 to 18 digits, of which at
    /// most all stand after the point, and 1 to 4000 characters.
    pub fn is_within_bounds(self) -> bool
        ensures { IsTrue result ↔ IsType self }
    {
        match self {
            SqlType::SmallInt | SqlType::Integer => true,
            SqlType::Numeric { p, s } => 1 <= p && p <= 18 && s <= p,
            SqlType::Char { n } | SqlType::VarChar { n } => 1 <= n && n <= 4000,
        }
    }
}
