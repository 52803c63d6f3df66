//! The operations of expression code, and the letters of their operands.
ghost use Rattle.std.specs.Prelude.{◌≡◌};
ghost use Rattle.psm_exprcode.specs.Kinds.{are_of, has_letter, letter_of};

use psm_list::List;
use psm_text::Side;
use psm_value::{Datum, SqlType};

/// What an operand is, as a listing writes it.
#[derive(Clone, Copy, Debug, PartialEq, Eq)]
pub enum Letter {
    /// A number or null.
    N,
    /// A text or null.
    T,
    /// A truth value.
    B,
}

impl Letter {
    /// The letter of a type's values.
    pub fn of_type(kind: SqlType) -> Letter
        ensures { result ≡ letter_of kind }
    {
        match kind {
            SqlType::SmallInt | SqlType::Integer | SqlType::Numeric { .. } => Letter::N,
            SqlType::Char { .. } | SqlType::VarChar { .. } => Letter::T,
        }
    }

    /// Whether a value is of the kind. Null is of both kinds of values.
    pub fn is_of(self, value: &Datum) -> bool
        ensures { result ≡ has_letter self value.now }
    {
        match self {
            Letter::N => !matches!(value, Datum::Text(_)),
            Letter::T => !matches!(value, Datum::Num(_)),
            Letter::B => false,
        }
    }

    /// Whether values are of those kinds, one for one.
    pub fn are_of(kinds: &[Letter], values: &[Datum]) -> bool
        ensures { result ≡ are_of kinds.now values.now }
    {
        let mut left = kinds;
        let mut right = values;
        while let Some((kind, others)) = left.split_first() {
            match right.split_first() {
                Some((value, more)) if kind.is_of(value) => right = more,
                _ => return false,
            }
            left = others;
        }
        right.is_empty()
    }
}

/// An operation of an expression over a stack of operands. A number of a line is its index, from 0.
#[derive(Debug, Drop)]
pub enum Op {
    /// Puts a value, of that letter, on the stack.
    Constant(Letter, Datum),
    /// Puts a variable's value on the stack.
    Variable(u32),
    /// Puts a column's value on the stack.
    Column(u32),
    /// Puts the last operand once more.
    Duplicate,
    /// Takes the last operand off.
    Drop,
    /// Takes the operand below the last one off.
    DropBelow,
    /// The number with its other sign.
    Negate,
    /// The sum.
    Add,
    /// The difference.
    Subtract,
    /// The product.
    Multiply,
    /// The quotient.
    Divide,
    /// The number with n digits after the point.
    Rescale(u8),
    /// The second text after the first.
    Concatenate,
    /// The number of characters.
    CharacterLength,
    /// The position of a text, the lower operand, in another.
    Position,
    /// SUBSTRING of a text from a position on.
    SubstringFrom,
    /// SUBSTRING of a text from a position on, for a number of characters.
    SubstringFromFor,
    /// The text without the blanks at that side.
    Trim(Side),
    /// The text with capital letters.
    Upper,
    /// The text with small letters.
    Lower,
    /// Whether two values are equal.
    Equal,
    /// Whether they differ.
    NotEqual,
    /// Whether the first is less.
    Less,
    /// Whether the first is at most the second.
    LessOrEqual,
    /// Whether the first is greater.
    Greater,
    /// Whether the first is at least the second.
    GreaterOrEqual,
    /// AND.
    And,
    /// OR.
    Or,
    /// NOT.
    Not,
    /// Whether a value is null.
    IsNull,
    /// Whether a text is like a pattern.
    Like,
    /// Whether a text is like a pattern with an escape text.
    LikeEscape,
    /// Whether a value lies between two others.
    Between,
    /// Whether a value is among n others.
    In(u32),
    /// The first value, or null where the second is equal to it.
    NullIf,
    /// The value as another type.
    Cast(SqlType),
    /// Goes on at a line.
    Jump(u32),
    /// Takes a truth value off and goes on at a line unless it is true.
    JumpUnlessTrue(u32),
    /// Goes on at a line with a value that isn't null; takes it off where it is.
    JumpUnlessNull(u32),
}

/// A line of an expression, as contracts see it: the operands that stand before the operation, the last one at
/// the end, and the operation. Code keeps its lines in less memory, see [`crate::RawExpr`].
#[derive(Debug, Drop)]
pub struct Line {
    pub stack: List<Letter>,
    pub op: Op,
}
