//! The signs: the special characters that are tokens of their own (ISO/IEC 9075:1992, 5.1 and 5.2).
ghost use Rattle.std.specs.Prelude.{◌≡◌};
ghost use Rattle.psm_token.specs.Signs.{sign_text, sign_kind, lone_sign as lone_sign_of, pair_sign as pair_sign_of};

/// A sign of one character or two. Its number is that of its kind of tokens.
#[derive(Clone, Copy, Debug, PartialEq, Eq)]
pub enum Sign {
    LeftParen = 3,
    RightParen,
    Comma,
    Semicolon,
    Colon,
    Period,
    Equal,
    NotEqual,
    Less,
    LessEqual,
    Greater,
    GreaterEqual,
    Plus,
    Minus,
    Asterisk,
    Solidus,
    Concatenation,
    QuestionMark,
}

impl Sign {
    /// The number of the sign's kind of tokens.
    pub fn kind(self) -> u8
        ensures { result ≡ sign_kind self }
    {
        self as u8
    }

    /// The sign as it is written.
    pub fn text(self) -> &'static str
        ensures { result.now ≡ sign_text self }
    {
        match self {
            Sign::LeftParen => "(",
            Sign::RightParen => ")",
            Sign::Comma => ",",
            Sign::Semicolon => ";",
            Sign::Colon => ":",
            Sign::Period => ".",
            Sign::Equal => "=",
            Sign::NotEqual => "<>",
            Sign::Less => "<",
            Sign::LessEqual => "<=",
            Sign::Greater => ">",
            Sign::GreaterEqual => ">=",
            Sign::Plus => "+",
            Sign::Minus => "-",
            Sign::Asterisk => "*",
            Sign::Solidus => "/",
            Sign::Concatenation => "||",
            Sign::QuestionMark => "?",
        }
    }
}

/// The sign of one character.
pub(crate) fn lone_sign(c: char) -> Option<Sign>
    ensures { result ≡ lone_sign_of c }
{
    match c {
        '(' => Some(Sign::LeftParen),
        ')' => Some(Sign::RightParen),
        ',' => Some(Sign::Comma),
        ';' => Some(Sign::Semicolon),
        ':' => Some(Sign::Colon),
        '.' => Some(Sign::Period),
        '=' => Some(Sign::Equal),
        '<' => Some(Sign::Less),
        '>' => Some(Sign::Greater),
        '+' => Some(Sign::Plus),
        '-' => Some(Sign::Minus),
        '*' => Some(Sign::Asterisk),
        '/' => Some(Sign::Solidus),
        '?' => Some(Sign::QuestionMark),
        _ => None,
    }
}

/// The sign of two characters.
pub(crate) fn pair_sign(c: char, d: char) -> Option<Sign>
    ensures { result ≡ pair_sign_of c d }
{
    if c == '<' && d == '>' {
        Some(Sign::NotEqual)
    } else if c == '<' && d == '=' {
        Some(Sign::LessEqual)
    } else if c == '>' && d == '=' {
        Some(Sign::GreaterEqual)
    } else if c == '|' && d == '|' {
        Some(Sign::Concatenation)
    } else {
        None
    }
}
