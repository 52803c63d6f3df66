//! What a file is a list of.
ghost use Rattle.std.specs.Prelude.{◌≡◌};
ghost use Rattle.psm_token.specs.Kinds.{token_kind};
ghost use Rattle.psm_token.specs.Tokens.{is_name as is_name_token};

use crate::place::Place;
use crate::sign::Sign;
use crate::word::Word;
use psm_num::Dec;
use psm_text::{Name, Text};

/// The number of the kind of tokens that are names and no words.
pub const NAME_KIND: u8 = 0;

/// The number of the kind of tokens that are numeric literals.
pub const NUMBER_KIND: u8 = 1;

/// The number of the kind of tokens that are character string literals.
pub const TEXT_KIND: u8 = 2;

/// A token (ISO/IEC 9075:1992, 5.2).
#[derive(Debug, Drop)]
pub enum Token {
    /// A word of the language.
    Word(Word),
    /// A name: in capital letters, or as it stands between quotation marks.
    Name(Name),
    /// A numeric literal.
    Number(Dec),
    /// A character string literal.
    Text(Text),
    /// A sign.
    Sign(Sign),
}

impl Token {
    /// The number of the token's kind: names, numbers and texts come first, then each sign, then each word.
    pub fn kind(&self) -> u8
        ensures { result ≡ token_kind self.now }
    {
        match self {
            Token::Word(word) => word.kind(),
            Token::Name(_) => NAME_KIND,
            Token::Number(_) => NUMBER_KIND,
            Token::Text(_) => TEXT_KIND,
            Token::Sign(sign) => sign.kind(),
        }
    }

    /// Whether the token is a name where the grammar has a name.
    pub(crate) fn is_name(&self) -> bool
        ensures { result ≡ is_name_token self.now }
    {
        match self {
            Token::Word(word) => !word.is_reserved(),
            Token::Name(_) => true,
            Token::Number(_) => false,
            Token::Text(_) => false,
            Token::Sign(_) => false,
        }
    }
}

/// A token and the place of its first character.
#[derive(Debug, Drop)]
pub struct Placed {
    pub token: Token,
    pub place: Place,
}

const _: () = prove!(size_of::<Placed>() <= 64);
