//! A list of tokens.
ghost use Rattle.std.specs.Prelude.{◌≡◌, ◌≤◌, length};
ghost use Rattle.psm_token.specs.Spells.{most_tokens};

use crate::place::Place;
use crate::token::Placed;
use std::marker::Model;

/// The tokens of a file with their places, and the place just after its last character.
#[derive(Debug, Drop)]
pub struct TokenList {
    items: Vec<Placed>,
    end: Place,
}

impl Model for TokenList {
    ghost use Rattle.psm_token.specs.Listed.{Tokens};

    ghost Value = { Tokens };

    ghost view = { λ t. record { tokens = t.items.items; end = t.end } };
}

impl TokenList {
    /// The list of these tokens, of which there are 2,000,000 at most, before that end.
    pub fn of(items: Vec<Placed>, end: Place) -> TokenList
        requires { length items.items ≤ most_tokens }
        ensures { result ≡ record { tokens = items.items; end = end } }
    {
        TokenList { items, end }
    }

    /// Lends the tokens in order, each with the place of its first character.
    pub fn items(&self) -> &[Placed]
        ensures { result.now ≡ self.now.tokens }
    {
        self.items.as_slice()
    }

    /// The place just after the last character of the file.
    pub fn end(&self) -> Place
        ensures { result ≡ self.now.end }
    {
        self.end
    }
}
