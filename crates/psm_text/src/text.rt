//! Texts of at most 4000 characters.
ghost use Rattle.std.specs.Prelude.{◌≡◌, ◌≤◌, length, IfOk, encode_utf8_all, vec_len};
ghost use Rattle.std.specs.Str.{chars};
ghost use Rattle.psm_text.specs.Text.{Gives, made, most};

use crate::fault::TextFault;
use std::alloc::{AllocError, Global};
use std::marker::Model;

pub(crate) const MOST_CHARACTERS: usize = 4000;

/// A text of at most 4000 characters, seen as the list of their code points and kept as a `Vec`.
#[derive(Debug, Drop)]
pub struct Text {
    items: Vec<char>,
}

impl Model for Text {
    ghost use Rattle.std.specs.Prelude.{ℕ, List, ◌≤◌, length};
    ghost use Rattle.std.specs.Coded.{coded_list, coded_ℕ};

    ghost Value = { List ℕ };

    ghost coded = { coded_list coded_ℕ };

    ghost view = { λ t. t.items.items };

    ghost invariant = { λ t. length t.items.items ≤ 4000 };
}

impl Text {
    /// The text of the characters of a string. `TooLong` comes exactly above 4000 characters, before any
    /// memory is taken.
    pub fn make(alloc: Global, s: &str) -> Result<Text, TextFault>
        ensures answer { Gives (made s.now) result }
        ensures spelled { IfOk result (λ t. encode_utf8_all t ≡ s.now) }
    {
        if count(s) > MOST_CHARACTERS {
            return Err(TextFault::TooLong);
        }
        Ok(Text {
            items: gathered(alloc, s)?,
        })
    }

    /// The text of the characters.
    pub(crate) fn of(alloc: Global, characters: &[char]) -> Result<Text, AllocError>
        requires { length characters.now ≤ 4000 }
        ensures { IfOk result (λ t. t ≡ characters.now) }
    {
        Ok(Text {
            items: Vec::from_slice(alloc, characters)?,
        })
    }

    /// The text of the characters in a vector.
    pub(crate) fn from_vec(items: Vec<char>) -> Text
        requires { vec_len items ≤ 4000 }
        ensures { result ≡ items.items }
    {
        Text { items }
    }

    /// The same text in memory of its own.
    pub fn copy(&self, alloc: Global) -> Result<Text, AllocError>
        ensures { IfOk result (λ t. t ≡ self.now) }
    {
        Text::of(alloc, self.chars())
    }

    /// The number of characters.
    pub fn len(&self) -> u32
        ensures value { result ≡ length self.now }
        ensures bound { result ≤ most }
    {
        self.items.len() as u32
    }

    /// Lends the characters.
    pub fn chars(&self) -> &[char]
        ensures value { result.now ≡ self.now }
        ensures bound { length self.now ≤ most }
    {
        self.items.as_slice()
    }
}

/// The number of a string's characters.
#[tactic(auto, using(std::proofs::lemmas::Str::chars_from_encodes))]
pub(crate) fn count(s: &str) -> usize
    ensures { result ≡ length (chars s.now) }
{
    s.chars().count()
}

#[tactic(auto, using(std::proofs::lemmas::Str::chars_from_encodes))]
fn gathered(alloc: Global, s: &str) -> Result<Vec<char>, AllocError>
    ensures characters { IfOk result (λ v. v.items ≡ chars s.now) }
    ensures spelled { IfOk result (λ v. encode_utf8_all v.items ≡ s.now) }
{
    s.chars().collect(alloc)
}
