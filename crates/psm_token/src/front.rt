//! What stands at the front of a text.
ghost use Rattle.std.specs.Prelude.{◌≡◌, ◌∷◌, nat_eq};
ghost use Rattle.std.specs.Str.{chars};
ghost use Rattle.psm_token.specs.Characters.{begins};
ghost use Rattle.psm_token.specs.Fronts.{front_of};
ghost use Rattle.psm_token.specs.Signs.{sign_at as sign_of};

use crate::scan::{Class, begins_in, first, is_separator};
use crate::sign::{Sign, lone_sign, pair_sign};

/// What stands at the front of a text, as its first two characters say.
#[derive(Clone, Copy, Debug, PartialEq, Eq)]
pub(crate) enum Front {
    /// Nothing.
    End,
    /// A character that separates tokens.
    Separator,
    /// A comment.
    Comment,
    /// A name or a word.
    Letter,
    /// A number.
    Digit,
    /// A delimited name.
    Quote,
    /// A text.
    Apostrophe,
    /// A sign, or no token.
    Other,
}

/// What stands at the front, where a name stands directly before or not.
pub(crate) fn look(rest: &str, after_name: bool) -> Front
    ensures { result ≡ front_of after_name (chars rest.now) }
{
    match first(rest) {
        None => Front::End,
        Some((c, following)) => look_at(c, following, after_name),
    }
}

/// What begins with the character.
fn look_at(c: char, following: &str, after_name: bool) -> Front
    ensures { result ≡ front_of after_name (c ∷ chars following.now) }
{
    if is_separator(c) {
        Front::Separator
    } else if c.is_ascii_alphabetic() {
        Front::Letter
    } else if c.is_ascii_digit() {
        Front::Digit
    } else if c == '"' {
        Front::Quote
    } else if c == '\'' {
        Front::Apostrophe
    } else if c == '-' && begins_dash(following) {
        Front::Comment
    } else if c == '.' && !after_name && begins_in(following, Class::Digit) {
        Front::Digit
    } else {
        Front::Other
    }
}

/// Whether a minus sign stands at the front.
fn begins_dash(rest: &str) -> bool
    ensures { result ≡ begins (nat_eq 45) (chars rest.now) }
{
    match first(rest) {
        Some((c, _)) => '-' == c,
        None => false,
    }
}

/// The longest sign at the front.
pub(crate) fn sign_at(rest: &str) -> Option<Sign>
    ensures { result ≡ sign_of (chars rest.now) }
{
    let (c, following) = first(rest)?;
    sign_after(c, following)
}

/// The longest sign that begins with the character.
fn sign_after(c: char, following: &str) -> Option<Sign>
    ensures { result ≡ sign_of (c ∷ chars following.now) }
{
    match first(following) {
        None => lone_sign(c),
        Some((d, _)) => match pair_sign(c, d) {
            Some(sign) => Some(sign),
            None => lone_sign(c),
        },
    }
}
