//! Reading characters at the front of a text.
ghost use Rattle.std.specs.Prelude.{◌≡◌, ◌+◌, ◌<◌, ◌≤◌, ◌++◌, [], ◌∷◌, length, take, drop, MatchOption, IfSome, IfOk, OnOk, string_bytes};
ghost use Rattle.std.specs.Str.{chars};
ghost use Rattle.std.specs.List.{prefix_len};
ghost use Rattle.psm_token.specs.Characters.{is_separator as is_separator_of, is_of, begins as begins_with};
ghost use Rattle.psm_token.specs.Forms.{folded as folded_of};
ghost use Rattle.psm_token.specs.Places.{HasRoom, next_place, place_after};

use crate::place::Place;
use std::alloc::{AllocError, Global};

/// A class of characters.
#[derive(Clone, Copy, Debug, PartialEq, Eq)]
pub(crate) enum Class {
    /// The digits.
    Digit,
    /// Letters and the underscore.
    NameLetter,
    /// Letters, digits and the underscore.
    NamePart,
    /// All but the line feed.
    InLine,
}

/// The first character, and what follows it.
#[tactic(auto, using(std::proofs::lemmas::Str::chars_past_char))]
pub(crate) fn first(rest: &str) -> Option<(char, &str)>
    ensures parts { MatchOption result (chars rest.now ≡ []) (λ p. chars rest.now ≡ p.0 ∷ chars p.1.now) }
    ensures shorter { IfSome result (λ p. length p.1.now < length rest.now) }
{
    let mut characters = rest.chars();
    match characters.next() {
        Some(c) => Some((c, characters.as_str())),
        None => None,
    }
}

/// Whether the character separates tokens.
pub(crate) fn is_separator(c: char) -> bool
    ensures { result ≡ is_separator_of c }
{
    c == ' ' || c == '\t' || c == '\n' || c == '\r'
}

/// Whether the character is of the class.
fn is_in(class: Class, c: char) -> bool
    ensures { result ≡ is_of class c }
{
    match class {
        Class::Digit => c.is_ascii_digit(),
        Class::NameLetter => c.is_ascii_alphabetic() || c == '_',
        Class::NamePart => c.is_ascii_alphabetic() || c == '_' || c.is_ascii_digit(),
        Class::InLine => c != '\n',
    }
}

/// Whether the first character is of the class.
pub(crate) fn begins_in(rest: &str, class: Class) -> bool
    ensures { result ≡ begins_with (is_of class) (chars rest.now) }
{
    match first(rest) {
        Some((c, _)) => is_in(class, c),
        None => false,
    }
}

/// How many characters at the front are of the class, and what follows them.
#[tactic(auto, using(crate::proofs::Steps::drop_one_more))]
pub(crate) fn run(class: Class, rest: &str) -> (usize, &str)
    ensures count { result.0 ≡ prefix_len (is_of class) (chars rest.now) }
    ensures following { chars result.1.now ≡ drop result.0 (chars rest.now) }
    ensures within { result.0 + length result.1.now ≤ length rest.now }
{
    let mut left = rest;
    let mut count = 0;
    while let Some((c, following)) = first(left) {
        if !is_in(class, c) {
            break;
        }
        left = following;
        count += 1;
    }
    (count, left)
}

/// Puts a character after a text.
pub(crate) fn push(text: &mut String, c: char) -> Result<(), AllocError>
    ensures { OnOk result (chars (string_bytes text.new) ≡ chars (string_bytes text.old) ++ c ∷ []) }
{
    text.push(c)
}

/// The first `count` characters as a text of their own.
#[tactic(auto, using(crate::proofs::Utf8::chars_none, crate::proofs::Steps::take_past))]
pub(crate) fn gathered(alloc: Global, rest: &str, count: usize) -> Result<String, AllocError>
    ensures { IfOk result (λ s. chars (string_bytes s) ≡ take count (chars rest.now)) }
{
    let mut text = String::new(alloc);
    let mut left = rest;
    for _i in 0..count {
        match first(left) {
            Some((c, following)) => {
                push(&mut text, c)?;
                left = following;
            }
            None => break,
        }
    }
    Ok(text)
}

/// The first `count` characters with `a` to `z` as capital letters.
#[tactic(auto, using(crate::proofs::Utf8::chars_none, crate::proofs::Steps::take_past))]
pub(crate) fn folded(alloc: Global, rest: &str, count: usize) -> Result<String, AllocError>
    ensures { IfOk result (λ s. chars (string_bytes s) ≡ folded_of (take count (chars rest.now))) }
{
    let mut text = String::new(alloc);
    let mut left = rest;
    for _i in 0..count {
        match first(left) {
            Some((c, following)) => {
                push(&mut text, c.to_ascii_uppercase())?;
                left = following;
            }
            None => break,
        }
    }
    Ok(text)
}

/// The place after a character.
fn next(place: Place, c: char) -> Place
    requires lines { place.line < 4294967295 }
    requires columns { place.column < 4294967295 }
    ensures { result ≡ next_place c place }
{
    if c == '\n' {
        Place {
            line: place.line + 1,
            column: 1,
        }
    } else {
        Place {
            line: place.line,
            column: place.column + 1,
        }
    }
}

/// The place after `count` characters, and what follows them.
#[tactic(auto, using(crate::proofs::Steps::take_past, crate::proofs::Steps::drop_past))]
pub(crate) fn advanced(place: Place, rest: &str, count: usize) -> (Place, &str)
    requires { HasRoom place (chars rest.now) }
    ensures place { result.0 ≡ place_after (take count (chars rest.now)) place }
    ensures rest { chars result.1.now ≡ drop count (chars rest.now) }
    ensures room { HasRoom result.0 (chars result.1.now) }
    ensures shorter { length result.1.now ≤ length rest.now }
    ensures moves { 0 < count → 0 < length (chars rest.now) → length result.1.now < length rest.now }
{
    let mut at = place;
    let mut left = rest;
    for _i in 0..count {
        match first(left) {
            Some((c, following)) => {
                at = next(at, c);
                left = following;
            }
            None => break,
        }
    }
    (at, left)
}
