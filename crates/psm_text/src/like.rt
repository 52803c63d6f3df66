//! LIKE (ISO/IEC 9075:1992, 8.5).
ghost use Rattle.std.specs.Prelude.{◌≡◌, ◌↔◌, ◌<◌, ◌≤◌, length, drop, [], if◌then◌else◌, nat_eq, IsTrue};
ghost use Rattle.std.specs.Option.{option_copied};
ghost use Rattle.psm_text.specs.Like.{Liked, like_answer, Matches, items_of, well_formed, escapes, escapable, escape_of, begins_any, step_at};
ghost use Rattle.psm_text.specs.declared.like.Step.TheVariants.{Take, Stop};

use crate::fault::TextFault;
use crate::order::rest as tail;
use crate::text::Text;

/// What the matcher does with a character at the first item of a pattern.
#[derive(Clone, Copy, Debug, PartialEq, Eq)]
pub(crate) enum Step {
    /// The item stands for any characters: go on after it, and come back if that fails.
    Skip,
    /// The item stands for the character.
    Take,
    /// It doesn't, or there is no item.
    Stop,
}

impl Text {
    /// The LIKE predicate (ISO/IEC 9075:1992, 8.5): `%` stands for any characters and `_` for one, and
    /// nothing is padded. `EscapeChar` comes exactly where the escape text isn't one character. Else
    /// `EscapePair` comes exactly where an escape character is last in the pattern, or stands before
    /// another character than `%`, `_` or itself. The time is at most the text times the pattern.
    pub fn like(&self, pattern: &Text, escape: Option<&Text>) -> Result<bool, TextFault>
        ensures answer { Liked (escape_of (option_copied escape.entry)) pattern.now self.now result }
        ensures value { result ≡ like_answer (escape_of (option_copied escape.entry)) pattern.now self.now }
    {
        let escape = escape_character(escape)?;
        let pattern = pattern.chars();
        if !is_well_formed(pattern, escape) {
            return Err(TextFault::EscapePair);
        }
        Ok(is_match(self.chars(), pattern, escape))
    }
}

fn escape_character(escape: Option<&Text>) -> Result<Option<char>, TextFault>
    ensures { result ≡ escape_of (option_copied escape.entry) }
{
    match escape {
        None => Ok(None),
        Some(text) => match text.chars() {
            [c] => Ok(Some(*c)),
            _ => Err(TextFault::EscapeChar),
        },
    }
}

fn is_escape(escape: Option<char>, c: char) -> bool
    ensures { result ≡ escapes escape c }
{
    match escape {
        None => false,
        Some(e) => c == e,
    }
}

fn is_well_formed(pattern: &[char], escape: Option<char>) -> bool
    ensures { result ≡ well_formed escape pattern.now }
{
    let mut left = pattern;
    while !left.is_empty() {
        let others = tail(left);
        if is_escape(escape, left[0]) {
            if others.is_empty() || !is_escapable(escape, others[0]) {
                return false;
            }
            left = tail(others);
        } else {
            left = others;
        }
    }
    true
}

fn is_escapable(escape: Option<char>, c: char) -> bool
    ensures { result ≡ escapable escape c }
{
    c == '%' || c == '_' || is_escape(escape, c)
}

/// Whether the text matches the pattern. Where an item fails, the last `%` before it takes one character
/// more: no earlier one has to, since a later start of what follows it gives a later start of the rest.
fn is_match(text: &[char], pattern: &[char], escape: Option<char>) -> bool
    ensures { IsTrue result ↔ Matches (items_of escape pattern.now) text.now }
{
    let mut items = pattern;
    let mut rest = text;
    // what follows the last `%`, and the text that it was last tried on
    let mut retry: Option<(&[char], &[char])> = None;
    while !rest.is_empty() {
        match first_step(items, escape, rest[0]) {
            Step::Skip => {
                items = after_item(items, escape);
                retry = Some((items, rest));
            }
            Step::Take => {
                items = after_item(items, escape);
                rest = tail(rest);
            }
            Step::Stop => match retry {
                None => return false,
                Some((others, from)) => {
                    let later = tail(from);
                    items = others;
                    rest = later;
                    retry = Some((others, later));
                }
            },
        }
    }
    is_all_any(items, escape)
}

fn first_step(pattern: &[char], escape: Option<char>, c: char) -> Step
    ensures { result ≡ step_at (items_of escape pattern.now) c }
{
    match pattern {
        [] => Step::Stop,
        [first, second, ..] if is_escape(escape, *first) => literal_step(*second, c),
        [first, ..] => match *first {
            '%' => Step::Skip,
            '_' => Step::Take,
            d => literal_step(d, c),
        },
    }
}

fn literal_step(d: char, c: char) -> Step
    ensures { result ≡ (if nat_eq c d then Take else Stop) }
{
    if c == d { Step::Take } else { Step::Stop }
}

/// The pattern without its first item.
fn after_item(pattern: &[char], escape: Option<char>) -> &[char]
    ensures items { items_of escape result.now ≡ drop 1 (items_of escape pattern.now) }
    ensures shorter { 0 < length pattern.now → length result.now < length pattern.now }
    ensures within { length result.now ≤ length pattern.now }
{
    match pattern {
        [first, _, after @ ..] if is_escape(escape, *first) => after,
        [_, after @ ..] => after,
        [] => pattern,
    }
}

/// Whether each item stands for any characters, so that the pattern matches the empty text.
#[tactic(auto, using(crate::proofs::Steps::any_at_end))]
fn is_all_any(pattern: &[char], escape: Option<char>) -> bool
    ensures { IsTrue result ↔ Matches (items_of escape pattern.now) [] }
{
    let mut left = pattern;
    while first_is_any(left, escape) {
        left = after_item(left, escape);
    }
    left.is_empty()
}

fn first_is_any(pattern: &[char], escape: Option<char>) -> bool
    ensures { result ≡ begins_any (items_of escape pattern.now) }
{
    match pattern {
        [] => false,
        [first, _, ..] if is_escape(escape, *first) => false,
        [first, ..] => *first == '%',
    }
}
