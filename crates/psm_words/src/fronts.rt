//! What stands at a place of a text.
ghost use Rattle.std.specs.Prelude.{◌≡◌, ◌≤◌, drop, length, option_map, IfSome};
ghost use Rattle.psm_words.specs.Reading.{after as after_word, begins_with_digit as is_digit_first, number_at};

use crate::numbers::number;

/// Where what follows a word begins, if the word stands at `start`.
#[tactic(auto, using(crate::proofs::Further::further))]
pub(crate) fn after(word: &[u8], text: &[u8], start: usize) -> Option<usize>
    requires { start ≤ length text.now }
    ensures value { option_map (λ stop. drop stop text.now) result ≡ after_word word.now (drop start text.now) }
    ensures within { IfSome result (λ stop. stop ≤ length text.now) }
{
    if text[start..].starts_with(word) {
        Some(start + word.len())
    } else {
        None
    }
}

/// The number at `start`, and where what follows it begins.
#[tactic(auto, using(crate::proofs::Further::further))]
pub(crate) fn number_from(most: u32, text: &[u8], start: usize) -> Option<(u32, usize)>
    requires { start ≤ length text.now }
    ensures value { option_map (λ x. (x.0, drop x.1 text.now)) result ≡ number_at most (drop start text.now) }
    ensures within { IfSome result (λ x. x.1 ≤ length text.now) }
    ensures bound { IfSome result (λ x. x.0 ≤ most) }
{
    let (n, size) = number(most, &text[start..])?;
    Some((n, start + size))
}

/// Whether a digit stands first.
pub(crate) fn begins_with_digit(text: &[u8]) -> bool
    ensures { result ≡ is_digit_first text.now }
{
    match text {
        [] => false,
        [byte, ..] => byte.is_ascii_digit(),
    }
}
