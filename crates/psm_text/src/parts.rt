//! The functions of texts (ISO/IEC 9075:1992, 6.6 and 6.7).
ghost use Rattle.std.specs.Prelude.{◌≡◌, ◌↔◌, ◌≤◌, ◌<◌, ◌-◌, ℕ, pos, int_lt, int_le, nat_lt, nat_le, length, take, drop, slice_get, IsTrue, IfOk};
ghost use Rattle.psm_text.specs.Text.{Gives};
ghost use Rattle.psm_text.specs.Order.{blank};
ghost use Rattle.psm_text.specs.Parts.{joined, substring_of, has_negative, is_before_end, asked_part, upper_of, lower_of, IsPosition, position_of, Trimmed, trimmed_of, TrimmedFront, TrimmedEnd};

use crate::fault::TextFault;
use crate::order::rest;
use crate::text::{MOST_CHARACTERS, Text};
use std::alloc::{AllocError, Global};

/// An end of a text, or both, from which blanks are removed.
#[derive(Clone, Copy, Debug, PartialEq, Eq)]
pub enum Side {
    Leading,
    Trailing,
    Both,
}

impl Text {
    /// The other text after this one (ISO/IEC 9075:1992, 6.13). `TooLong` comes exactly where that has
    /// more than 4000 characters, also where only blanks are too many.
    pub fn concat(&self, alloc: Global, other: &Text) -> Result<Text, TextFault>
        ensures { Gives (joined self.now other.now) result }
    {
        let front = self.chars();
        let end = other.chars();
        if front.len() + end.len() > MOST_CHARACTERS {
            return Err(TextFault::TooLong);
        }
        let mut items = Vec::with_capacity(alloc, front.len() + end.len())?;
        items.extend_from_slice(front)?;
        items.extend_from_slice(end)?;
        Ok(Text::from_vec(items))
    }

    /// The characters at the positions from `from` on that exist: `count` positions, or all (ISO/IEC 9075:1992,
    /// 6.7). Positions count from 1, and `from` may lie outside the text. `Substring` comes exactly where the
    /// count is negative.
    pub fn substring(&self, alloc: Global, from: i64, count: Option<i64>) -> Result<Text, TextFault>
        ensures { Gives (substring_of from count self.now) result }
    {
        if is_negative(count) {
            return Err(TextFault::Substring);
        }
        Ok(Text::of(alloc, asked_characters(self.chars(), from, count))?)
    }

    /// The first position, from 1, at which the part stands, or 0 where it stands nowhere (ISO/IEC 9075:1992,
    /// 6.6). The empty text stands at 1.
    #[tactic(auto, using(crate::proofs::Values::position_is))]
    pub fn position(&self, part: &Text) -> u32
        ensures first { IsPosition part.now self.now result }
        ensures value { result ≡ position_of part.now self.now }
    {
        first_position(self.chars(), part.chars())
    }

    /// The text without the blanks at that side (ISO/IEC 9075:1992, 6.7).
    #[tactic(auto, using(crate::proofs::Values::trimmed_is))]
    pub fn trim(&self, alloc: Global, side: Side) -> Result<Text, AllocError>
        ensures trimmed { IfOk result (λ t. Trimmed side self.now t) }
        ensures value { IfOk result (λ t. t ≡ trimmed_of side self.now) }
    {
        Text::of(alloc, trimmed(self.chars(), side))
    }

    /// The text with a to z as capital letters; no other character changes (ISO/IEC 9075:1992, 6.7).
    pub fn upper(&self, alloc: Global) -> Result<Text, AllocError>
        ensures { IfOk result (λ t. t ≡ upper_of self.now) }
    {
        let items = self
            .chars()
            .iter()
            .map(|c| c.to_ascii_uppercase())
            .collect(alloc)?;
        Ok(Text::from_vec(items))
    }

    /// The text with A to Z as small letters; no other character changes (ISO/IEC 9075:1992, 6.7).
    pub fn lower(&self, alloc: Global) -> Result<Text, AllocError>
        ensures { IfOk result (λ t. t ≡ lower_of self.now) }
    {
        let items = self
            .chars()
            .iter()
            .map(|c| c.to_ascii_lowercase())
            .collect(alloc)?;
        Ok(Text::from_vec(items))
    }
}

fn is_negative(count: Option<i64>) -> bool
    ensures { result ≡ has_negative count }
{
    match count {
        Some(count) => count < 0,
        None => false,
    }
}

fn asked_characters(characters: &[char], from: i64, count: Option<i64>) -> &[char]
    requires { length characters.now ≤ 4000 }
    ensures value { result.now ≡ asked_part from count characters.now }
    ensures shorter { length result.now ≤ length characters.now }
{
    let start = positions_before(i128::from(from), characters.len());
    let end = positions_before_end(from, count, characters.len());
    between(characters, start, end)
}

/// How many of the positions from 1 to `len` lie before the position.
fn positions_before(position: i128, len: usize) -> usize
    requires { len ≤ 4000 }
    ensures within { result ≤ len }
    ensures before { (p : ℕ) → 0 < p → p ≤ len → int_lt (pos p) position ≡ nat_le p result }
    ensures from_there { (p : ℕ) → 0 < p → p ≤ len → int_le position (pos p) ≡ nat_lt result p }
{
    if position <= 1 {
        0
    } else if position > len as i128 {
        len
    } else {
        (position - 1) as usize
    }
}

/// How many of them lie before the end of the count, which is computed in 128 bits.
fn positions_before_end(from: i64, count: Option<i64>, len: usize) -> usize
    requires { len ≤ 4000 }
    ensures within { result ≤ len }
    ensures before { (p : ℕ) → 0 < p → p ≤ len → is_before_end from count p ≡ nat_le p result }
{
    match count {
        Some(count) => positions_before(i128::from(from) + i128::from(count), len),
        None => len,
    }
}

fn between(characters: &[char], start: usize, end: usize) -> &[char]
    requires start_within { start ≤ length characters.now }
    requires end_within { end ≤ length characters.now }
    ensures value { result.now ≡ take (end - start) (drop start characters.now) }
    ensures shorter { length result.now ≤ length characters.now }
{
    if start < end {
        &characters[start..end]
    } else {
        &characters[start..start]
    }
}

fn first_position(characters: &[char], wanted: &[char]) -> u32
    requires { length characters.now ≤ 4000 }
    ensures { IsPosition wanted.now characters.now result }
{
    let mut left = characters;
    let mut before = 0;
    while wanted.len() <= left.len() {
        if left.starts_with(wanted) {
            return before + 1;
        }
        left = rest(left);
        before += 1;
    }
    0
}

fn trimmed(characters: &[char], side: Side) -> &[char]
    ensures value { Trimmed side characters.now result.now }
    ensures shorter { length result.now ≤ length characters.now }
{
    match side {
        Side::Leading => without_front(characters),
        Side::Trailing => without_end(characters),
        Side::Both => without_end(without_front(characters)),
    }
}

fn without_front(characters: &[char]) -> &[char]
    ensures value { TrimmedFront characters.now result.now }
    ensures shorter { length result.now ≤ length characters.now }
{
    let mut left = characters;
    while begins_blank(left) {
        left = rest(left);
    }
    left
}

fn begins_blank(characters: &[char]) -> bool
    ensures { IsTrue result ↔ (slice_get characters.now 0 ≡ Some blank) }
{
    matches!(characters, [' ', ..])
}

fn without_end(characters: &[char]) -> &[char]
    ensures value { TrimmedEnd characters.now result.now }
    ensures shorter { length result.now ≤ length characters.now }
{
    let mut left = characters;
    while ends_blank(left) {
        left = without_last(left);
    }
    left
}

fn ends_blank(characters: &[char]) -> bool
    ensures { IsTrue result ↔ (slice_get characters.now (length characters.now - 1) ≡ Some blank) }
{
    matches!(characters, [.., ' '])
}

fn without_last(characters: &[char]) -> &[char]
    ensures { result.now ≡ take (length characters.now - 1) characters.now }
{
    match characters {
        [before @ .., _] => before,
        [] => characters,
    }
}
