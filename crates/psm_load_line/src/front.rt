//! What stands at the front of a line, and what follows it.
ghost use Rattle.std.specs.Prelude.{◌≡◌, ◌≤◌, codes, drop, length, map, option_map, take};
ghost use Rattle.psm_words.specs.Reading.{after as after_word, datum_at, type_at};
ghost use Rattle.psm_load_line.specs.Forms as forms;
ghost use Rattle.psm_load_line.specs.Readers.{bare, chosen, flag_at, last, name_at, one_of, parted as parted_at, word};
ghost use Rattle.psm_load_line.specs.Taken.{IsText, Takes};

use crate::fault::Unread;
use psm_text::{Name, NameFault};
use psm_value::{Datum, SqlType};
use psm_words::{datum, number, quoted, sql_type};
use std::alloc::Global;
use std::str;

/// What follows the word with which a line begins.
pub(crate) fn keyword<'a>(word: &[u8], line: &'a [u8]) -> Option<&'a [u8]>
    ensures { option_map (λ s. s.now) result ≡ after_word word.now line.now }
{
    if line.starts_with(word) {
        Some(&line[word.len()..])
    } else {
        None
    }
}

/// What stands before the first place of a word, and what stands from there on.
pub(crate) fn parted<'a>(word: &[u8], text: &'a [u8]) -> Option<(&'a [u8], &'a [u8])>
    ensures { option_map (λ x. (x.0.now, x.1.now)) result ≡ parted_at word.now text.now }
{
    for at in 0..text.len() {
        if text[at..].starts_with(word) {
            return Some((&text[..at], &text[at..]));
        }
    }
    None
}

/// The number after a blank, and what follows it.
pub(crate) fn index(rest: &[u8]) -> Option<(u32, &[u8])>
    ensures { option_map (λ x. (x.0, x.1.now)) result ≡ forms.index rest.now }
{
    let after = keyword(b" ", rest)?;
    let (n, size) = number(u32::MAX, after)?;
    Some((n, &after[size..]))
}

/// Whether it is `1` and not `0` that stands after a blank, and what follows it.
pub(crate) fn flag(rest: &[u8]) -> Option<(bool, &[u8])>
    ensures { option_map (λ x. (x.0, x.1.now)) result ≡ word flag_at rest.now }
{
    let after = keyword(b" ", rest)?;
    let (n, size) = number(1, after)?;
    Some((n == 1, &after[size..]))
}

/// The type after a blank, and what follows it.
pub(crate) fn kind(rest: &[u8]) -> Option<(SqlType, &[u8])>
    ensures { option_map (λ x. (x.0, x.1.now)) result ≡ word type_at rest.now }
{
    let after = keyword(b" ", rest)?;
    let (kind, size) = sql_type(after)?;
    Some((kind, &after[size..]))
}

/// The name after a blank, and what follows it.
pub(crate) fn name(alloc: Global, rest: &[u8]) -> Result<(Name, &[u8]), Unread>
    ensures { Takes (λ x. (x.0, x.1.now)) (word name_at rest.now) result }
{
    match keyword(b" ", rest) {
        Some(after) => name_first(alloc, after),
        None => Err(Unread::Misfit),
    }
}

/// The name at the front, and what follows it.
pub(crate) fn name_first(alloc: Global, text: &[u8]) -> Result<(Name, &[u8]), Unread>
    ensures { Takes (λ x. (x.0, x.1.now)) (name_at text.now) result }
{
    match quoted(alloc, text)? {
        None => Err(Unread::Misfit),
        Some((characters, size)) => match Name::make(alloc, characters.as_str()) {
            Ok(name) => Ok((name, &text[size..])),
            Err(NameFault::Memory) => Err(Unread::Memory),
            Err(_) => Err(Unread::Misfit),
        },
    }
}

/// The value after a blank, and what follows it.
pub(crate) fn value(alloc: Global, rest: &[u8]) -> Result<(Datum, &[u8]), Unread>
    ensures { Takes (λ x. (x.0, x.1.now)) (word datum_at rest.now) result }
{
    match keyword(b" ", rest) {
        Some(after) => value_first(alloc, after),
        None => Err(Unread::Misfit),
    }
}

fn value_first(alloc: Global, text: &[u8]) -> Result<(Datum, &[u8]), Unread>
    ensures { Takes (λ x. (x.0, x.1.now)) (datum_at text.now) result }
{
    match datum(alloc, text)? {
        Some((value, size)) => Ok((value, &text[size..])),
        None => Err(Unread::Misfit),
    }
}

/// The word after a blank, up to the next blank, and what follows it.
pub(crate) fn bare_word(rest: &[u8]) -> Option<(&[u8], &[u8])>
    ensures { option_map (λ x. (x.0.now, x.1.now)) result ≡ option_map bare (after_word (codes " ") rest.now) }
{
    let after = keyword(b" ", rest)?;
    let size = bare_size(after);
    Some((&after[..size], &after[size..]))
}

/// The word after a blank where it is a text, and what follows it.
pub(crate) fn text_word(rest: &[u8]) -> Option<(&str, &[u8])>
    ensures { IsText (option_map bare (after_word (codes " ") rest.now)) (option_map (λ x. (x.0.now, x.1.now)) result) }
{
    let (word, rest) = bare_word(rest)?;
    match str::from_utf8(word) {
        Ok(word) => Some((word, rest)),
        Err(_) => None,
    }
}

/// How many bytes stand before the next blank.
pub(crate) fn bare_size(text: &[u8]) -> usize
    ensures value { bare text.now ≡ (take result text.now, drop result text.now) }
    ensures within { result ≤ length text.now }
{
    for (at, byte) in text.iter().enumerate() {
        if *byte == b' ' {
            return at;
        }
    }
    text.len()
}

/// What stands for a word in a table.
fn find<T: Copy>(word: &[u8], entries: &[(&str, T)]) -> Option<T>
    ensures { result ≡ chosen (map (λ e. (e.0.now, e.1)) entries.now) word.now }
{
    for (name, value) in entries {
        if name.as_bytes() == word {
            return Some(*value);
        }
    }
    None
}

/// What stands for the word after a blank in a table, and what follows the word.
pub(crate) fn pick<'a, T: Copy>(rest: &'a [u8], entries: &[(&str, T)]) -> Option<(T, &'a [u8])>
    ensures { option_map (λ x. (x.0, x.1.now)) result ≡ word (one_of (map (λ e. (e.0.now, e.1)) entries.now)) rest.now }
{
    let (word, rest) = bare_word(rest)?;
    Some((find(word, entries)?, rest))
}

/// The same of the last word.
pub(crate) fn pick_last<T: Copy>(rest: &[u8], entries: &[(&str, T)]) -> Option<T>
    ensures { result ≡ last (word (one_of (map (λ e. (e.0.now, e.1)) entries.now))) rest.now }
{
    let (value, rest) = pick(rest, entries)?;
    if rest.is_empty() { Some(value) } else { None }
}
