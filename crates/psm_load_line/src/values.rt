//! States, and the condition values of handlers.
ghost use Rattle.std.specs.Prelude.{◌≡◌, option_map};
ghost use Rattle.psm_words.specs.Reading.{state_at};
ghost use Rattle.psm_load_line.specs.Forms.{classes, value_at};
ghost use Rattle.psm_load_line.specs.Readers.{one_of, word};
ghost use Rattle.psm_load_line.specs.Said.{state_of as state_or_success};
ghost use Rattle.psm_load_line.specs.Taken.{with_value};

use crate::front::{bare_size, keyword};
use psm_cond::ConditionValue;
use psm_sqlstate::SqlState;
use psm_words::number;
use std::str;

/// The five bytes of a state after a blank, and what follows them.
pub(crate) fn state(rest: &[u8]) -> Option<([u8; 5], &[u8])>
    ensures { option_map (λ x. (x.0, x.1.now)) result ≡ word state_at rest.now }
{
    state_first(keyword(b" ", rest)?)
}

fn state_first(text: &[u8]) -> Option<([u8; 5], &[u8])>
    ensures { option_map (λ x. (x.0, x.1.now)) result ≡ state_at text.now }
{
    let (bytes, size) = psm_words::state(text)?;
    Some((bytes, &text[size..]))
}

/// The state of five bytes, or 00000 where they are none.
pub(crate) fn state_of(bytes: [u8; 5]) -> SqlState
    ensures { result ≡ state_or_success bytes }
{
    match str::from_utf8(&bytes) {
        Ok(text) => SqlState::read(text).unwrap_or(SqlState::SUCCESS),
        Err(_) => SqlState::SUCCESS,
    }
}

/// The condition value after a blank, and what follows it.
pub(crate) fn condition_value(rest: &[u8]) -> Option<(ConditionValue, &[u8])>
    ensures { option_map (λ x. (x.0, x.1.now)) result ≡ option_map with_value (word value_at rest.now) }
{
    value_first(keyword(b" ", rest)?)
}

fn value_first(text: &[u8]) -> Option<(ConditionValue, &[u8])>
    ensures { option_map (λ x. (x.0, x.1.now)) result ≡ option_map with_value (value_at text.now) }
{
    match text {
        [] => None,
        [b'N', ..] => {
            let after = keyword(b"N=", text)?;
            let (n, size) = number(u32::MAX, after)?;
            Some((ConditionValue::Named(n), &after[size..]))
        }
        [b'S', ..] => {
            let (bytes, rest) = state_first(keyword(b"S=", text)?)?;
            Some((ConditionValue::State(state_of(bytes)), rest))
        }
        [_, ..] => class(text),
    }
}

/// The class of states at the front, and what follows it.
fn class(text: &[u8]) -> Option<(ConditionValue, &[u8])>
    ensures { option_map (λ x. (x.0, x.1.now)) result ≡ option_map with_value (one_of classes text.now) }
{
    let size = bare_size(text);
    match &text[..size] {
        b"X" => Some((ConditionValue::SqlException, &text[size..])),
        b"W" => Some((ConditionValue::SqlWarning, &text[size..])),
        b"F" => Some((ConditionValue::NotFound, &text[size..])),
        _ => None,
    }
}
