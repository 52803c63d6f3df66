//! States: words of five bytes, which need not be an SQLSTATE.
ghost use Rattle.std.specs.Prelude.{◌≡◌, ◌++◌, ◌≤◌, drop, length, option_map, IfSome, OnErr, OnOk, SomeIff};
ghost use Rattle.std.specs.List.{list_all};
ghost use Rattle.psm_words.specs.Words.{is_state_byte, state_word};
ghost use Rattle.psm_words.specs.Reading.{state_at};

use std::alloc::AllocError;

const STATE_SIZE: usize = 5;

/// Appends a state. Where memory runs out, `out` is as it was.
pub fn put_state(out: &mut Vec<u8>, state: &[u8; 5]) -> Result<(), AllocError>
    ensures ok { OnOk result (out.new.items ≡ out.old.items ++ state_word state.now) }
    ensures err { OnErr result (out.new.items ≡ out.old.items) }
{
    out.extend_from_slice(state)
}

/// The five bytes at the front of a text, where each is from `!` to `~`, and how many these are.
pub fn state(text: &[u8]) -> Option<([u8; 5], usize)>
    ensures value { option_map (λ x. (x.0, drop x.1 text.now)) result ≡ state_at text.now }
    ensures within { IfSome result (λ x. x.1 ≤ length text.now) }
{
    if text.len() < STATE_SIZE {
        return None;
    }
    let bytes = five_of(&text[..STATE_SIZE])?;
    if are_state_bytes(&bytes) {
        Some((bytes, STATE_SIZE))
    } else {
        None
    }
}

/// The bytes, if there are five.
fn five_of(bytes: &[u8]) -> Option<[u8; 5]>
    ensures { SomeIff result (length bytes.now ≡ 5) bytes.now }
{
    <[u8; 5]>::try_from(bytes).ok()
}

fn are_state_bytes(bytes: &[u8]) -> bool
    ensures { result ≡ list_all is_state_byte bytes.now }
{
    bytes.iter().all(|b| is_state_byte(*b))
}

fn is_state_byte(byte: u8) -> bool
    ensures { result ≡ is_state_byte byte }
{
    33 <= byte && byte <= 126
}
