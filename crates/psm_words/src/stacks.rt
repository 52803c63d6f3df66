//! Stacks of letters.
ghost use Rattle.std.specs.Prelude.{◌≡◌, ◌++◌, ◌≤◌, [], drop, length, map, option_map, take, vec_len, IfOk, IfSome, OnErr, OnOk};
ghost use Rattle.psm_words.specs.Words.{letter_byte, stack_word};
ghost use Rattle.psm_words.specs.Reading.{letter_of as letter_at, letters_on, stack_at};

use psm_exprcode::Letter;
use std::alloc::{AllocError, Global};

/// Appends the letters of a stack, the top last, or `-` where it has none. Where memory runs out, `out` is as it was.
pub fn put_stack(out: &mut Vec<u8>, letters: &[Letter]) -> Result<(), AllocError>
    ensures ok { OnOk result (out.new.items ≡ out.old.items ++ stack_word letters.now) }
    ensures err { OnErr result (out.new.items ≡ out.old.items) }
{
    match letters {
        [] => out.extend_from_slice(b"-"),
        [_, ..] => put_letters(out, letters),
    }
}

fn put_letters(out: &mut Vec<u8>, letters: &[Letter]) -> Result<(), AllocError>
    ensures ok { OnOk result (out.new.items ≡ out.old.items ++ map letter_byte letters.now) }
    ensures err { OnErr result (out.new.items ≡ out.old.items) }
{
    let len = out.len();
    let put = put_each(out, letters);
    if put.is_err() {
        out.truncate(len);
    }
    put
}

// After a refusal a part of what is due stands after what stood there before.
fn put_each(out: &mut Vec<u8>, letters: &[Letter]) -> Result<(), AllocError>
    ensures ok { OnOk result (out.new.items ≡ out.old.items ++ map letter_byte letters.now) }
    ensures err { OnErr result (take (vec_len out.old) out.new.items ≡ out.old.items) }
{
    for letter in letters {
        out.push(byte_of(*letter))?;
    }
    Ok(())
}

fn byte_of(letter: Letter) -> u8
    ensures { result ≡ letter_byte letter }
{
    match letter {
        Letter::N => b'N',
        Letter::T => b'T',
        Letter::B => b'B',
    }
}

/// The stack at the front of a text, the top last, and how many bytes it has: as many letters as stand there, or none for
/// `-`. There is no stack where neither stands there. The only error is that memory runs out.
pub fn stack(alloc: Global, text: &[u8]) -> Result<Option<(Vec<Letter>, usize)>, AllocError>
    ensures value { IfOk result (λ o. option_map (λ x. (x.0.items, drop x.1 text.now)) o ≡ stack_at text.now) }
    ensures within { IfOk result (λ o. IfSome o (λ x. x.1 ≤ length text.now)) }
{
    match text {
        [] => Ok(None),
        [b'-', ..] => Ok(Some((Vec::new(alloc), 1))),
        [_, ..] => {
            let (letters, size) = letters(alloc, text)?;
            if letters.is_empty() {
                Ok(None)
            } else {
                Ok(Some((letters, size)))
            }
        }
    }
}

fn letters(alloc: Global, text: &[u8]) -> Result<(Vec<Letter>, usize), AllocError>
    ensures value { IfOk result (λ x. letters_on [] text.now ≡ (x.0.items, drop x.1 text.now)) }
    ensures within { IfOk result (λ x. x.1 ≤ length text.now) }
{
    let mut letters = Vec::new(alloc);
    for (at, byte) in text.iter().enumerate() {
        match letter_of(*byte) {
            Some(letter) => letters.push(letter)?,
            None => return Ok((letters, at)),
        }
    }
    Ok((letters, text.len()))
}

fn letter_of(byte: u8) -> Option<Letter>
    ensures { result ≡ letter_at byte }
{
    match byte {
        b'N' => Some(Letter::N),
        b'T' => Some(Letter::T),
        b'B' => Some(Letter::B),
        _ => None,
    }
}
