//! The bytes that the text of a row stands for.

use crate::fault::Fault;
use std::alloc::Global;

/// The bytes of a text, where `\n`, `\r`, `\t`, `\xHH` and `\{9 PART}` stand for others.
pub fn unescaped(alloc: Global, text: &str) -> Result<Vec<u8>, Fault> {
    let mut bytes = Vec::new(alloc);
    for (number, piece) in text.split('\\').enumerate() {
        if number == 0 {
            bytes.extend_from_slice(piece.as_bytes())?;
        } else {
            put_escape(&mut bytes, piece)?;
        }
    }
    Ok(bytes)
}

// What stands after a `\`, up to the next one.
fn put_escape(bytes: &mut Vec<u8>, piece: &str) -> Result<(), Fault> {
    match piece.as_bytes() {
        [b'n', rest @ ..] => put(bytes, b'\n', rest),
        [b'r', rest @ ..] => put(bytes, b'\r', rest),
        [b't', rest @ ..] => put(bytes, b'\t', rest),
        [b'x', high, low, rest @ ..] => {
            let byte = digit(*high)?.wrapping_mul(16).wrapping_add(digit(*low)?);
            put(bytes, byte, rest)
        }
        _ => put_repeated(bytes, piece.strip_prefix('{').ok_or(Fault::Row)?),
    }
}

fn put(bytes: &mut Vec<u8>, byte: u8, rest: &[u8]) -> Result<(), Fault> {
    bytes.push(byte)?;
    bytes.extend_from_slice(rest)?;
    Ok(())
}

// The value of a hexadecimal digit.
fn digit(byte: u8) -> Result<u8, Fault> {
    match byte {
        b'0'..=b'9' => Ok(byte - b'0'),
        b'A'..=b'F' => Ok(byte - b'A' + 10),
        _ => Err(Fault::Row),
    }
}

// `9 PART}` and what follows.
fn put_repeated(bytes: &mut Vec<u8>, piece: &str) -> Result<(), Fault> {
    let (repeated, rest) = piece.split_once('}').ok_or(Fault::Row)?;
    let (times, part) = repeated.split_once(' ').ok_or(Fault::Row)?;
    for _ in 0..times.parse::<u32>().ok().ok_or(Fault::Row)? {
        bytes.extend_from_slice(part.as_bytes())?;
    }
    bytes.extend_from_slice(rest.as_bytes())?;
    Ok(())
}
