//! The characters that a row stands for.

use crate::fault::Fault;
use std::alloc::Global;

/// The characters of a row, where `\n`, `\t`, `\xHH` and `\{9 PART}` stand for others.
pub fn unescaped(alloc: Global, row: &str) -> Result<String, Fault> {
    let mut characters = String::new(alloc);
    for (number, piece) in row.split('\\').enumerate() {
        if number == 0 {
            characters.push_str(piece)?;
        } else {
            put_escape(&mut characters, piece)?;
        }
    }
    Ok(characters)
}

// What stands after a `\`, up to the next one.
fn put_escape(characters: &mut String, piece: &str) -> Result<(), Fault> {
    let (mark, rest) = after_first(piece).ok_or(Fault::Row)?;
    match mark {
        'n' => characters.push('\n')?,
        't' => characters.push('\t')?,
        'x' => return put_code(characters, rest),
        '{' => return put_repeated(characters, rest),
        _ => return Err(Fault::Row),
    }
    characters.push_str(rest)?;
    Ok(())
}

// The first character and what follows it.
fn after_first(piece: &str) -> Option<(char, &str)> {
    let mut characters = piece.chars();
    let first = characters.next()?;
    Some((first, characters.as_str()))
}

// Two hexadecimal digits and what follows them.
fn put_code(characters: &mut String, piece: &str) -> Result<(), Fault> {
    let (high, rest) = after_first(piece).ok_or(Fault::Row)?;
    let (low, rest) = after_first(rest).ok_or(Fault::Row)?;
    let code = digit(high)?.wrapping_mul(16).wrapping_add(digit(low)?);
    characters.push(char::from(code))?;
    characters.push_str(rest)?;
    Ok(())
}

// The value of a hexadecimal digit.
fn digit(digit: char) -> Result<u8, Fault> {
    match digit.to_digit(16) {
        Some(value) => u8::try_from(value).ok().ok_or(Fault::Row),
        None => Err(Fault::Row),
    }
}

// `9 PART}` and what follows.
fn put_repeated(characters: &mut String, piece: &str) -> Result<(), Fault> {
    let (repeated, rest) = piece.split_once('}').ok_or(Fault::Row)?;
    let (times, part) = repeated.split_once(' ').ok_or(Fault::Row)?;
    for _ in 0..times.parse::<u32>().ok().ok_or(Fault::Row)? {
        characters.push_str(part)?;
    }
    characters.push_str(rest)?;
    Ok(())
}
