//! The characters that the text of a row stands for.

use crate::fault::Fault;
use std::alloc::Global;

/// The characters of a text, where `\n`, `\r`, `\t` and `\{9 PART}` stand for others.
pub fn unescaped(alloc: Global, text: &str) -> Result<String, Fault> {
    let mut characters = String::new(alloc);
    for (number, piece) in text.split('\\').enumerate() {
        if number == 0 {
            characters.push_str(piece)?;
        } else {
            put_escape(&mut characters, piece)?;
        }
    }
    Ok(characters)
}

// What stands after a `\`, up to the next one.
fn put_escape(characters: &mut String, piece: &str) -> Result<(), Fault> {
    let mut following = piece.chars();
    match following.next() {
        Some('n') => characters.push('\n')?,
        Some('r') => characters.push('\r')?,
        Some('t') => characters.push('\t')?,
        Some('{') => return put_repeated(characters, following.as_str()),
        _ => return Err(Fault::Row),
    }
    characters.push_str(following.as_str())?;
    Ok(())
}

// `9 PART}` and what follows.
fn put_repeated(characters: &mut String, piece: &str) -> Result<(), Fault> {
    let (repeated, rest) = piece.split_once('}').ok_or(Fault::Row)?;
    let (times, part) = repeated.split_once(' ').ok_or(Fault::Row)?;
    for _ in 0..times.parse::<u32>().ok().ok_or(Fault::Row)? {
        characters.push_str(part)?;
    }
    characters.push_str(rest)?;
    Ok(())
}
