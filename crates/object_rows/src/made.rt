//! The texts that are made of lines.

use crate::answer::answer;
use anyhow::{Result, bail};
use std::alloc::{AllocError, Global};

/// The answer to the words after `=`, for lines of which each ends with a line feed.
pub fn answered(alloc: Global, lines: &str, words: &str) -> Result<String> {
    match words {
        "" => answer(alloc, lines),
        " without the last line feed" => {
            answer(alloc, lines.strip_suffix('\n').unwrap_or(lines))
        }
        " with carriage returns" => answer(alloc, with_carriage_returns(alloc, lines)?.as_str()),
        " cut after each line but the last" => cut(alloc, lines),
        " with a blank at the end of each line" => with_blanks(alloc, lines),
        _ => bail!("no such words"),
    }
}

fn with_carriage_returns(alloc: Global, lines: &str) -> Result<String, AllocError> {
    let mut text = String::new(alloc);
    for line in lines.lines() {
        text.push_str(line)?;
        text.push_str("\r\n")?;
    }
    Ok(text)
}

// The text up to a line is refused at that line, which is missing, for each line but the first.
fn cut(alloc: Global, lines: &str) -> Result<String> {
    let mut text = String::new(alloc);
    let mut count = 0_usize;
    for (number, line) in lines.lines().enumerate() {
        if number > 0 {
            let reported = answer(alloc, text.as_str())?;
            if reported != refused_at(alloc, number)? {
                return Ok(format!(in alloc; "after line {number}: {reported}")?);
            }
            count = number;
        }
        text.push_str(line)?;
        text.push('\n')?;
    }
    Ok(format!(in alloc; "{count} texts, each refused at the line that is missing")?)
}

// The text with a blank at the end of a line is refused at that line, for each line.
fn with_blanks(alloc: Global, lines: &str) -> Result<String> {
    let mut count = 0_usize;
    for (number, _) in lines.lines().enumerate() {
        let reported = answer(alloc, with_blank(alloc, lines, number)?.as_str())?;
        if reported != refused_at(alloc, number)? {
            return Ok(format!(in alloc; "line {}: {reported}", number.wrapping_add(1))?);
        }
        count = number.wrapping_add(1);
    }
    Ok(format!(in alloc; "{count} texts, each refused at that line")?)
}

fn with_blank(alloc: Global, lines: &str, at: usize) -> Result<String, AllocError> {
    let mut text = String::new(alloc);
    for (number, line) in lines.lines().enumerate() {
        text.push_str(line)?;
        if number == at {
            text.push(' ')?;
        }
        text.push('\n')?;
    }
    Ok(text)
}

// What is reported of a text whose line after that many doesn't fit.
fn refused_at(alloc: Global, before: usize) -> Result<String> {
    Ok(format!(in alloc; "object {} not an object text", before.wrapping_add(1))?)
}
