//! Reads rows from standard input, one a line, and prints each with what the crates of numbers, texts, names,
//! SQLSTATEs, values and code of expressions answer.
//!
//! A row is an operation, and its operands after a blank each: numbers as they are written, texts between single
//! quotes with each quote in them doubled, `NULL`, and types as SQL writes them, without a blank.
//! In a row `\n` and `\t` stand for a character, `\xHH` for the one of that code, and `\{9 PART}` for nine times the
//! part. An empty line, and one that begins with `#`, is printed as it is.
//!
//! The operands of `code` are its lines: the letters of what is on the stack, or a minus sign for none, a colon, and
//! the operation of the line. A number before a letter says how many of it, and one after a point belongs to the
//! operation, which may also be a constant: a number or a text. Column 0 is the number 7 and column 1 the text `ab`;
//! variable 0 is null and a number, and variable 1 the text `x`. The letter with which the code ends stands before its
//! value.
//!
//! After the row stands the value that the operation gives, as a script prints it, or why there is none. More than
//! twenty of one character are printed as `\{21 a}`.
#![tactic(auto)]

mod answer;
mod code;
mod fault;
mod lines;
mod name;
mod number;
mod operands;
mod operation;
mod shown;
mod state;
mod steps;
mod storing;
mod text;
mod truth;
mod unescape;
mod value;

use answer::answer;
use anyhow::Result;
use std::io::{BufRead, BufReader};

fn main(rt: HostRuntime) -> Result<()> {
    let alloc = rt.alloc();
    for line in BufReader::new(alloc, rt.reader())?.lines(alloc) {
        let line = line?;
        if line.is_empty() || line.starts_with('#') {
            println!(rt; "{line}")?;
        } else {
            let answer = answer(alloc, line.as_str())?;
            println!(rt; "{line} | {answer}")?;
        }
    }
    Ok(())
}
