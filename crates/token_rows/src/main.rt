//! Reads rows from standard input, one a line, and prints each with the tokens of its text, or with the text that is
//! written of them.
//!
//! A row is `tokens` or `spell`, a blank, and a text, in which `\n`, `\r` and `\t` stand for a character and
//! `\{9 PART}` for nine times the part. An empty line, and one that begins with `#`, is printed as it is.
//!
//! After a row of `tokens` stands each token after its kind, with line and column after an `@`, and then the end: of
//! a number its digits, and how many of them stand after the point. After a row of `spell` stands between brackets
//! what is written of the tokens, if they are read again of that; from 200 bytes on only how long it is.
#![tactic(auto)]

mod answer;
mod display;
mod fault;
mod spelled;
mod unescape;

use answer::answer;
use anyhow::Result;
use std::io::{BufRead, BufReader};

fn main(rt: HostRuntime) -> Result<()> {
    let alloc = rt.alloc();
    for line in BufReader::new(alloc, rt.reader())?.lines(alloc) {
        let line = line?;
        if line.is_empty() || line.starts_with('#') {
            println!(rt; "{line}")?;
        } else {
            let answer = answer(alloc, line.as_str())?;
            println!(rt; "{line} | {answer}")?;
        }
    }
    Ok(())
}
