//! Reads module files from standard input and prints the first fault of each.
//!
//! A row is a name, ` | `, and the text of a module file in one line, in which `\n` stands for the end
//! of a line, `\t` for a tab, `\r` for a carriage return and `\b` for a backslash. After the name stands what was found: the line and the
//! column of the first fault with its code and words, or `accepted`. A line that is empty or begins with `#` is printed as it is.
#![tactic(auto)]

mod answer;

use answer::answer;
use anyhow::Result;
use std::io::{BufRead, BufReader};

fn main(rt: HostRuntime) -> Result<()> {
    let alloc = rt.alloc();
    for line in BufReader::new(alloc, rt.reader())?.lines(alloc) {
        let line = line?;
        let line = line.as_str();
        if line.is_empty() || line.starts_with('#') {
            println!(rt; "{line}")?;
        } else if let Some((name, text)) = line.split_once(" | ") {
            let answer = answer(alloc, text)?;
            println!(rt; "{name} | {answer}")?;
        } else {
            println!(rt; "{line} | no row")?;
        }
    }
    Ok(())
}
