//! Reads texts from standard input, one a line, and prints for each what the readers and the printer of this
//! repository answer.
//!
//! A row is a kind, a blank, and a text. The kind is `file`, `script`, `tokens`, or what to read a run of: `expr`,
//! `picks`, `target`, `type` or `stmt`. `stmt@2/99` reads from token 2 on, where 99 levels are open.
//! In the text `\n`, `\r`, `\t` and `\xHH` stand for a byte, and `\{9 PART}` stands for nine times the part.
//! `cut` before a row has it read up to each of its blanks. An empty line, and one that begins with `#`, is printed as it is.
//!
//! After the row stands `ok` with what was read, or what is wrong and where. Of a file that is the text that is
//! printed of it, of a script its commands, and of a run what it is and the number of the token after it.
#![tactic(auto)]

mod answer;
mod fault;
mod file;
mod form;
mod row;
mod run;
mod script;
mod unescape;

use answer::answer;
use anyhow::Result;
use std::io::{BufRead, BufReader};

fn main(rt: HostRuntime) -> Result<()> {
    let alloc = rt.alloc();
    for line in BufReader::new(alloc, rt.reader())?.lines(alloc) {
        let line = line?;
        if line.is_empty() || line.starts_with('#') {
            println!(rt; "{line}")?;
        } else {
            let answer = answer(alloc, line.as_str())?;
            println!(rt; "{line} | {answer}")?;
        }
    }
    Ok(())
}
