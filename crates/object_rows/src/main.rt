//! Reads listings from standard input, and prints for each whether it is an object.
//!
//! A case begins with a line `#` and its title, which is printed as it is. The lines up to one that begins with `=` are those of a
//! text, each with a line feed, and `\{9 PART}` in them stands for nine times the PART. At `=` it is printed what the text is: `OK`, or
//! the first line by which it is no object, and why. Other texts are made of the same lines by these words after `=`:
//! - `without the last line feed`
//! - `with carriage returns`: one before each line feed
//! - `cut after each line but the last`: the answer is how many texts these are, where each is refused at the line that is missing;
//!   else the first of them that isn't, and what it is
//! - `with a blank at the end of each line`: a text for each line, and the same of that line
#![tactic(auto)]

mod answer;
mod cases;
mod made;
mod unfolded;

use anyhow::Result;
use cases::print_cases;
use std::io;

fn main(rt: HostRuntime) -> Result<()> {
    let alloc = rt.alloc();
    let text = io::read_to_string(alloc, rt.reader())?;
    print_cases(&rt, alloc, text.as_str())
}
