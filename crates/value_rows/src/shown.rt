//! Values in one line.

use crate::fault::Fault;
use psm_num::Dec;
use psm_text::Text;
use psm_value::{Datum, Truth};
use std::alloc::{AllocError, Global};
use std::cmp::Ordering;
use std::str;

const MOST_ALIKE: u32 = 20;

/// The value as a script prints it.
pub fn value(alloc: Global, value: &Datum) -> Result<String, Fault> {
    let mut printed = Vec::new(alloc);
    value.print(&mut printed)?;
    let characters = str::from_utf8(printed.as_slice()).ok().ok_or(Fault::Row)?;
    Ok(in_one_line(alloc, characters)?)
}

pub fn number(alloc: Global, number: Dec) -> Result<String, Fault> {
    value(alloc, &Datum::Num(number))
}

pub fn text(alloc: Global, text: Text) -> Result<String, Fault> {
    value(alloc, &Datum::Text(text))
}

pub fn truth(alloc: Global, truth: Truth) -> Result<String, Fault> {
    let printed = match truth {
        Truth::True => "true",
        Truth::False => "false",
        Truth::Unknown => "unknown",
    };
    word(alloc, printed)
}

/// The word, or another where the answer is no.
pub fn yes_or_no(alloc: Global, answer: bool, yes: &str, no: &str) -> Result<String, Fault> {
    word(alloc, if answer { yes } else { no })
}

pub fn word(alloc: Global, word: &str) -> Result<String, Fault> {
    Ok(String::from_str(alloc, word)?)
}

pub fn order(order: Ordering) -> &'static str {
    match order {
        Ordering::Less => "less",
        Ordering::Equal => "equal",
        Ordering::Greater => "greater",
    }
}

/// The characters, where more than twenty of one stand together as `\{21 a}`, and a line feed or a tab as in a row.
pub fn in_one_line(alloc: Global, characters: &str) -> Result<String, AllocError> {
    let mut line = String::new(alloc);
    let mut run = Run {
        character: ' ',
        times: 0,
    };
    for c in characters.chars() {
        if c == run.character {
            run.times = run.times.saturating_add(1);
        } else {
            run.put(alloc, &mut line)?;
            run = Run {
                character: c,
                times: 1,
            };
        }
    }
    run.put(alloc, &mut line)?;
    Ok(line)
}

/// One character, some times.
#[derive(Clone, Copy)]
struct Run {
    character: char,
    times: u32,
}

impl Run {
    fn put(self, alloc: Global, line: &mut String) -> Result<(), AllocError> {
        if self.times > MOST_ALIKE {
            let run = format!(in alloc; "\\{{{} {}}}", self.times, self.character)?;
            return line.push_str(run.as_str());
        }
        for _ in 0..self.times {
            put_character(line, self.character)?;
        }
        Ok(())
    }
}

fn put_character(line: &mut String, c: char) -> Result<(), AllocError> {
    match c {
        '\n' => line.push_str("\\n"),
        '\t' => line.push_str("\\t"),
        c => line.push(c),
    }
}
