//! Rows and answers in words.

use crate::fault::Fault;
use psm_table::{Datum, Row};
use std::alloc::Global;
use std::str;

/// The values as a script prints them, between parentheses.
pub fn values(alloc: Global, values: &[Datum]) -> Result<String, Fault> {
    let mut printed = Vec::new(alloc);
    printed.push(b'(')?;
    for (place, value) in values.iter().enumerate() {
        if place > 0 {
            printed.push(b' ')?;
        }
        value.print(&mut printed)?;
    }
    printed.push(b')')?;
    let display = str::from_utf8(printed.as_slice()).ok().ok_or(Fault::NoRow)?;
    Ok(String::from_str(alloc, display)?)
}

/// The row, or that there is none.
pub fn row(alloc: Global, row: Option<&Row>) -> Result<String, Fault> {
    match row {
        Some(row) => values(alloc, row.values()),
        None => word(alloc, "none"),
    }
}

/// Each row, or that there is none.
pub fn rows(alloc: Global, rows: &[&Row]) -> Result<String, Fault> {
    let mut display = String::new(alloc);
    for row in rows {
        let one = values(alloc, row.values())?;
        display.push_str(one.as_str())?;
    }
    if display.is_empty() {
        word(alloc, "none")
    } else {
        Ok(display)
    }
}

pub fn word(alloc: Global, word: &str) -> Result<String, Fault> {
    Ok(String::from_str(alloc, word)?)
}

/// That a change was done, or why it wasn't.
pub fn done(alloc: Global, done: Result<(), Fault>) -> Result<String, Fault> {
    done?;
    word(alloc, "ok")
}

/// How many marks were open before one.
pub fn depth(alloc: Global, depth: u128) -> Result<String, Fault> {
    Ok(format!(in alloc; "{depth}")?)
}
