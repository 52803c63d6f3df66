//! What is printed after a row.

use crate::fault::Fault;
use crate::operands::Operands;
use crate::unescape::unescaped;
use crate::{code, name, number, state, steps, storing, text, truth, value};
use std::alloc::{AllocError, Global};

/// What the row's operation gives, or why there is nothing.
pub fn answer(alloc: Global, line: &str) -> Result<String, AllocError> {
    match answered(alloc, line) {
        Ok(text) => Ok(text),
        Err(Fault::Memory) => Err(AllocError),
        Err(fault) => fault.reported(alloc),
    }
}

fn answered(alloc: Global, line: &str) -> Result<String, Fault> {
    let row = unescaped(alloc, line)?;
    let mut operands = Operands::of(row.as_str());
    let operation = operands.word()?;
    let reported = operated(alloc, operation, &mut operands)?;
    operands.end()?;
    Ok(reported)
}

fn operated(alloc: Global, operation: &str, operands: &mut Operands<'_>) -> Result<String, Fault> {
    match operation {
        "new" | "parts" | "read" | "again" | "rescale" => number::operated(
            alloc, operation, operands,
        ),
        "make" | "concat" | "substring" | "position" | "trim" | "upper" | "lower" | "like" => {
            text::operated(alloc, operation, operands)
        }
        "fit" | "cut" | "type" | "store" | "stored" | "fetch" | "cast" => {
            storing::operated(alloc, operation, operands)
        }
        "name" | "same" => name::operated(alloc, operation, operands),
        "state" => state::reported(alloc, operands),
        "steps" => steps::reported(alloc),
        "and" | "or" | "not" | "holds" => truth::operated(alloc, operation, operands),
        "code" => code::reported(alloc, operands),
        _ => value::operated(alloc, operation, operands),
    }
}
