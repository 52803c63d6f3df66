//! Numbers by themselves.

use crate::fault::Fault;
use crate::operands::Operands;
use crate::shown;
use psm_num::Dec;
use std::alloc::Global;

pub fn operated(
    alloc: Global,
    operation: &str,
    operands: &mut Operands<'_>,
) -> Result<String, Fault> {
    match operation {
        "new" => new(alloc, operands),
        "parts" => parts(alloc, operands.number()?),
        "read" => read(alloc, operands),
        "again" => again(alloc, operands.number()?),
        "rescale" => rescale(alloc, operands),
        _ => Err(Fault::Row),
    }
}

// The number of a coefficient and a scale.
fn new(alloc: Global, operands: &mut Operands<'_>) -> Result<String, Fault> {
    let coef = operands.integer()?;
    let scale = operands.count(255)?;
    match Dec::new(coef, u8::try_from(scale).ok().ok_or(Fault::Row)?) {
        Some(number) => shown::number(alloc, number),
        None => shown::word(alloc, "none"),
    }
}

// The coefficient and the scale.
fn parts(alloc: Global, number: Dec) -> Result<String, Fault> {
    Ok(format!(in alloc; "{} {}", number.coef(), number.scale())?)
}

// The number that a text spells.
fn read(alloc: Global, operands: &mut Operands<'_>) -> Result<String, Fault> {
    let spelled = operands.quoted(alloc)?;
    shown::number(alloc, Dec::read(spelled.as_str())?)
}

// The number that its own printed form spells.
fn again(alloc: Global, number: Dec) -> Result<String, Fault> {
    let printed = number.print(alloc)?;
    shown::number(alloc, Dec::read(printed.as_str())?)
}

fn rescale(alloc: Global, operands: &mut Operands<'_>) -> Result<String, Fault> {
    let number = operands.number()?;
    let scale = operands.count(18)?;
    shown::number(alloc, number.rescale(scale as u8)?)
}
