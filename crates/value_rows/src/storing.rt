//! What fits into a type or a number of characters.

use crate::fault::Fault;
use crate::operands::Operands;
use crate::shown;
use psm_value::{Datum, SqlType, cast, fetch_into, is_stored, store_into};
use std::alloc::Global;

const MOST_CHARACTERS: u32 = 4000;

pub fn operated(
    alloc: Global,
    operation: &str,
    operands: &mut Operands<'_>,
) -> Result<String, Fault> {
    match operation {
        "fit" => fit(alloc, operands),
        "cut" => cut(alloc, operands),
        "type" => within(alloc, operands.data_type()?),
        _ => into_type(alloc, operation, operands),
    }
}

fn within(alloc: Global, to: SqlType) -> Result<String, Fault> {
    shown::yes_or_no(alloc, to.is_within_bounds(), "a type", "no type")
}

// A text, a number of characters, and maybe PAD.
fn fit(alloc: Global, operands: &mut Operands<'_>) -> Result<String, Fault> {
    let text = operands.text(alloc)?;
    let most = operands.count(MOST_CHARACTERS)?;
    shown::text(alloc, text.fit(alloc, most, pads(operands)?)?)
}

fn cut(alloc: Global, operands: &mut Operands<'_>) -> Result<String, Fault> {
    let text = operands.text(alloc)?;
    let most = operands.count(MOST_CHARACTERS)?;
    let (kept, lost) = text.cut(alloc, most, pads(operands)?)?;
    with_loss(alloc, &Datum::Text(kept), lost)
}

fn pads(operands: &mut Operands<'_>) -> Result<bool, Fault> {
    if operands.is_empty() {
        return Ok(false);
    }
    match operands.word()? {
        "PAD" => Ok(true),
        _ => Err(Fault::Row),
    }
}

// A value and a type.
fn into_type(alloc: Global, operation: &str, operands: &mut Operands<'_>) -> Result<String, Fault> {
    let value = operands.value(alloc)?;
    let to = operands.data_type()?;
    if !to.is_within_bounds() {
        return Err(Fault::Row);
    }
    match operation {
        "store" => shown::value(alloc, &store_into(alloc, to, &value)?),
        "cast" => shown::value(alloc, &cast(alloc, to, &value)?),
        "stored" => shown::yes_or_no(alloc, is_stored(to, &value), "yes", "no"),
        _ => {
            let (fetched, lost) = fetch_into(alloc, to, &value)?;
            with_loss(alloc, &fetched, lost)
        }
    }
}

fn with_loss(alloc: Global, value: &Datum, lost: bool) -> Result<String, Fault> {
    let mut reported = shown::value(alloc, value)?;
    if lost {
        reported.push_str(" with loss")?;
    }
    Ok(reported)
}
