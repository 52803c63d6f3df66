//! Texts by themselves.

use crate::fault::Fault;
use crate::operands::Operands;
use crate::shown;
use psm_text::Side;
use std::alloc::Global;

pub fn operated(
    alloc: Global,
    operation: &str,
    operands: &mut Operands<'_>,
) -> Result<String, Fault> {
    match operation {
        "make" => make(alloc, operands),
        "concat" => concat(alloc, operands),
        "substring" => substring(alloc, operands),
        "position" => position(alloc, operands),
        "trim" => trim(alloc, operands),
        "upper" => shown::text(alloc, operands.text(alloc)?.upper(alloc)?),
        "lower" => shown::text(alloc, operands.text(alloc)?.lower(alloc)?),
        "like" => like(alloc, operands),
        _ => Err(Fault::Row),
    }
}

// How many characters a text has.
fn make(alloc: Global, operands: &mut Operands<'_>) -> Result<String, Fault> {
    let text = operands.text(alloc)?;
    Ok(format!(in alloc; "{} characters", text.len())?)
}

fn concat(alloc: Global, operands: &mut Operands<'_>) -> Result<String, Fault> {
    let front = operands.text(alloc)?;
    let end = operands.text(alloc)?;
    shown::text(alloc, front.concat(alloc, &end)?)
}

// A text, the first place, and maybe how many.
fn substring(alloc: Global, operands: &mut Operands<'_>) -> Result<String, Fault> {
    let text = operands.text(alloc)?;
    let from = operands.integer()?;
    let count = if operands.is_empty() {
        None
    } else {
        Some(operands.integer()?)
    };
    shown::text(alloc, text.substring(alloc, from, count)?)
}

// A part, and the text that it is sought in.
fn position(alloc: Global, operands: &mut Operands<'_>) -> Result<String, Fault> {
    let part = operands.text(alloc)?;
    let text = operands.text(alloc)?;
    Ok(format!(in alloc; "{}", text.position(&part))?)
}

fn trim(alloc: Global, operands: &mut Operands<'_>) -> Result<String, Fault> {
    let side = match operands.word()? {
        "LEADING" => Side::Leading,
        "TRAILING" => Side::Trailing,
        "BOTH" => Side::Both,
        _ => return Err(Fault::Row),
    };
    shown::text(alloc, operands.text(alloc)?.trim(alloc, side)?)
}

// A text and a pattern, and maybe ESCAPE and a text.
fn like(alloc: Global, operands: &mut Operands<'_>) -> Result<String, Fault> {
    let text = operands.text(alloc)?;
    let pattern = operands.text(alloc)?;
    let answer = if operands.is_empty() {
        text.like(&pattern, None)?
    } else {
        text.like(&pattern, Some(&escape(alloc, operands)?))?
    };
    shown::yes_or_no(alloc, answer, "true", "false")
}

fn escape(alloc: Global, operands: &mut Operands<'_>) -> Result<psm_text::Text, Fault> {
    match operands.word()? {
        "ESCAPE" => operands.text(alloc),
        _ => Err(Fault::Row),
    }
}
