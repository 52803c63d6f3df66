//! Names.

use crate::fault::Fault;
use crate::operands::Operands;
use crate::shown;
use psm_text::Name;
use std::alloc::Global;

pub fn operated(
    alloc: Global,
    operation: &str,
    operands: &mut Operands<'_>,
) -> Result<String, Fault> {
    match operation {
        "name" => copied(alloc, &name(alloc, operands)?),
        _ => same(alloc, operands),
    }
}

fn name(alloc: Global, operands: &mut Operands<'_>) -> Result<Name, Fault> {
    let spelled = operands.quoted(alloc)?;
    Ok(Name::make(alloc, spelled.as_str())?)
}

// What is written of the name's copy.
fn copied(alloc: Global, name: &Name) -> Result<String, Fault> {
    let copy = name.copy(alloc)?;
    if copy.is(name) {
        Ok(shown::in_one_line(alloc, copy.as_str())?)
    } else {
        shown::word(alloc, "another name")
    }
}

fn same(alloc: Global, operands: &mut Operands<'_>) -> Result<String, Fault> {
    let left = name(alloc, operands)?;
    let right = name(alloc, operands)?;
    shown::yes_or_no(alloc, left.is(&right), "one name", "two names")
}
