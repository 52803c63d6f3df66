//! Truth values.

use crate::fault::Fault;
use crate::operands::Operands;
use crate::shown;
use psm_value::Truth;
use std::alloc::Global;

pub fn operated(
    alloc: Global,
    operation: &str,
    operands: &mut Operands<'_>,
) -> Result<String, Fault> {
    let first = truth(operands)?;
    match operation {
        "and" => shown::truth(alloc, first.and(truth(operands)?)),
        "or" => shown::truth(alloc, first.or(truth(operands)?)),
        "not" => shown::truth(alloc, first.not()),
        _ => shown::yes_or_no(alloc, first.is_true(), "yes", "no"),
    }
}

fn truth(operands: &mut Operands<'_>) -> Result<Truth, Fault> {
    match operands.word()? {
        "true" => Ok(Truth::True),
        "false" => Ok(Truth::False),
        "unknown" => Ok(Truth::Unknown),
        _ => Err(Fault::Row),
    }
}
