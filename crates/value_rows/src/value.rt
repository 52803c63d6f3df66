//! Values by themselves.

use crate::fault::Fault;
use crate::operands::Operands;
use crate::shown;
use psm_value::{Datum, add, compare, div, mul, neg, sub};
use std::alloc::Global;
use std::cmp::Ordering;

pub fn operated(
    alloc: Global,
    operation: &str,
    operands: &mut Operands<'_>,
) -> Result<String, Fault> {
    let value = operands.value(alloc)?;
    match operation {
        "neg" => shown::value(alloc, &neg(&value)),
        "print" => shown::value(alloc, &value),
        "copy" => copied(alloc, &value),
        _ => on_both(alloc, operation, &value, &operands.value(alloc)?),
    }
}

fn on_both(alloc: Global, operation: &str, left: &Datum, right: &Datum) -> Result<String, Fault> {
    match operation {
        "add" => shown::value(alloc, &add(left, right)?),
        "sub" => shown::value(alloc, &sub(left, right)?),
        "mul" => shown::value(alloc, &mul(left, right)?),
        "div" => shown::value(alloc, &div(left, right)?),
        "order" => shown::word(alloc, shown::order(left.total_cmp(right))),
        "compare" => shown::word(alloc, comparison(compare(left, right))),
        _ => Err(Fault::Row),
    }
}

fn comparison(order: Option<Ordering>) -> &'static str {
    match order {
        Some(order) => shown::order(order),
        None => "unknown",
    }
}

// What is printed of the value's copy.
fn copied(alloc: Global, value: &Datum) -> Result<String, Fault> {
    let copy = value.copy(alloc)?;
    shown::value(alloc, &copy)
}
