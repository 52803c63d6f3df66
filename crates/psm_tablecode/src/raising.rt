//! The condition of an evaluation that fails.
ghost use Rattle.psm_tablecode.specs.Faults.{Reports};

use psm_cond::{Condition, DataFault};
use psm_value::ValueFault;
use std::alloc::Global;

/// The fault of a statement whose evaluation fails: the condition of the SQLSTATE alone, or out of memory.
pub fn raised(alloc: Global, fault: &ValueFault) -> DataFault
    ensures { Reports fault.now result }
{
    match fault {
        ValueFault::Condition(state) => match Condition::raised(alloc, *state) {
            Ok(condition) => DataFault::Raised(condition),
            Err(_) => DataFault::Memory,
        },
        ValueFault::Memory => DataFault::Memory,
    }
}
