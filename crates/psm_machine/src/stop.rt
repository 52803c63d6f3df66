//! Why a part of an instruction gives nothing.
ghost use Rattle.psm_machine.specs.ActResults.{Fails, StopsAt, StopsWith};

use psm_cond::Condition;
use psm_list::Boxed;
use psm_sqlstate::SqlState;
use psm_value::ValueFault;
use std::alloc::{AllocError, AllocFailed, Global};

/// Why a part of an instruction gives nothing. A condition is boxed: what each part ends in is returned through several calls, so it
/// has to be two or three words.
#[derive(Debug, Drop)]
pub enum Stop {
    /// A condition is to be raised at the line.
    Raises(Boxed<Condition>),
    /// A turn is due and none is left.
    NoTurns,
    /// Something isn't there that the instruction names.
    Stuck,
    /// Memory ran out.
    Memory,
}

impl From<AllocError> for Stop {
    ghost use Rattle.std.specs.Prelude.{◌≡◌};
    ghost use Rattle.psm_machine.specs.declared.stop.Stop.TheVariants.{Memory};

    ghost from_gives = { λ _ e. e ≡ Memory };

    fn from(_e: AllocError) -> Stop {
        Stop::Memory
    }
}

impl<T: Drop> From<AllocFailed<T>> for Stop {
    ghost use Rattle.std.specs.Prelude.{◌≡◌};
    ghost use Rattle.psm_machine.specs.declared.stop.Stop.TheVariants.{Memory};

    ghost from_gives = { λ _ e. e ≡ Memory };

    fn from(_e: AllocFailed<T>) -> Stop {
        Stop::Memory
    }
}

/// The condition of an SQLSTATE alone, or out of memory.
pub(crate) fn stop_at(alloc: Global, state: SqlState) -> Stop
    ensures { StopsAt state result }
{
    match Condition::raised(alloc, state) {
        Ok(condition) => Stop::Raises(condition),
        Err(_) => Stop::Memory,
    }
}

/// That a condition is to be raised at the line, or out of memory.
pub(crate) fn stop_with(alloc: Global, condition: Condition) -> Stop
    ensures { StopsWith condition result }
{
    match Boxed::new(alloc, condition) {
        Ok(condition) => Stop::Raises(condition),
        Err(_) => Stop::Memory,
    }
}

/// What a fault of an operation on values ends in.
pub(crate) fn failed(alloc: Global, fault: ValueFault) -> Stop
    ensures { Fails fault result }
{
    match fault {
        ValueFault::Condition(state) => stop_at(alloc, state),
        ValueFault::Memory => Stop::Memory,
    }
}
