//! Statements on tables as parts of an instruction.
ghost use Rattle.std.specs.Prelude.{◌≡◌};
ghost use Rattle.psm_machine.specs.Over.{part_of, stop_of};

use crate::stop::Stop;
use psm_cond::DataFault;

/// The answer of a statement on tables, or what its fault stops.
pub(crate) fn part_of<A: Drop>(answer: Result<A, DataFault>) -> Result<A, Stop>
    ensures { result ≡ part_of answer }
{
    match answer {
        Ok(answer) => Ok(answer),
        Err(fault) => Err(stop_of(fault)),
    }
}

fn stop_of(fault: DataFault) -> Stop
    ensures { result ≡ stop_of fault }
{
    match fault {
        DataFault::Raised(condition) => Stop::Raises(condition),
        DataFault::Memory => Stop::Memory,
    }
}
