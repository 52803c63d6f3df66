//! Why a diagnostics item or a data statement gives nothing.

use crate::condition::Condition;
use psm_list::Boxed;
use std::alloc::{AllocError, AllocFailed};

/// Why an item of an entry isn't given.
#[derive(Clone, Copy, Debug, PartialEq, Eq)]
pub enum AreaFault {
    /// The condition number is null, or isn't a whole number from 1 to the number of entries (35000).
    Number,
    /// Memory ran out.
    Memory,
}

impl From<AllocError> for AreaFault {
    ghost use Rattle.std.specs.Prelude.{◌≡◌};
    ghost use Rattle.psm_cond.specs.declared.fault.AreaFault.TheVariants.{Memory};

    ghost from_gives = { λ _ e. e ≡ Memory };

    fn from(_e: AllocError) -> AreaFault {
        AreaFault::Memory
    }
}

/// Why a data statement isn't done.
#[derive(Debug, Drop)]
pub enum DataFault {
    /// The condition that it raises. It is boxed, so that an answer is small.
    Raised(Boxed<Condition>),
    /// Memory ran out.
    Memory,
}

impl From<AllocError> for DataFault {
    ghost use Rattle.std.specs.Prelude.{◌≡◌};
    ghost use Rattle.psm_cond.specs.declared.fault.DataFault.TheVariants.{Memory};

    ghost from_gives = { λ _ e. e ≡ Memory };

    fn from(_e: AllocError) -> DataFault {
        DataFault::Memory
    }
}

impl<T: Drop> From<AllocFailed<T>> for DataFault {
    ghost use Rattle.std.specs.Prelude.{◌≡◌};
    ghost use Rattle.psm_cond.specs.declared.fault.DataFault.TheVariants.{Memory};

    ghost from_gives = { λ _ e. e ≡ Memory };

    fn from(_e: AllocFailed<T>) -> DataFault {
        DataFault::Memory
    }
}
