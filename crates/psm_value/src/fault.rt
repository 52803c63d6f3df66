//! Why an operation on values gives no value.
use psm_sqlstate::SqlState;
use psm_text::TextFault;
use std::alloc::{AllocError, AllocFailed};

/// Why an operation on values gives no value.
#[derive(Clone, Copy, Debug, PartialEq, Eq)]
pub enum ValueFault {
    /// The SQLSTATE of the condition that it raises.
    Condition(SqlState),
    /// Memory ran out.
    Memory,
}

impl From<AllocError> for ValueFault {
    ghost use Rattle.std.specs.Prelude.{◌≡◌};
    ghost use Rattle.psm_value.specs.declared.fault.ValueFault.TheVariants.{Memory};

    ghost from_gives = { λ _ e. e ≡ Memory };

    fn from(_e: AllocError) -> ValueFault {
        ValueFault::Memory
    }
}

impl<T: Drop> From<AllocFailed<T>> for ValueFault {
    ghost use Rattle.std.specs.Prelude.{◌≡◌};
    ghost use Rattle.psm_value.specs.declared.fault.ValueFault.TheVariants.{Memory};

    ghost from_gives = { λ _ e. e ≡ Memory };

    fn from(_e: AllocFailed<T>) -> ValueFault {
        ValueFault::Memory
    }
}

impl From<SqlState> for ValueFault {
    ghost use Rattle.std.specs.Prelude.{◌≡◌};
    ghost use Rattle.psm_value.specs.declared.fault.ValueFault.TheVariants.{Condition};

    ghost from_gives = { λ state e. e ≡ Condition state };

    fn from(state: SqlState) -> ValueFault {
        ValueFault::Condition(state)
    }
}

impl From<TextFault> for ValueFault {
    ghost use Rattle.std.specs.Prelude.{◌≡◌};
    ghost use Rattle.psm_value.specs.TextFaults.{fault_of};

    ghost from_gives = { λ fault e. e ≡ fault_of fault };

    fn from(fault: TextFault) -> ValueFault {
        match fault {
            TextFault::TooLong | TextFault::Lost => {
                ValueFault::Condition(SqlState::RIGHT_TRUNCATION)
            }
            TextFault::Substring => ValueFault::Condition(SqlState::SUBSTRING_ERROR),
            TextFault::EscapeChar => ValueFault::Condition(SqlState::INVALID_ESCAPE_CHARACTER),
            TextFault::EscapePair => ValueFault::Condition(SqlState::INVALID_ESCAPE_SEQUENCE),
            TextFault::Memory => ValueFault::Memory,
        }
    }
}
