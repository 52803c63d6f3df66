//! A fault of code, and why the verifier stops.
use psm_code::CodeRule;
use std::alloc::{AllocError, AllocFailed};

/// The first line of the listing that breaks a rule, counted from 1, and the rule.
#[derive(Clone, Copy, Debug, PartialEq, Eq)]
pub struct CodeFault {
    pub line: u64,
    pub rule: CodeRule,
}

/// Why the verifier stops.
#[derive(Clone, Copy, Debug, PartialEq, Eq)]
pub(crate) enum Stop {
    Fault(CodeFault),
    /// Memory ran out.
    Memory,
}

impl From<AllocError> for Stop {
    ghost use Rattle.std.specs.Prelude.{◌≡◌};
    ghost use Rattle.psm_verify.specs.declared.fault.Stop.TheVariants.{Memory};

    ghost from_gives = { λ _ e. e ≡ Memory };

    fn from(_e: AllocError) -> Stop {
        Stop::Memory
    }
}

impl<T: Drop> From<AllocFailed<T>> for Stop {
    ghost use Rattle.std.specs.Prelude.{◌≡◌};
    ghost use Rattle.psm_verify.specs.declared.fault.Stop.TheVariants.{Memory};

    ghost from_gives = { λ _ e. e ≡ Memory };

    fn from(_e: AllocFailed<T>) -> Stop {
        Stop::Memory
    }
}
