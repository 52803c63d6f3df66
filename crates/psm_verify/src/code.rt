//! Code that keeps its rules.
ghost use Rattle.std.specs.Prelude.{◌≡◌, None};
ghost use Rattle.psm_code.specs.RoutineRules.{first_fault};

use psm_code::RawCode;
use std::marker::Model;

/// Code that keeps its rules, seen as the code.
#[derive(Debug, Drop)]
pub struct Code {
    raw: RawCode,
}

impl Model for Code {
    ghost use Rattle.std.specs.Prelude.{◌≡◌, None};
    ghost use Rattle.psm_code.specs.declared.code.RawCode.{RawCode};
    ghost use Rattle.psm_code.specs.RoutineRules.{first_fault};

    ghost Value = { RawCode };

    ghost view = { λ c. c.raw };

    ghost invariant = { λ c. first_fault c.raw ≡ None };
}

impl Code {
    /// Code that is known to keep its rules.
    pub fn right(raw: RawCode) -> Code
        requires { first_fault raw ≡ None }
        ensures { result ≡ raw }
    {
        Code { raw }
    }

    /// Lends the code.
    pub fn raw(&self) -> &RawCode
        ensures value { result.now ≡ self.now }
        ensures right { first_fault self.now ≡ None }
    {
        &self.raw
    }

    /// Gives the code back.
    pub fn into_raw(self) -> RawCode
        ensures value { result ≡ self }
        ensures right { first_fault self ≡ None }
    {
        let Code { raw } = self;
        raw
    }
}
