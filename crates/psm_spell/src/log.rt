//! The tokens that were written, of which only proofs know. They take no memory.
ghost use Rattle.std.specs.Prelude.{◌≡◌, List, [], ◌∷◌, ◌++◌};
ghost use base.Fml.{ftrue};
ghost use Rattle.psm_token.specs.declared.token.Token.{Token};

use crate::part::Part;
use std::marker::Model;

#[derive(Drop)]
pub(crate) struct Log {
    ghost tokens: { List Token },
}

impl Model for Log {
    ghost also_owns = { λ _. ftrue };
}

impl Log {
    ghost use Rattle.psm_spell.specs.Parts.{token_of};

    /// No tokens.
    pub(crate) fn new() -> Log
        ensures { result.tokens ≡ [] }
    {
        Log {}
    }

    /// One token more.
    pub(crate) fn and(&self, _part: &Part<'_>) -> Log
        ensures { result.tokens ≡ self.now.tokens ++ token_of _part.now ∷ [] }
    {
        Log {}
    }
}
