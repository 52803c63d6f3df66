//! The names so far, of which only proofs know. They take no memory.
ghost use Rattle.std.specs.Prelude.{◌≡◌, List, [], ◌∷◌, ◌++◌};
ghost use base.Fml.{ftrue};
ghost use Rattle.psm_tree.specs.declared.name.Identifier.{Identifier};

use psm_tree::Identifier;
use std::marker::Model;

#[derive(Drop)]
pub(crate) struct NameLog {
    ghost names: { List Identifier },
}

impl Model for NameLog {
    ghost also_owns = { λ _. ftrue };
}

impl NameLog {
    /// No names.
    pub(crate) fn new() -> NameLog
        ensures { result.names ≡ [] }
    {
        NameLog {}
    }

    /// One name more.
    pub(crate) fn and(&self, _name: &Identifier) -> NameLog
        ensures { result.names ≡ self.now.names ++ _name.now ∷ [] }
    {
        NameLog {}
    }
}
