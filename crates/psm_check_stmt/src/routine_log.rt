//! The routines so far, of which only proofs know. They take no memory.
ghost use Rattle.std.specs.Prelude.{◌≡◌, List, [], ◌∷◌};
ghost use base.Fml.{ftrue};
ghost use Rattle.std.specs.Coded.{coded_list};
ghost use Rattle.psm_tree.specs.declared.file.Routine.{Routine};
ghost use Rattle.psm_tree.specs.contracts.file.Routine as tree;

use psm_tree::Routine;
use std::marker::Model;

#[derive(Drop)]
pub(crate) struct RoutineLog {
    ghost routines: { List Routine } by { coded_list tree.the_row.coded },
}

impl Model for RoutineLog {
    ghost also_owns = { λ _. ftrue };
}

impl RoutineLog {
    /// No routines.
    pub(crate) fn new() -> RoutineLog
        ensures { result.routines ≡ [] }
    {
        RoutineLog {}
    }

    /// One routine more; the last comes first.
    pub(crate) fn and(&self, _routine: &Routine) -> RoutineLog
        ensures { result.routines ≡ _routine.now ∷ self.now.routines }
    {
        RoutineLog {}
    }
}
