//! Routines that can't be distinguished.
ghost use Rattle.std.specs.Prelude.{◌≡◌, ◌∷◌, [], true, false, IfOk};
ghost use Rattle.psm_rules.specs.FileFaults.{is_function, distinct};
ghost use Rattle.psm_check_stmt.specs.SeenRoutines.{IsFunctionKey};

use crate::routine_log::RoutineLog;
use indexmap::IndexSet;
use psm_rules::{Fault, Rule, breaks_if};
use psm_scope::{CallKey, FunctionKey, NameKey};
use psm_symbols::kinds_of;
use psm_tree::Routine;
use std::alloc::{AllocError, Global};
use std::borrow::CowSlice;
use std::marker::Model;

/// The routines so far, the last first.
#[derive(Drop)]
pub(crate) struct SeenRoutines<'a> {
    functions: IndexSet<FunctionKey<'a>>,
    procedures: IndexSet<CallKey<'a>>,
    log: RoutineLog,
}

impl<'a> Model for SeenRoutines<'a> {
    ghost use Rattle.std.specs.Prelude.{List};
    ghost use Rattle.std.specs.Coded.{coded_list};
    ghost use Rattle.psm_tree.specs.declared.file.Routine.{Routine as Tree};
    ghost use Rattle.psm_tree.specs.contracts.file.Routine as tree;
    ghost use Rattle.psm_check_stmt.specs.SeenRoutines.{AreSeen};

    ghost Value = { List Tree };

    ghost coded = { coded_list tree.the_row.coded };

    ghost view = { λ t. t.log.routines };

    ghost invariant = { λ t. AreSeen t.functions.keys t.procedures.keys t.log.routines };
}

impl<'a> SeenRoutines<'a> {
    /// No routines. It takes no memory.
    pub(crate) fn new(alloc: Global) -> SeenRoutines<'a>
        ensures { result ≡ [] }
    {
        SeenRoutines {
            functions: IndexSet::new(alloc),
            procedures: IndexSet::new(alloc),
            log: RoutineLog::new(),
        }
    }

    /// One routine more, which may be one too many: procedures of one name have different numbers of parameters, functions of one
    /// name different kinds.
    pub(crate) fn fault(
        &mut self,
        alloc: Global,
        r: &'a Routine,
    ) -> Result<Option<Fault>, AllocError>
        ensures fault { IfOk result (λ f. f ≡ distinct r.now self.old) }
        ensures before { IfOk result (λ _. self.new ≡ r.now ∷ self.old) }
    {
        if r.returns.is_some() {
            self.function_fault(alloc, r)
        } else {
            self.procedure_fault(r)
        }
    }

    fn function_fault(&mut self, alloc: Global, r: &'a Routine) -> Result<Option<Fault>, AllocError>
        requires { is_function r.now ≡ true }
        ensures fault { IfOk result (λ f. f ≡ distinct r.now self.old) }
        ensures before { IfOk result (λ _. self.new ≡ r.now ∷ self.old) }
    {
        let key = function_key(alloc, r)?;
        let added = self.functions.insert(key)?;
        self.log = self.log.and(r);
        Ok(breaks_if(!added, Rule::FunctionsNotDistinct, r.name.place))
    }

    fn procedure_fault(&mut self, r: &'a Routine) -> Result<Option<Fault>, AllocError>
        requires { is_function r.now ≡ false }
        ensures fault { IfOk result (λ f. f ≡ distinct r.now self.old) }
        ensures before { IfOk result (λ _. self.new ≡ r.now ∷ self.old) }
    {
        let key = CallKey {
            name: NameKey { name: &r.name.name },
            count: r.parameters.items().len(),
        };
        let added = self.procedures.insert(key)?;
        self.log = self.log.and(r);
        Ok(breaks_if(!added, Rule::ProcedureRepeated, r.name.place))
    }
}

// What distinguishes a function from others: its name and the kinds of its parameters.
fn function_key<'a>(alloc: Global, r: &'a Routine) -> Result<FunctionKey<'a>, AllocError>
    ensures { IfOk result (λ key. IsFunctionKey r.now key) }
{
    Ok(FunctionKey {
        name: NameKey { name: &r.name.name },
        kinds: CowSlice::Owned(kinds_of(alloc, r.parameters.items())?),
    })
}
