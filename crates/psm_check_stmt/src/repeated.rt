//! Names that stand twice.
ghost use Rattle.std.specs.Prelude.{◌≡◌, ◌∷◌, [], IfOk};
ghost use Rattle.psm_rules.specs.StatementFaults.{repeated};
ghost use Rattle.psm_check_stmt.specs.Listed.{with_names};

use crate::logged::NameLog;
use psm_rules::{Fault, Rule, breaks_if, earlier};
use psm_scope::Names;
use psm_tree::Identifier;
use std::alloc::{AllocError, Global};
use std::marker::Model;

/// Names in order: the first that stands before is a fault.
#[derive(Drop)]
pub(crate) struct Repeats<'a> {
    seen: Names<'a, ()>,
    rule: Rule,
    fault: Option<Fault>,
    log: NameLog,
}

impl<'a> Model for Repeats<'a> {
    ghost use Rattle.std.specs.Prelude.{◌≡◌};
    ghost use Rattle.psm_rules.specs.StatementFaults.{repeated};
    ghost use Rattle.psm_check_stmt.specs.Listed.{AreSeen, Listed};

    ghost Value = { Listed };

    ghost view = { λ r. record { rule = r.rule; names = r.log.names } };

    ghost invariant = { λ r. (r.fault ≡ repeated r.rule r.log.names) × AreSeen r.seen r.log.names };
}

impl<'a> Repeats<'a> {
    /// No names. It takes no memory.
    pub(crate) fn new(alloc: Global, rule: Rule) -> Repeats<'a>
        ensures { result ≡ record { rule = rule; names = [] } }
    {
        Repeats {
            seen: Names::new(alloc),
            rule,
            fault: None,
            log: NameLog::new(),
        }
    }

    /// One name more.
    pub(crate) fn add(&mut self, name: &'a Identifier) -> Result<(), AllocError>
        ensures { IfOk result (λ _. self.new ≡ with_names self.old (name.now ∷ [])) }
    {
        let added = self.seen.add(&name.name, ())?;
        self.fault = earlier(self.fault, breaks_if(!added, self.rule, name.place));
        self.log = self.log.and(name);
        Ok(())
    }

    /// Some names more.
    pub(crate) fn add_all(&mut self, names: &'a [Identifier]) -> Result<(), AllocError>
        ensures { IfOk result (λ _. self.new ≡ with_names self.old names.now) }
    {
        for name in names {
            self.add(name)?;
        }
        Ok(())
    }

    /// The first fault.
    pub(crate) fn fault(&self) -> Option<Fault>
        ensures { result ≡ repeated self.now.rule self.now.names }
    {
        self.fault
    }
}
