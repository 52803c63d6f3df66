//! A scope: what is declared in one place around a statement.
ghost use Rattle.std.specs.Prelude.{◌≡◌, [], ◌∷◌, IsTrue};
ghost use Rattle.std.specs.Option.{option_copied};
ghost use Rattle.psm_scope.specs.Scopes.{declared_in, undeclared};
ghost use Rattle.psm_scope.specs.Lookup.{is_called, is_label, named, sees_past};
ghost use Rattle.psm_scope.specs.KeptScopes.{Declares, can_declare, scope_of, is_action, labelled, the_conditions, the_cursors, the_variables};

use crate::key::same_name;
use crate::known::{DeclaredCondition, Variable};
use crate::names::Names;
use psm_sqlstate::SqlState;
use psm_text::Name;
use std::alloc::{AllocError, Global};
use std::marker::Model;

/// What a scope is of.
#[derive(Clone, Copy, Debug)]
pub enum ScopeKind<'a> {
    /// A routine with its name. Its parameters are variables.
    Routine(&'a Name),
    /// A compound statement with its label.
    Compound(Option<&'a Name>),
    /// LOOP, WHILE or REPEAT with its label.
    Loop(Option<&'a Name>),
    /// FOR with its label and its name.
    For(Option<&'a Name>, &'a Name),
    /// The action of a handler.
    Action,
}

/// A scope with what is declared in it. In a loop and in an action nothing is.
#[derive(Drop)]
pub(crate) struct Scope<'a, K> {
    kind: ScopeKind<'a>,
    variables: Names<'a, Variable>,
    conditions: Names<'a, DeclaredCondition>,
    cursors: Names<'a, K>,
}

impl<'a, K> Model for Scope<'a, K> {
    ghost use Rattle.std.specs.Prelude.{◌≡◌};
    ghost use Rattle.psm_scope.specs.Scopes.{Scope as Seen, declared_in};
    ghost use Rattle.psm_scope.specs.KeptScopes.{scope_of};
    ghost use Rattle.psm_scope.specs.declared.known.Variable.{Variable as KnownVariable};
    ghost use Rattle.psm_scope.specs.declared.known.DeclaredCondition.{DeclaredCondition as KnownCondition};

    ghost Value = { Seen KnownVariable KnownCondition K };

    ghost view = { λ f. scope_of f.kind (record { variables = f.variables; conditions = f.conditions; cursors = f.cursors }) };

    ghost invariant = { λ f. declared_in (scope_of f.kind (record { variables = f.variables; conditions = f.conditions; cursors = f.cursors })) ≡ record { variables = f.variables; conditions = f.conditions; cursors = f.cursors } };
}

impl<'a, K: Drop> Scope<'a, K> {
    /// A scope in which nothing is declared. It takes no memory.
    pub(crate) fn new(alloc: Global, kind: ScopeKind<'a>) -> Scope<'a, K>
        ensures { result ≡ scope_of kind.entry undeclared }
    {
        Scope {
            kind,
            variables: Names::new(alloc),
            conditions: Names::new(alloc),
            cursors: Names::new(alloc),
        }
    }

    /// The variable of that name.
    pub(crate) fn variable(&self, name: &Name) -> Option<Variable>
        ensures { result ≡ named name.now (declared_in self.now).variables }
    {
        self.variables.get(name)
    }

    /// The condition of that name.
    pub(crate) fn condition(&self, name: &Name) -> Option<DeclaredCondition>
        ensures { result ≡ named name.now (declared_in self.now).conditions }
    {
        self.conditions.get(name)
    }

    /// The cursor of that name.
    pub(crate) fn cursor(&self, name: &Name) -> Option<&K>
        ensures { option_copied result ≡ named name.now (declared_in self.now).cursors }
    {
        self.cursors.lent(name)
    }

    /// Whether names can be declared here.
    pub(crate) fn can_declare(&self) -> bool
        ensures { result ≡ can_declare self.now }
    {
        match self.kind {
            ScopeKind::Routine(_) | ScopeKind::Compound(_) | ScopeKind::For(_, _) => true,
            ScopeKind::Loop(_) | ScopeKind::Action => false,
        }
    }

    /// Declares a variable.
    pub(crate) fn declare_variable(
        &mut self,
        name: &'a Name,
        known: Variable,
    ) -> Result<bool, AllocError>
        requires { IsTrue (can_declare self.old) }
        ensures { Declares the_variables name.now known (self.old ∷ []) (self.new ∷ []) result }
    {
        self.variables.add(name, known)
    }

    /// Declares a condition.
    pub(crate) fn declare_condition(
        &mut self,
        name: &'a Name,
        number: u32,
        state: Option<SqlState>,
    ) -> Result<bool, AllocError>
        requires { IsTrue (can_declare self.old) }
        ensures { Declares the_conditions name.now (record { number = number; state = state }) (self.old ∷ []) (self.new ∷ []) result }
    {
        self.conditions
            .add(name, DeclaredCondition { number, state })
    }

    /// Declares a cursor.
    pub(crate) fn declare_cursor(&mut self, name: &'a Name, known: K) -> Result<bool, AllocError>
        requires { IsTrue (can_declare self.old) }
        ensures { Declares the_cursors name.now known (self.old ∷ []) (self.new ∷ []) result }
    {
        self.cursors.add(name, known)
    }

    /// Whether it is an action's.
    pub(crate) fn is_action(&self) -> bool
        ensures { result ≡ is_action self.now }
    {
        match self.kind {
            ScopeKind::Action => true,
            ScopeKind::Routine(_)
            | ScopeKind::Compound(_)
            | ScopeKind::Loop(_)
            | ScopeKind::For(_, _) => false,
        }
    }

    /// Whether it has that label, and then whether it is a loop's.
    pub(crate) fn labelled(&self, label: &Name) -> Option<bool>
        ensures { result ≡ labelled label.now self.now }
    {
        match self.kind {
            ScopeKind::Compound(own) => is_label(label, own).then_some(false),
            ScopeKind::Loop(own) | ScopeKind::For(own, _) => {
                is_label(label, own).then_some(true)
            }
            ScopeKind::Routine(_) | ScopeKind::Action => None,
        }
    }

    /// Whether the labels outside it are seen.
    pub(crate) fn sees_past(&self, sees: bool) -> bool
        ensures { result ≡ sees_past sees self.now }
    {
        sees && !self.is_action()
    }

    /// Whether a qualifier names what is declared here, where labels are seen or aren't.
    pub(crate) fn is_called(&self, sees: bool, qualifier: &Name) -> bool
        ensures { result ≡ is_called sees qualifier.now self.now }
    {
        match self.kind {
            ScopeKind::Routine(name) => same_name(qualifier, name),
            ScopeKind::Compound(label) => sees && is_label(qualifier, label),
            ScopeKind::For(_, name) => same_name(qualifier, name),
            ScopeKind::Loop(_) | ScopeKind::Action => false,
        }
    }
}

// Whether a name is that label.
pub(crate) fn is_label(name: &Name, label: Option<&Name>) -> bool
    ensures { result ≡ is_label name.now (option_copied label.entry) }
{
    match label {
        None => false,
        Some(label) => same_name(name, label),
    }
}
