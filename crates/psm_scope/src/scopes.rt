//! The scopes around a statement, and what names mean in them.
ghost use Rattle.std.specs.Prelude.{◌≡◌, ◌<◌, [], ◌∷◌, Some, drop, length, slice_get, IsTrue, OnOk, OnErr};
ghost use Rattle.std.specs.Option.{option_copied};
ghost use Rattle.psm_scope.specs.Scopes.{undeclared};
ghost use Rattle.psm_scope.specs.Lookup.{condition, cursor, labels, meant, named, qualified, variable};
ghost use Rattle.psm_scope.specs.KeptScopes.{Declares, can_declare_here, scope_of, level, the_conditions, the_cursors, the_variables};

use crate::known::{DeclaredCondition, Variable};
use crate::scope::{Scope, ScopeKind};
use psm_sqlstate::SqlState;
use psm_text::Name;
use std::alloc::{AllocError, Global};
use std::marker::Model;

/// The scopes around a statement, the innermost first: one for the routine, for each compound statement, loop and FOR statement, and
/// for each action of a handler (ISO/IEC 9075-4:1996, compound statements). Names are lent.
#[derive(Drop)]
pub struct Scopes<'a, K> {
    alloc: Global,
    /// The innermost is the last.
    scopes: Vec<Scope<'a, K>>,
}

impl<'a, K> Model for Scopes<'a, K> {
    ghost use Rattle.std.specs.Prelude.{List, reverse};
    ghost use Rattle.psm_scope.specs.Scopes.{Scope as Seen};
    ghost use Rattle.psm_scope.specs.declared.known.Variable.{Variable as KnownVariable};
    ghost use Rattle.psm_scope.specs.declared.known.DeclaredCondition.{DeclaredCondition as KnownCondition};

    ghost Value = { List (Seen KnownVariable KnownCondition K) };

    ghost view = { λ s. reverse s.scopes.items };
}

impl<'a, K: Drop> Scopes<'a, K> {
    /// No scopes. It takes no memory.
    pub fn new(alloc: Global) -> Scopes<'a, K>
        ensures { result ≡ [] }
    {
        Scopes {
            alloc,
            scopes: Vec::new(alloc),
        }
    }

    /// Goes into a scope in which nothing is declared. Without memory for it nothing changes.
    pub fn push(&mut self, kind: ScopeKind<'a>) -> Result<(), AllocError>
        ensures ok { OnOk result (self.new ≡ scope_of kind.entry undeclared ∷ self.old) }
        ensures err { OnErr result (self.new ≡ self.old) }
    {
        self.scopes.push(Scope::new(self.alloc, kind))?;
        Ok(())
    }

    /// Leaves the innermost scope, if there is one.
    pub fn pop(&mut self)
        ensures { self.new ≡ drop 1 self.old }
    {
        self.scopes.pop();
    }

    /// Whether names can be declared in the innermost scope: that of a routine, a compound statement or a FOR statement.
    pub fn can_declare(&self) -> bool
        ensures { result ≡ can_declare_here self.now }
    {
        if self.scopes.is_empty() {
            false
        } else {
            self.at(0).can_declare()
        }
    }

    /// Declares a variable or a parameter in the innermost scope, or answers `false` where one of that name is declared there
    /// already. Without memory for it nothing changes.
    pub fn declare_variable(&mut self, name: &'a Name, known: Variable) -> Result<bool, AllocError>
        requires { IsTrue (can_declare_here self.old) }
        ensures { Declares the_variables name.now known self.old self.new result }
    {
        let innermost = self.scopes.len() - 1;
        self.scopes[innermost].declare_variable(name, known)
    }

    /// Declares a condition in the innermost scope, in the same way.
    pub fn declare_condition(
        &mut self,
        name: &'a Name,
        number: u32,
        state: Option<SqlState>,
    ) -> Result<bool, AllocError>
        requires { IsTrue (can_declare_here self.old) }
        ensures { Declares the_conditions name.now (record { number = number; state = state }) self.old self.new result }
    {
        let innermost = self.scopes.len() - 1;
        self.scopes[innermost].declare_condition(name, number, state)
    }

    /// Declares a cursor in the innermost scope, in the same way.
    pub fn declare_cursor(&mut self, name: &'a Name, known: K) -> Result<bool, AllocError>
        requires { IsTrue (can_declare_here self.old) }
        ensures { Declares the_cursors name.now known self.old self.new result }
    {
        let innermost = self.scopes.len() - 1;
        self.scopes[innermost].declare_cursor(name, known)
    }

    /// The variable or parameter that a name means, which is declared furthest inside.
    pub fn variable(&self, name: &Name) -> Option<Variable>
        ensures { result ≡ variable name.now self.now }
    {
        for depth in 0..self.scopes.len() {
            if let Some(found) = self.at(depth).variable(name) {
                return Some(found);
            }
        }
        None
    }

    /// The condition that a name means.
    pub fn condition(&self, name: &Name) -> Option<DeclaredCondition>
        ensures { result ≡ condition name.now self.now }
    {
        for depth in 0..self.scopes.len() {
            if let Some(found) = self.at(depth).condition(name) {
                return Some(found);
            }
        }
        None
    }

    /// The cursor that a name means.
    pub fn cursor(&self, name: &Name) -> Option<&K>
        ensures { option_copied result ≡ cursor name.now self.now }
    {
        for depth in 0..self.scopes.len() {
            if let Some(found) = self.at(depth).cursor(name) {
                return Some(found);
            }
        }
        None
    }

    /// Whether a label is a loop's, where it is seen. An action sees no label from outside.
    pub fn label(&self, label: &Name) -> Option<bool>
        ensures { result ≡ named label.now (labels self.now) }
    {
        for depth in 0..self.scopes.len() {
            let scope = self.at(depth);
            if scope.is_action() {
                return None;
            }
            if let Some(loops) = scope.labelled(label) {
                return Some(loops);
            }
        }
        None
    }

    /// How many scopes there are.
    pub fn len(&self) -> usize
        ensures { result ≡ length self.now }
    {
        self.scopes.len()
    }

    /// How many scopes are around the one with a label, where it is seen. An action sees no label from outside.
    pub fn level(&self, label: &Name) -> Option<usize>
        ensures { result ≡ level label.now self.now }
    {
        for depth in 0..self.len() {
            let scope = self.at(depth);
            if scope.is_action() {
                return None;
            }
            if let Some(_loops) = scope.labelled(label) {
                return Some(self.len() - 1 - depth);
            }
        }
        None
    }

    /// The variable that a name with a qualifier means. The qualifier is the label of a compound statement, the name of a FOR
    /// statement or of the routine; the innermost that is called so decides. An action sees no label from outside.
    pub fn qualified(&self, qualifier: &Name, name: &Name) -> Option<Variable>
        ensures { result ≡ qualified qualifier.now name.now self.now }
    {
        let mut sees = true;
        for depth in 0..self.scopes.len() {
            let scope = self.at(depth);
            if scope.is_called(sees, qualifier) {
                return scope.variable(name);
            }
            sees = scope.sees_past(sees);
        }
        None
    }

    /// The variable that a name, or a qualified name, means in a control expression.
    pub fn meant(&self, first: &Name, second: Option<&Name>) -> Option<Variable>
        ensures { result ≡ meant first.now (option_copied second.entry) self.now }
    {
        match second {
            None => self.variable(first),
            Some(name) => self.qualified(first, name),
        }
    }

    // The scope at a depth, counted from the innermost, which has depth 0.
    fn at(&self, depth: usize) -> &Scope<'a, K>
        requires { depth < length self.now }
        ensures { slice_get self.now depth ≡ Some result.now }
    {
        &self.scopes[self.scopes.len() - 1 - depth]
    }
}
