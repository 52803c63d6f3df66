//! Declares in the innermost scope. A name that is declared again stays what it is.
ghost use Rattle.std.specs.Prelude.{◌≡◌, IfOk, IsTrue, is_some, not};
ghost use Rattle.psm_scope.specs.Lookup.{named};
ghost use Rattle.psm_scope.specs.KeptScopes.{can_declare_here, declared_here};
ghost use Rattle.psm_rules.specs.BlockFaults.{local_variable, with_condition, with_cursor, with_variable};

use psm_check_expr::{CheckedCursor, Scopes};
use psm_scope::Variable;
use psm_sqlstate::SqlState;
use psm_text::Name;
use psm_value::SqlType;
use std::alloc::AllocError;

// The variable of a block, which can be assigned.
fn local_variable(kind: Option<SqlType>) -> Variable
    ensures { result ≡ local_variable kind }
{
    Variable {
        kind,
        slot: 0,
        assignable: true,
    }
}

/// Declares a variable, and says whether it is a new one.
pub(crate) fn declare_variable<'a>(
    scopes: &mut Scopes<'a>,
    name: &'a Name,
    kind: Option<SqlType>,
) -> Result<bool, AllocError>
    requires { IsTrue (can_declare_here scopes.old) }
    ensures is_new { IfOk result (λ b. b ≡ not (is_some (named name.now (declared_here scopes.old).variables))) }
    ensures scopes { IfOk result (λ _. scopes.new ≡ with_variable scopes.old name.now (local_variable kind)) }
    ensures open { IfOk result (λ _. IsTrue (can_declare_here scopes.new)) }
{
    scopes.declare_variable(name, local_variable(kind))
}

/// Declares a condition that is another name of an SQLSTATE, or of none.
pub(crate) fn declare_condition<'a>(
    scopes: &mut Scopes<'a>,
    name: &'a Name,
    state: Option<SqlState>,
) -> Result<bool, AllocError>
    requires { IsTrue (can_declare_here scopes.old) }
    ensures scopes { IfOk result (λ _. scopes.new ≡ with_condition scopes.old name.now (record { number = 0; state = state })) }
    ensures open { IfOk result (λ _. IsTrue (can_declare_here scopes.new)) }
{
    scopes.declare_condition(name, 0, state)
}

/// Declares a cursor.
pub(crate) fn declare_cursor<'a>(
    scopes: &mut Scopes<'a>,
    name: &'a Name,
    known: CheckedCursor<'a>,
) -> Result<bool, AllocError>
    requires { IsTrue (can_declare_here scopes.old) }
    ensures scopes { IfOk result (λ _. scopes.new ≡ with_cursor scopes.old name.now known.entry) }
    ensures open { IfOk result (λ _. IsTrue (can_declare_here scopes.new)) }
{
    scopes.declare_cursor(name, known)
}
