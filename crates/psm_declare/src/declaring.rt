//! Declares in the innermost scope. A name that is declared again stays what it is.
ghost use Rattle.std.specs.Prelude.{◌≡◌, IfOk, IsTrue};
ghost use Rattle.psm_scope.specs.KeptScopes.{can_declare_here};
ghost use Rattle.psm_declare.specs.Numbering.{next_slot};
ghost use Rattle.psm_declare.specs.Declarations.{numbered_variable, with_named_condition, with_numbered_cursor, with_variable};

use crate::numbering::Numbering;
use psm_resolve_expr::Scopes;
use psm_scope::Variable;
use psm_sqlstate::SqlState;
use psm_text::Name;
use psm_value::SqlType;
use std::alloc::AllocError;

/// Declares a variable.
pub fn declare_known<'a>(
    scopes: &mut Scopes<'a>,
    name: &'a Name,
    known: Variable,
) -> Result<(), AllocError>
    requires { IsTrue (can_declare_here scopes.old) }
    ensures scopes { IfOk result (λ _. scopes.new ≡ with_variable scopes.old name.now known) }
    ensures open { IfOk result (λ _. IsTrue (can_declare_here scopes.new)) }
{
    scopes.declare_variable(name, known)?;
    Ok(())
}

/// Declares a condition by its number and the SQLSTATE that it is another name of.
pub fn declare_condition<'a>(
    scopes: &mut Scopes<'a>,
    name: &'a Name,
    number: u32,
    state: Option<SqlState>,
) -> Result<(), AllocError>
    requires { IsTrue (can_declare_here scopes.old) }
    ensures scopes { IfOk result (λ _. scopes.new ≡ with_named_condition scopes.old name.now (record { number = number; state = state })) }
    ensures open { IfOk result (λ _. IsTrue (can_declare_here scopes.new)) }
{
    scopes.declare_condition(name, number, state)?;
    Ok(())
}

/// Declares a cursor by its number.
pub fn declare_cursor<'a>(
    scopes: &mut Scopes<'a>,
    name: &'a Name,
    number: u32,
) -> Result<(), AllocError>
    requires { IsTrue (can_declare_here scopes.old) }
    ensures scopes { IfOk result (λ _. scopes.new ≡ with_numbered_cursor scopes.old name.now number) }
    ensures open { IfOk result (λ _. IsTrue (can_declare_here scopes.new)) }
{
    scopes.declare_cursor(name, number)?;
    Ok(())
}

/// Declares a variable of a type in the next slot, which it gives.
pub fn declare_variable<'a>(
    scopes: &mut Scopes<'a>,
    numbering: &mut Numbering<'a>,
    name: &'a Name,
    kind: SqlType,
) -> Result<u32, AllocError>
    requires { IsTrue (can_declare_here scopes.old) }
    ensures slot { IfOk result (λ slot. slot ≡ next_slot numbering.old) }
    ensures scopes { IfOk result (λ _. scopes.new ≡ (numbered_variable kind (scopes.old, numbering.old) name.now).0) }
    ensures numbering { IfOk result (λ _. numbering.new ≡ (numbered_variable kind (scopes.old, numbering.old) name.now).1) }
    ensures open { IfOk result (λ _. IsTrue (can_declare_here scopes.new)) }
{
    let slot = numbering.slot(kind)?;
    let known = Variable {
        kind: Some(kind),
        slot,
        assignable: true,
    };
    declare_known(scopes, name, known)?;
    Ok(slot)
}
