//! Sources, and the targets that they go into.
ghost use Rattle.std.specs.Prelude.{◌≡◌};
ghost use Rattle.psm_rules.specs.StatementFaults.{assigned_type, family_due, mixed_at, several, source_fault, target_fault_of, target_type, targets_fault, variable_of};

use psm_check_expr::{Scopes, spelling};
use psm_rules::{
    Checked, Family, Fault, Rule, Shape, as_value, breaks, breaks_if, earlier, family_of, is_of,
    typed,
};
use psm_scope::Variable;
use psm_token::Place;
use psm_tree::{Target, Targets};
use psm_value::SqlType;

/// The family that a target of a type takes, where the type is known.
pub(crate) fn family_due(kind: Option<SqlType>) -> Option<Family>
    ensures { result ≡ family_due kind }
{
    match kind {
        None => None,
        Some(t) => Some(family_of(typed(t).kind)),
    }
}

/// A value where one of a family is due, if that is known: the fault is at a place.
pub(crate) fn mixed_at(place: Place, due: Option<Family>, shape: Option<Shape>) -> Option<Fault>
    ensures { result ≡ mixed_at place due shape }
{
    match (due, shape) {
        (Some(family), Some(shape)) => {
            breaks_if(!is_of(family, shape), Rule::FamiliesMixed, place)
        }
        _ => None,
    }
}

/// A source for a target of a type.
pub(crate) fn source_fault(to: Option<SqlType>, source: Checked) -> Option<Fault>
    ensures { result ≡ source_fault to source }
{
    let value = as_value(source);
    earlier(
        value.fault,
        mixed_at(value.place, family_due(to), value.shape),
    )
}

/// The variable that a target means.
pub(crate) fn variable_of(scopes: &Scopes, target: &Target) -> Option<Variable>
    ensures { result ≡ variable_of scopes.now target.now }
{
    scopes.meant(&target.first.name, spelling(&target.second))
}

/// A target that isn't known or can't be assigned.
pub(crate) fn target_fault(place: Place, known: Option<Variable>) -> Option<Fault>
    ensures { result ≡ target_fault_of place known }
{
    match known {
        None => breaks(Rule::UnknownName, place),
        Some(known) => breaks_if(!known.assignable, Rule::NotAssignable, place),
    }
}

/// The type that a target takes; one at fault has none.
pub(crate) fn assigned_type(known: Option<Variable>) -> Option<SqlType>
    ensures { result ≡ assigned_type known }
{
    match known {
        None => None,
        Some(known) => { if known.assignable { known.kind } else { None } }
    }
}

/// The type that a target takes.
pub(crate) fn target_type(scopes: &Scopes, target: &Target) -> Option<SqlType>
    ensures { result ≡ target_type scopes.now target.now }
{
    assigned_type(variable_of(scopes, target))
}

/// The first target that isn't known or can't be assigned.
pub(crate) fn targets_fault(scopes: &Scopes, targets: &Targets) -> Option<Fault>
    ensures { result ≡ targets_fault scopes.now (several targets.now) }
{
    let first = &targets.first;
    let mut fault = target_fault(first.place(), variable_of(scopes, first));
    for target in targets.rest.items() {
        let known = variable_of(scopes, target);
        fault = earlier(fault, target_fault(target.place(), known));
    }
    fault
}
