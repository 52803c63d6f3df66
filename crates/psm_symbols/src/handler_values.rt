//! Conditions that a file names, and values of handlers.
ghost use Rattle.std.specs.Prelude.{◌≡◌, IfOk};
ghost use Rattle.psm_rules.specs.BlockFaults.{value_fault, value_place};
ghost use Rattle.psm_rules.specs.Faults.{breaks_if, earlier};
ghost use Rattle.psm_rules.specs.StatementFaults.{name_of_condition_fault, state_fault};
ghost use Rattle.psm_rules.specs.declared.rule.Rule.TheVariants.{ConditionValueRepeated};

use crate::states::good_state;
use psm_check_expr::Scopes;
use psm_rules::{Fault, Rule, breaks_if, earlier};
use psm_tree::{HandlerValue, Identifier, State};
use std::alloc::{AllocError, Global};

/// A text that is no SQLSTATE, or one of success.
pub fn state_fault(alloc: Global, state: &State) -> Result<Option<Fault>, AllocError>
    ensures { IfOk result (λ f. f ≡ state_fault state.now) }
{
    let good = good_state(alloc, &state.text)?;
    Ok(breaks_if(good.is_none(), Rule::BadSqlState, state.at))
}

/// A condition that isn't declared.
pub fn condition_name_fault(scopes: &Scopes, name: &Identifier) -> Option<Fault>
    ensures { result ≡ name_of_condition_fault scopes.now name.now }
{
    breaks_if(
        scopes.condition(&name.name).is_none(),
        Rule::UnknownCondition,
        name.place,
    )
}

/// The fault of a value of a handler: by itself, or since the value stands before in the handlers of the block.
pub fn handler_value_fault(
    alloc: Global,
    scopes: &Scopes,
    value: &HandlerValue,
    repeats: bool,
) -> Result<Option<Fault>, AllocError>
    ensures { IfOk result (λ f. f ≡ earlier (value_fault scopes.now value.now) (breaks_if repeats ConditionValueRepeated (value_place value.now))) }
{
    let own = unrepeated_fault(alloc, scopes, value)?;
    let repeated = breaks_if(repeats, Rule::ConditionValueRepeated, value.place());
    Ok(earlier(own, repeated))
}

// The fault of a value by itself.
fn unrepeated_fault(
    alloc: Global,
    scopes: &Scopes,
    value: &HandlerValue,
) -> Result<Option<Fault>, AllocError>
    ensures { IfOk result (λ f. f ≡ value_fault scopes.now value.now) }
{
    match value {
        HandlerValue::State(state) => state_fault(alloc, state),
        HandlerValue::Name(name) => Ok(condition_name_fault(scopes, name)),
        HandlerValue::SqlException { .. }
        | HandlerValue::SqlWarning { .. }
        | HandlerValue::NotFound { .. } => Ok(None),
    }
}
