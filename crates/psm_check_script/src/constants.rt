//! Constants.
ghost use Rattle.std.specs.Prelude.{◌≡◌, ◌++◌, ◌∷◌, [], IfOk};
ghost use Rattle.psm_rules.specs.FileFaults.{datum_of, fits_family, signed};
ghost use Rattle.psm_rules.specs.Shapes.{is_family};
ghost use Rattle.psm_rules.specs.StatementFaults.{family_due};
ghost use Rattle.psm_check_script.specs.Commands.{value_of};
ghost use Rattle.psm_check_script.specs.ScriptFaults.{constant_fault, is_due};

use psm_rules::{Family, Fault, Rule, breaks_if, family_of, typed};
use psm_symbols::signed;
use psm_tree::{Constant, ConstantForm};
use psm_value::{Datum, SqlType};
use std::alloc::{AllocError, Global};

/// A constant of another family than that of the type for which it is given.
pub(crate) fn constant_fault(to: Option<SqlType>, constant: &Constant) -> Option<Fault>
    ensures { result ≡ constant_fault to constant.now }
{
    let is_due = is_due(to, &constant.form);
    breaks_if(!is_due, Rule::ConstantDoesNotFit, constant.place)
}

fn is_due(to: Option<SqlType>, form: &ConstantForm) -> bool
    ensures { result ≡ is_due (family_due to) (datum_of form.now) }
{
    match to {
        None => true,
        Some(t) => fits_family(family_of(typed(t).kind), form),
    }
}

// NULL is of both families.
fn fits_family(family: Family, form: &ConstantForm) -> bool
    ensures { result ≡ fits_family family (datum_of form.now) }
{
    match form {
        ConstantForm::Null => true,
        ConstantForm::Number { .. } => is_family(family, Family::Numbers),
        ConstantForm::Text(_) => is_family(family, Family::Texts),
    }
}

fn is_family(a: Family, b: Family) -> bool
    ensures { result ≡ is_family a b }
{
    match (a, b) {
        (Family::Numbers, Family::Numbers) | (Family::Texts, Family::Texts) => true,
        (Family::Numbers, Family::Texts) | (Family::Texts, Family::Numbers) => false,
    }
}

// The value of a constant. A number takes no memory.
fn value_of(alloc: Global, constant: &Constant) -> Result<Datum, AllocError>
    ensures { IfOk result (λ d. d ≡ value_of constant.now) }
{
    match &constant.form {
        ConstantForm::Null => Ok(Datum::Null),
        ConstantForm::Number { sign, number } => Ok(Datum::Num(signed(*sign, *number))),
        ConstantForm::Text(text) => Ok(Datum::Text(text.copy(alloc)?)),
    }
}

/// Puts the value of a constant after others.
pub(crate) fn push_value(
    alloc: Global,
    constant: &Constant,
    values: &mut Vec<Datum>,
) -> Result<(), AllocError>
    ensures { IfOk result (λ _. values.new.items ≡ values.old.items ++ value_of constant.now ∷ []) }
{
    let value = value_of(alloc, constant)?;
    values.push(value)?;
    Ok(())
}
