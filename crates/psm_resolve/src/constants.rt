//! Constants, and the DEFAULT of a column as it is stored there.
ghost use Rattle.std.specs.Prelude.{◌≡◌, IfOk};
ghost use Rattle.psm_value.specs.SqlType.{IsType};
ghost use Rattle.psm_rules.specs.FileFaults.{datum_of, signed};
ghost use Rattle.psm_resolve.specs.Files.{default_of};

use psm_symbols::signed;
use psm_tree::{Constant, ConstantForm};
use psm_value::{Datum, SqlType, ValueFault, store_into};
use std::alloc::{AllocError, Global};

/// The DEFAULT of a column; without one it is null. One that can't be stored there is no part of an accepted file.
pub(crate) fn default_of(
    alloc: Global,
    kind: SqlType,
    default: &Option<Constant>,
) -> Result<Datum, AllocError>
    requires { IsType kind }
    ensures { IfOk result (λ d. d ≡ default_of kind default.now) }
{
    match default {
        None => Ok(Datum::Null),
        Some(constant) => {
            let datum = datum_of(alloc, &constant.form)?;
            match store_into(alloc, kind, &datum) {
                Ok(stored) => Ok(stored),
                Err(ValueFault::Memory) => Err(AllocError),
                Err(ValueFault::Condition(_)) => Ok(Datum::Null),
            }
        }
    }
}

fn datum_of(alloc: Global, form: &ConstantForm) -> Result<Datum, AllocError>
    ensures { IfOk result (λ d. d ≡ datum_of form.now) }
{
    match form {
        ConstantForm::Null => Ok(Datum::Null),
        ConstantForm::Number { sign, number } => Ok(Datum::Num(signed(*sign, *number))),
        ConstantForm::Text(text) => Ok(Datum::Text(text.copy(alloc)?)),
    }
}
