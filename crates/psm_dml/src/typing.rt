//! Whether a statement may be carried out. These calls take no memory.
ghost use Rattle.std.specs.Prelude.{◌≡◌, [], length};
ghost use Rattle.std.specs.List.{list_all};
ghost use Rattle.psm_tablecode.specs.TypeChecks.{gives_truth as gives_truth_code};
ghost use Rattle.psm_dml.specs.TypeChecks.{fits_set};

use psm_exprcode::{ExprCode, Letter, SetItem};
use psm_tablecode::{gives_truth, gives_value};

/// Whether each CHECK fits columns of these letters and ends with a truth value. Such CHECKs type-check over a table whose columns
/// have these letters.
pub fn checks_type_check(checks: &[ExprCode], columns: &[Letter]) -> bool
    ensures { result ≡ list_all (gives_truth_code columns.now []) checks.now }
{
    checks.iter().all(|check| gives_truth(check, columns, &[]))
}

/// Whether each assignment sets one of the columns to a value, which fits columns and variables of these letters.
pub fn sets_type_check(sets: &[SetItem], columns: &[Letter], variables: &[Letter]) -> bool
    ensures { result ≡ list_all (fits_set columns.now variables.now) sets.now }
{
    sets.iter().all(|set| is_set(set, columns, variables))
}

fn is_set(set: &SetItem, columns: &[Letter], variables: &[Letter]) -> bool
    ensures { result ≡ fits_set columns.now variables.now set.now }
{
    (set.column as usize) < columns.len() && gives_value(&set.source, columns, variables)
}
