//! The rows of a table that a statement is about.
ghost use Rattle.std.specs.Prelude.{◌≡◌, ◌≤◌, All, IfOk, IfSome, OnOk, length};
ghost use Rattle.std.specs.List.{cons_option};
ghost use Rattle.std.specs.Option.{option_copied};
ghost use Rattle.psm_value.specs.Answer.{Gives};
ghost use Rattle.psm_table.specs.Definition.{IsKey, IsRow};
ghost use Rattle.psm_table.specs.Evaluator.{mapped, test_of};
ghost use Rattle.psm_table.specs.Queries.{is_met, taken, walked};
ghost use Rattle.psm_table.specs.Table.{IsTable};
ghost use Rattle.psm_tablecode.specs.Codes.{over};
ghost use Rattle.psm_tablecode.specs.TypeChecks.{Runs};
ghost use Rattle.psm_dml.specs.Collected.{key_in, with_option};
ghost use Rattle.psm_dml.specs.TypeChecks.{TypeChecksTest};

use psm_exprcode::{ExprCode, Operand};
use psm_table::{Key, List, Row, Table};
use psm_tablecode::{Coming, truth, walk_of};
use psm_value::{Datum, Truth, ValueFault};
use std::alloc::{AllocError, Global};

/// The keys of the rows that meet a test, in order.
pub(crate) fn met_keys(
    alloc: Global,
    table: &Table,
    test: Option<&ExprCode>,
    vars: &[Datum],
) -> Result<List<Key>, ValueFault>
    requires { TypeChecksTest (option_copied test) vars.now table.now.contents.def }
    ensures keys { Gives (walked (test_of (over vars.now) (option_copied test.entry)) (key_in table.now.contents.def.key) table.now.contents.rows) result }
    ensures fit { IfOk result (λ keys. All (IsKey table.now.contents.def) keys) }
    ensures bound { IfOk result (λ keys. length keys ≤ length table.now.contents.rows) }
    ensures table { IsTable table.now.contents }
{
    let mut stack = Vec::new(alloc);
    let mut keys = Vec::new(alloc);
    let walk = walk_of(alloc, table, false, test, vars)?;
    let mut coming = Coming::of(table, &walk);
    for at in 0..table.len() {
        let Some(row) = coming.next() else {
            break;
        };
        let key = met_key(alloc, &mut stack, table, test, row, vars)?;
        add_key(&mut keys, key)?;
    }
    Ok(List::of(keys))
}

// The key of a row, if the row meets the test.
fn met_key(
    alloc: Global,
    stack: &mut Vec<Operand>,
    table: &Table,
    test: Option<&ExprCode>,
    row: &Row,
    vars: &[Datum],
) -> Result<Option<Key>, ValueFault>
    requires row { IsRow table.now.contents.def row.now }
    requires runs { IfSome (option_copied test) (Runs row.now vars.now) }
    ensures key { Gives (taken (test_of (over vars.now) (option_copied test.entry)) (key_in table.now.contents.def.key) row.now) result }
    ensures fits { IfOk result (λ key. IfSome key (IsKey table.now.contents.def)) }
{
    if meets(alloc, stack, test, row.values(), vars)? {
        Ok(Some(table.key_of(alloc, row)?))
    } else {
        Ok(None)
    }
}

/// Whether a row meets a test: the test is true on it, and not unknown. Without a test each row does.
pub(crate) fn meets(
    alloc: Global,
    stack: &mut Vec<Operand>,
    test: Option<&ExprCode>,
    row: &[Datum],
    vars: &[Datum],
) -> Result<bool, ValueFault>
    requires { IfSome (option_copied test) (Runs row.now vars.now) }
    ensures { Gives (mapped is_met (test_of (over vars.now) (option_copied test.entry) row.now)) result }
{
    match test {
        None => Ok(true),
        Some(code) => Ok(is_true(truth(alloc, stack, code, row, vars)?)),
    }
}

fn is_true(truth: Truth) -> bool
    ensures { result ≡ is_met truth }
{
    match truth {
        Truth::True => true,
        Truth::False | Truth::Unknown => false,
    }
}

fn add_key(keys: &mut Vec<Key>, key: Option<Key>) -> Result<(), AllocError>
    ensures { OnOk result (keys.new.items ≡ with_option keys.old.items key) }
{
    if let Some(key) = key {
        keys.push(key)?;
    }
    Ok(())
}
