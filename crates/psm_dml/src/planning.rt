//! What UPDATE makes of the rows of a table (ISO/IEC 9075:1992, 13.10).
ghost use Rattle.std.specs.Prelude.{◌≡◌, All, IfOk, IfSome, OnOk, map};
ghost use Rattle.std.specs.Option.{option_copied};
ghost use Rattle.psm_value.specs.Answer.{Gives};
ghost use Rattle.psm_table.specs.Definition.{IsRow};
ghost use Rattle.psm_table.specs.Evaluator.{test_of};
ghost use Rattle.psm_table.specs.Queries.{taken, walked};
ghost use Rattle.psm_table.specs.Table.{IsTable};
ghost use Rattle.psm_tablecode.specs.Codes.{over};
ghost use Rattle.psm_tablecode.specs.TypeChecks.{Runs};
ghost use Rattle.psm_dml.specs.Changes.{changing, row_set};
ghost use Rattle.psm_dml.specs.Collected.{with_option};
ghost use Rattle.psm_dml.specs.TypeChecks.{Assigns, SetsTypeCheck, TypeChecksTest};

use crate::finding::meets;
use crate::setting::set_row;
use psm_exprcode::{ExprCode, Operand, SetItem};
use psm_table::{Key, List, Row, Table};
use psm_tablecode::{Coming, walk_of};
use psm_value::{Datum, ValueFault};
use std::alloc::{AllocError, Global};

/// A change of a row: the key that it had, and what is made of it.
#[derive(Drop)]
pub(crate) struct Change {
    pub key: Key,
    pub made: Row,
}

/// The changes of the rows that meet a test, in the order of their keys: row by row the test, then all new values, and
/// then these as the columns store them.
pub(crate) fn changes(
    alloc: Global,
    table: &Table,
    sets: &[SetItem],
    test: Option<&ExprCode>,
    vars: &[Datum],
) -> Result<List<Change>, ValueFault>
    requires test { TypeChecksTest (option_copied test) vars.now table.now.contents.def }
    requires sets { SetsTypeCheck sets.now vars.now table.now.contents.def }
    ensures changes { Gives (walked (test_of (over vars.now) (option_copied test.entry)) (changing table.now.contents.def.key (row_set vars.now table.now.contents.def sets.now)) table.now.contents.rows) result }
    ensures table { IsTable table.now.contents }
{
    let mut stack = Vec::new(alloc);
    let mut changes = Vec::new(alloc);
    let walk = walk_of(alloc, table, false, test, vars)?;
    let mut coming = Coming::of(table, &walk);
    for at in 0..table.len() {
        let Some(row) = coming.next() else {
            break;
        };
        let change = change_of(alloc, &mut stack, table, sets, test, row, vars)?;
        add_change(&mut changes, change)?;
    }
    Ok(List::of(changes))
}

// The change of a row, if the row meets the test.
fn change_of(
    alloc: Global,
    stack: &mut Vec<Operand>,
    table: &Table,
    sets: &[SetItem],
    test: Option<&ExprCode>,
    row: &Row,
    vars: &[Datum],
) -> Result<Option<Change>, ValueFault>
    requires row { IsRow table.now.contents.def row.now }
    requires runs { IfSome (option_copied test) (Runs row.now vars.now) }
    requires sets { All (Assigns table.now.contents.def row.now vars.now) sets.now }
    ensures { Gives (taken (test_of (over vars.now) (option_copied test.entry)) (changing table.now.contents.def.key (row_set vars.now table.now.contents.def sets.now)) row.now) result }
{
    if meets(alloc, stack, test, row.values(), vars)? {
        let made = set_row(alloc, stack, table.def(), sets, row, vars)?;
        let key = table.key_of(alloc, row)?;
        Ok(Some(Change { key, made }))
    } else {
        Ok(None)
    }
}

fn add_change(changes: &mut Vec<Change>, change: Option<Change>) -> Result<(), AllocError>
    ensures { OnOk result (changes.new.items ≡ with_option changes.old.items change) }
{
    if let Some(change) = change {
        changes.push(change)?;
    }
    Ok(())
}

/// What is made of the rows that meet a test, in the order of their keys: row by row the test, then all new values, and
/// then these as the columns store them.
pub(crate) fn made_rows(
    alloc: Global,
    table: &Table,
    sets: &[SetItem],
    test: Option<&ExprCode>,
    vars: &[Datum],
) -> Result<List<Row>, ValueFault>
    requires test { TypeChecksTest (option_copied test) vars.now table.now.contents.def }
    requires sets { SetsTypeCheck sets.now vars.now table.now.contents.def }
    ensures rows { Gives (walked (test_of (over vars.now) (option_copied test.entry)) (row_set vars.now table.now.contents.def sets.now) table.now.contents.rows) result }
    ensures table { IsTable table.now.contents }
{
    let mut stack = Vec::new(alloc);
    let mut rows = Vec::new(alloc);
    let walk = walk_of(alloc, table, false, test, vars)?;
    let mut coming = Coming::of(table, &walk);
    for at in 0..table.len() {
        let Some(row) = coming.next() else {
            break;
        };
        let made = made_of(alloc, &mut stack, table, sets, test, row, vars)?;
        add_row(&mut rows, made)?;
    }
    Ok(List::of(rows))
}

// What is made of a row, if the row meets the test.
fn made_of(
    alloc: Global,
    stack: &mut Vec<Operand>,
    table: &Table,
    sets: &[SetItem],
    test: Option<&ExprCode>,
    row: &Row,
    vars: &[Datum],
) -> Result<Option<Row>, ValueFault>
    requires row { IsRow table.now.contents.def row.now }
    requires runs { IfSome (option_copied test) (Runs row.now vars.now) }
    requires sets { All (Assigns table.now.contents.def row.now vars.now) sets.now }
    ensures { Gives (taken (test_of (over vars.now) (option_copied test.entry)) (row_set vars.now table.now.contents.def sets.now) row.now) result }
{
    if meets(alloc, stack, test, row.values(), vars)? {
        Ok(Some(set_row(alloc, stack, table.def(), sets, row, vars)?))
    } else {
        Ok(None)
    }
}

fn add_row(rows: &mut Vec<Row>, row: Option<Row>) -> Result<(), AllocError>
    ensures { OnOk result (rows.new.items ≡ with_option rows.old.items row) }
{
    if let Some(row) = row {
        rows.push(row)?;
    }
    Ok(())
}

/// Changes, keys and rows apart.
#[derive(Drop)]
pub(crate) struct Plan {
    pub keys: Vec<Key>,
    pub rows: Vec<Row>,
}

/// The keys of changes, and what is made of the rows that have them.
pub(crate) fn split(alloc: Global, changes: Vec<Change>) -> Result<Plan, AllocError>
    ensures keys { IfOk result (λ plan. plan.keys.items ≡ map (λ c. c.key) changes.items) }
    ensures rows { IfOk result (λ plan. plan.rows.items ≡ map (λ c. c.made) changes.items) }
{
    let mut keys = Vec::with_capacity(alloc, changes.len())?;
    let mut rows = Vec::with_capacity(alloc, changes.len())?;
    for change in changes {
        let Change { key, made } = change;
        keys.push(key)?;
        rows.push(made)?;
    }
    Ok(Plan { keys, rows })
}
