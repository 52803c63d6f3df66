//! The code of what UPDATE and DELETE change.
ghost use Rattle.std.specs.Prelude.{◌≡◌, Some, true, IfOk};
ghost use Rattle.std.specs.List.{list_all};
ghost use Rattle.psm_exprgen.specs.Queries.{ExprIs, FitsAs, SetsAre, SetsMade, SourcesFit, TestMade, is_set};
ghost use Rattle.psm_exprgen.specs.Written.{letter_at};
ghost use Rattle.psm_codegen.specs.Simples.{Deletes, Updates};

use psm_code::Plan;
use psm_exprcode::{ExprCode, Letter, SetItem};
use psm_exprgen::{Known, row, test};
use psm_list::List;
use psm_resolved::{ResolvedExpr, ResolvedSet, ResolvedWhere};
use std::alloc::{AllocError, Global};

/// The plan of an UPDATE.
pub(crate) fn updates(
    alloc: Global,
    known: &Known,
    table: u32,
    sets: &List<ResolvedSet>,
    which: &ResolvedWhere,
) -> Result<Plan, AllocError>
    ensures { IfOk result (λ plan. Updates known.now table sets.now which.now plan) }
{
    let sets = sets_code(alloc, known, table, sets)?;
    match which {
        ResolvedWhere::All => Ok(Plan::Update {
            table,
            sets,
            test: None,
        }),
        ResolvedWhere::Test(e) => {
            let test = Some(test_code(alloc, known, table, e.get())?);
            Ok(Plan::Update { table, sets, test })
        }
        ResolvedWhere::Current { cursor } => Ok(Plan::UpdateAt {
            cursor: *cursor,
            sets,
        }),
    }
}

/// The plan of a DELETE.
pub(crate) fn deletes(
    alloc: Global,
    known: &Known,
    table: u32,
    which: &ResolvedWhere,
) -> Result<Plan, AllocError>
    ensures { IfOk result (λ plan. Deletes known.now table which.now plan) }
{
    match which {
        ResolvedWhere::All => Ok(Plan::Delete { table, test: None }),
        ResolvedWhere::Test(e) => {
            let test = Some(test_code(alloc, known, table, e.get())?);
            Ok(Plan::Delete { table, test })
        }
        ResolvedWhere::Current { cursor } => Ok(Plan::DeleteAt { cursor: *cursor }),
    }
}

/// The code of a test on the rows of a table.
pub(crate) fn test_code(
    alloc: Global,
    known: &Known,
    table: u32,
    e: &ResolvedExpr,
) -> Result<ExprCode, AllocError>
    ensures { IfOk result (λ code. TestMade known.now table (Some e.now) (Some code)) }
{
    test(alloc, e, known.columns_at(table), known.variables.items())
}

/// The code of the columns of a table that are set.
pub(crate) fn sets_code(
    alloc: Global,
    known: &Known,
    table: u32,
    sets: &List<ResolvedSet>,
) -> Result<List<SetItem>, AllocError>
    ensures { IfOk result (λ codes. SetsMade known.now table sets.now codes) }
{
    sets_of(
        alloc,
        sets,
        known.columns_at(table),
        known.variables.items(),
    )
}

fn sets_of(
    alloc: Global,
    sets: &List<ResolvedSet>,
    columns: &[Letter],
    variables: &[Letter],
) -> Result<List<SetItem>, AllocError>
    ensures fits { IfOk result (λ codes. SourcesFit columns.now variables.now sets.now codes) }
    ensures value { IfOk result (λ codes. list_all (is_set columns.now variables.now) sets.now ≡ true → SetsAre sets.now codes) }
{
    let mut codes = Vec::new(alloc);
    for set in sets.items() {
        codes.push(set_of(alloc, set, columns, variables)?)?;
    }
    Ok(List::of(codes))
}

fn set_of(
    alloc: Global,
    set: &ResolvedSet,
    columns: &[Letter],
    variables: &[Letter],
) -> Result<SetItem, AllocError>
    ensures column { IfOk result (λ code. code.column ≡ set.now.column) }
    ensures fits { IfOk result (λ code. FitsAs columns.now variables.now (letter_at columns.now set.now.column) code.source) }
    ensures source { IfOk result (λ code. is_set columns.now variables.now set.now ≡ true → ExprIs set.now.source code.source) }
{
    let letter = letter_of_column(columns, set.column);
    let source = row(alloc, set.source.get(), columns, variables, letter)?;
    Ok(SetItem {
        column: set.column,
        source,
    })
}

fn letter_of_column(columns: &[Letter], column: u32) -> Letter
    ensures { result ≡ letter_at columns.now column }
{
    match columns.get(column as usize) {
        Some(letter) => *letter,
        None => Letter::N,
    }
}
