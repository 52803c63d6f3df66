//! The rows of values that the plans of a routine take.
ghost use Rattle.std.specs.Prelude.{◌≡◌, map, option_map, reverse, slice_get, IfOk};
ghost use Rattle.psm_code.specs.Instructions as instructions;
ghost use Rattle.psm_verify.specs.VerifyContext.{row_with};

use psm_code::Plan;
use psm_exprcode::Letter;
use psm_list::List;
use std::alloc::{AllocError, Global};

/// The letters of one row of each plan that inserts rows of values, the last one first, where its columns are there.
pub(crate) fn rows_of_plans(
    alloc: Global,
    columns: &[List<Letter>],
    plans: &[Plan],
) -> Result<Vec<Option<List<Letter>>>, AllocError>
    ensures { IfOk result (λ rows. rows.items ≡ map (row_with columns.now) plans.now) }
{
    let mut rows = Vec::new(alloc);
    for plan in plans {
        rows.push(row_of_plan(alloc, columns, plan)?)?;
    }
    Ok(rows)
}

fn row_of_plan(
    alloc: Global,
    columns: &[List<Letter>],
    plan: &Plan,
) -> Result<Option<List<Letter>>, AllocError>
    ensures { IfOk result (λ row. row ≡ row_with columns.now plan.now) }
{
    match plan {
        Plan::Insert {
            table,
            columns: indexes,
            ..
        } => match columns.get(*table as usize) {
            Some(letters) => row_letters(alloc, letters.items(), indexes.items()),
            None => Ok(None),
        },
        _ => Ok(None),
    }
}

fn letter_at(letters: &[Letter], column: u32) -> Option<Letter>
    ensures { result ≡ slice_get letters.now column }
{
    match letters.get(column as usize) {
        Some(letter) => Some(*letter),
        None => None,
    }
}

// Those of some columns, if they are all there.
#[tactic(auto, using(crate::proofs::Rows::prepend_next, crate::proofs::Rows::prepend_nil))]
fn row_letters(
    alloc: Global,
    letters: &[Letter],
    columns: &[u32],
) -> Result<Option<List<Letter>>, AllocError>
    ensures { IfOk result (λ row. row ≡ option_map reverse (instructions.letters_at letters.now columns.now)) }
{
    let mut row = Vec::new(alloc);
    let mut rest = columns;
    while let Some((column, others)) = rest.split_first() {
        match letter_at(letters, *column) {
            Some(letter) => row.push(letter)?,
            None => return Ok(None),
        }
        rest = others;
    }
    row.reverse();
    Ok(Some(List::of(row)))
}
