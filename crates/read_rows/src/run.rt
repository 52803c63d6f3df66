//! What begins at a token of a list.
ghost use Rattle.std.specs.Prelude.{◌≤◌, length};

use crate::fault::Fault;
use crate::form;
use crate::row::{Part, Row};
use psm_parse_expr::{parse_expr, parse_picks, parse_target, parse_type};
use psm_parse_stmt::parse_stmt;
use psm_token::TokenList;
use std::alloc::Global;

const MOST_LEVELS: u32 = 100;

/// What the part is that a row asks for, and the number of the token after it.
pub fn run(alloc: Global, list: &TokenList, part: Part, row: Row<'_>) -> Result<String, Fault> {
    let at = row.at as usize;
    if at > list.items().len() || row.depth > MOST_LEVELS {
        return Err(Fault::Row);
    }
    match part {
        Part::Expression => {
            let (expr, following) = parse_expr(alloc, list, at, row.depth)?;
            reported(alloc, form::expression(expr.get()), following)
        }
        Part::Picks => {
            let (picks, following) = parse_picks(alloc, list, at, row.depth)?;
            reported(alloc, form::picks(&picks), following)
        }
        Part::Target => {
            let (target, following) = parse_target(alloc, list, at, row.depth)?;
            reported(alloc, form::name(&target), following)
        }
        Part::DataType => data_type(alloc, list, at, row.depth),
        Part::Statement => {
            let (statement, following) = parse_stmt(alloc, list, at, row.depth)?;
            reported(alloc, form::statement(statement.get()), following)
        }
    }
}

// A data type, whose fault is handed on by a match: the prover of the kit of today has no rule for `?` on it.
fn data_type(alloc: Global, list: &TokenList, at: usize, depth: u32) -> Result<String, Fault>
    requires within { at ≤ length list.now.tokens }
    requires shallow { depth ≤ 100 }
{
    match parse_type(alloc, list, at, depth) {
        Ok((kind, following)) => reported(alloc, form::data_type(&kind), following),
        Err(fault) => Err(fault.into()),
    }
}

fn reported(alloc: Global, form: &str, following: usize) -> Result<String, Fault> {
    Ok(format!(in alloc; "ok {form} to {following}")?)
}
