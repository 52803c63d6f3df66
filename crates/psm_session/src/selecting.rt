//! The rows that a query without set functions selects (ISO/IEC 9075:1992, 7.9), written one by one.
ghost use Rattle.std.specs.Prelude.{◌≡◌, ◌++◌, [], IfOk, OnOk, codes, length};
ghost use Rattle.psm_table.specs.Evaluator.{mapped, test_of};
ghost use Rattle.psm_table.specs.Queries.{in_walk, walked};
ghost use Rattle.psm_tablecode.specs.Codes.{over};
ghost use Rattle.psm_tablecode.specs.Rows.{values_for};
ghost use Rattle.psm_tablecode.specs.TypeChecks.{TypeChecksTable};
ghost use Rattle.psm_meaning.specs.Lines.{first_line, row_lines};
ghost use Rattle.psm_session.specs.Pieces.{selected_lines};
ghost use Rattle.psm_session.specs.Selected.{end_of_selected, found_rows, taken_line, Shows, Writes};

use crate::lines::{put_first_line, put_ok, put_row};
use crate::piece::{piece_of, put_state};
use psm_cond::DataFault;
use psm_exprcode::Query;
use psm_sqlstate::SqlState;
use psm_store::{Row, Table};
use psm_tablecode::{Coming, raised, taken, walk_of};
use psm_value::{Datum, ValueFault};
use std::alloc::{AllocError, Global};

/// The piece of a query without set functions: a line for each row that it selects, or the condition that it raises.
pub(crate) fn piece_of_rows(
    alloc: Global,
    number: u64,
    query: &Query,
    table: &Table,
    vars: &[Datum],
) -> Result<Vec<u8>, AllocError>
    requires { TypeChecksTable query.now vars.now table.now.contents.def }
    ensures { IfOk result (λ piece. piece.items ≡ first_line number (codes "SELECT") ++ selected_lines (found_rows vars.now query.now table.now.contents.rows)) }
{
    let mut out = Vec::new(alloc);
    put_first_line(&mut out, number, "SELECT", "")?;
    let first = out.len();
    match put_selected(alloc, &mut out, query, table, vars) {
        Ok(()) => {
            put_end(alloc, &mut out, first)?;
            Ok(out)
        }
        Err(fault) => piece_of_fault(alloc, number, &fault),
    }
}

// The piece of a query that raises a condition. No row stands before it.
fn piece_of_fault(alloc: Global, number: u64, fault: &ValueFault) -> Result<Vec<u8>, AllocError>
    ensures { IfOk result (λ piece. Shows (first_line number (codes "SELECT")) fault.now piece.items) }
{
    match raised(alloc, fault) {
        DataFault::Raised(condition) => {
            piece_of(alloc, number, "SELECT", "", Some(condition.get()))
        }
        DataFault::Memory => Err(AllocError),
    }
}

// The last line, where rows stand after the first `first` bytes or none does.
fn put_end(alloc: Global, out: &mut Vec<u8>, first: usize) -> Result<(), AllocError>
    ensures { OnOk result (out.new.items ≡ out.old.items ++ end_of_selected first (length out.old.items)) }
{
    if out.len() == first {
        put_state(alloc, out, SqlState::NO_DATA)
    } else {
        put_ok(out)
    }
}

/// A line for each row that the query selects, in the order of the walk. No more than one row is kept at a time.
pub(crate) fn put_selected(
    alloc: Global,
    out: &mut Vec<u8>,
    query: &Query,
    table: &Table,
    vars: &[Datum],
) -> Result<(), ValueFault>
    requires { TypeChecksTable query.now vars.now table.now.contents.def }
    ensures { Writes (mapped (λ rows. out.old.items ++ row_lines rows) (walked (test_of (over vars.now) query.now.test) (values_for vars.now query.now.items) (in_walk query.now.downward table.now.contents.rows))) out.new.items result }
{
    let mut stack = Vec::new(alloc);
    let walk = walk_of(alloc, table, query.downward, query.test.as_ref(), vars)?;
    let mut coming = Coming::of(table, &walk);
    for at in 0..table.len() {
        let Some(row) = coming.next() else {
            break;
        };
        let values = taken(alloc, &mut stack, query, row, vars)?;
        put_taken(out, values)?;
    }
    Ok(())
}

// The line of a row, if it is taken.
fn put_taken(out: &mut Vec<u8>, taken: Option<Row>) -> Result<(), AllocError>
    ensures { OnOk result (out.new.items ≡ out.old.items ++ taken_line taken) }
{
    match taken {
        None => Ok(()),
        Some(row) => put_row(out, &row),
    }
}
