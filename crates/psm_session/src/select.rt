//! SELECT (ISO/IEC 9075:1992, 14.3 and 20.1).
ghost use Rattle.std.specs.Prelude.{◌≡◌, ◌<◌, ◌++◌, ℕ, [], true, List, IfOk, IfSome, codes, length, slice_get};
ghost use Rattle.psm_table.specs.Queries.{answer};
ghost use Rattle.psm_table.specs.Table.{Contents};
ghost use Rattle.psm_tablecode.specs.Codes.{over, query_of};
ghost use Rattle.psm_tablecode.specs.TypeChecks.{TypeChecksTable};
ghost use Rattle.psm_code.specs.declared.code.RawCode.{RawCode};
ghost use Rattle.psm_meaning.specs.Lines.{first_line};
ghost use Rattle.psm_session.specs.Pieces.{selected_lines};
ghost use Rattle.psm_session.specs.Steps.{Makes, standing};
ghost use Rattle.psm_session.specs.declared.command.ScriptCommand.TheVariants as commands;

use crate::piece::{piece_of, piece_of_answer};
use crate::selecting::piece_of_rows;
use psm_cond::DataFault;
use psm_exprcode::{Items, Query};
use psm_query::rows;
use psm_store::Store;
use std::alloc::{AllocError, Global};

/// Asks a query over the tables of a store, and gives the lines of its rows.
pub(crate) fn select<S: Store>(
    alloc: Global,
    number: u64,
    query: &Query,
    store: &S,
) -> Result<Vec<u8>, AllocError>
    requires exists { query.now.table < length (S.tables store.now) }
    requires type_checks { IfSome (slice_get (S.tables store.now) query.now.table) (λ c. TypeChecksTable query.now [] c.def) }
    ensures { IfOk result (λ piece. (code : RawCode) (turns : ℕ) (committed : List Contents) → Makes code number (standing (S.tables store.now) turns committed) (commands.Select query.now) true piece.items (standing (S.tables store.now) turns committed)) }
{
    piece_of_query(alloc, number, query, store)
}

fn piece_of_query<S: Store>(
    alloc: Global,
    number: u64,
    query: &Query,
    store: &S,
) -> Result<Vec<u8>, AllocError>
    requires exists { query.now.table < length (S.tables store.now) }
    requires type_checks { IfSome (slice_get (S.tables store.now) query.now.table) (λ c. TypeChecksTable query.now [] c.def) }
    ensures { IfOk result (λ piece. IfSome (slice_get (S.tables store.now) query.now.table) (λ c. piece.items ≡ first_line number (codes "SELECT") ++ selected_lines (answer (over []) (query_of query.now) c.rows))) }
{
    match &query.items {
        Items::Rows(_) => piece_of_rows(alloc, number, query, store.table(query.table), &[]),
        Items::Sets(_) => piece_of_sets(alloc, number, query, store),
    }
}

// The row of set functions is there after the last row of the table.
fn piece_of_sets<S: Store>(
    alloc: Global,
    number: u64,
    query: &Query,
    store: &S,
) -> Result<Vec<u8>, AllocError>
    requires exists { query.now.table < length (S.tables store.now) }
    requires type_checks { IfSome (slice_get (S.tables store.now) query.now.table) (λ c. TypeChecksTable query.now [] c.def) }
    ensures { IfOk result (λ piece. IfSome (slice_get (S.tables store.now) query.now.table) (λ c. piece.items ≡ first_line number (codes "SELECT") ++ selected_lines (answer (over []) (query_of query.now) c.rows))) }
{
    match rows(alloc, store, query, &[]) {
        Ok(answer) => piece_of_answer(alloc, number, &answer),
        Err(DataFault::Raised(condition)) => {
            piece_of(alloc, number, "SELECT", "", Some(condition.get()))
        }
        Err(DataFault::Memory) => Err(AllocError),
    }
}
