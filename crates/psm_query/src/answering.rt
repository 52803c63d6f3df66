//! The answer of a query over a store.
ghost use Rattle.std.specs.Prelude.{◌<◌, length, slice_get, IfSome};
ghost use Rattle.psm_value.specs.Answer.{Gives};
ghost use Rattle.psm_table.specs.Queries.{answer};
ghost use Rattle.psm_tablecode.specs.Faults.{Answers};
ghost use Rattle.psm_tablecode.specs.Codes.{over, query_of};
ghost use Rattle.psm_tablecode.specs.TypeChecks.{TypeChecksTable};

use crate::answer::Answer;
use crate::gathering::Gathering;
use psm_cond::DataFault;
use psm_exprcode::Query;
use psm_store::Store;
use psm_table::Table;
use psm_tablecode::raised;
use psm_value::{Datum, ValueFault};
use std::alloc::Global;

/// The answer of a query over its table, or the condition that it raises: that of the first expression that raises
/// one in the order of the walk, and on each row the test before the items and these from the left, and after the
/// last row that of the first set function that is out of range (22003). Its condition is that of the SQLSTATE alone.
///
/// The table has to be there, and the query's codes have to fit its columns and the variables. `vars` are the values
/// of the variables. Memory may run out at any time (ISO/IEC 9075:1992, 7.9).
#[tactic(auto, using(psm_tablecode::proofs::Faults::answers_fault))]
pub fn rows<S: Store>(
    alloc: Global,
    store: &S,
    query: &Query,
    vars: &[Datum],
) -> Result<Answer, DataFault>
    requires exists { query.now.table < length (S.tables store.now) }
    requires type_checks { IfSome (slice_get (S.tables store.now) query.now.table) (λ c. TypeChecksTable query.now vars.now c.def) }
    ensures { IfSome (slice_get (S.tables store.now) query.now.table) (λ c. Answers (answer (over vars.now) (query_of query.now) c.rows) result) }
{
    match rows_of(alloc, store.table(query.table), query, vars) {
        Ok(answer) => Ok(answer),
        Err(fault) => Err(raised(alloc, &fault)),
    }
}

/// The same over a table.
fn rows_of(
    alloc: Global,
    table: &Table,
    query: &Query,
    vars: &[Datum],
) -> Result<Answer, ValueFault>
    requires { TypeChecksTable query.now vars.now table.now.contents.def }
    ensures { Gives (answer (over vars.now) (query_of query.now) table.now.contents.rows) result }
{
    match Gathering::of_rows(alloc, table, query, vars) {
        Ok(gathering) => gathering.finish(alloc, &query.items),
        Err(fault) => Err(fault),
    }
}
