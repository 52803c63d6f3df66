//! The code of queries.
ghost use Rattle.std.specs.Prelude.{◌≡◌, true, IfOk};
ghost use Rattle.std.specs.List.{list_all};
ghost use Rattle.psm_resolved.specs.declared.expr.ResolvedItem.{out-ResolvedItem};
ghost use Rattle.psm_resolved.specs.declared.expr.ResolvedItems.{out-ResolvedItems};
ghost use Rattle.psm_exprgen.specs.Queries.{AggregatesAre, AggregatesFit, ItemsAre, ItemsFit, OperandFits, PerhapsIs, QueryMade, are_items, is_value_perhaps};

use crate::known::Known;
use crate::rows::{test_perhaps, value_perhaps, values};
use psm_exprcode::{Aggregate, Items, Letter, Query};
use psm_list::List;
use psm_resolved::{ResolvedItem, ResolvedItems, ResolvedQuery};
use std::alloc::{AllocError, Global};

/// The code of a query (ISO/IEC 9075:1992, clause 7): over the columns of its table and the variables that are known, letters N, T or B
/// each. It fits them whatever the query's expressions are, and does what the query does where these are of letters. Nothing else of
/// what is known is looked at. Out of memory is the one error.
pub fn query_code(alloc: Global, known: &Known, query: &ResolvedQuery) -> Result<Query, AllocError>
    ensures { IfOk result (λ code. QueryMade known.now query.now code) }
{
    let columns = known.columns_at(query.table);
    let variables = known.variables.items();
    let items = items_code(alloc, &query.items, columns, variables)?;
    let test = test_perhaps(alloc, &query.test, columns, variables)?;
    Ok(Query {
        table: query.table,
        downward: query.downward,
        items,
        test,
    })
}

fn items_code(
    alloc: Global,
    items: &ResolvedItems,
    columns: &[Letter],
    variables: &[Letter],
) -> Result<Items, AllocError>
    ensures fits { IfOk result (λ code. ItemsFit columns.now variables.now (out-ResolvedItems items.now) code) }
    ensures value { IfOk result (λ code. are_items columns.now variables.now (out-ResolvedItems items.now) ≡ true → ItemsAre (out-ResolvedItems items.now) code) }
{
    match items {
        ResolvedItems::Rows(es) => Ok(Items::Rows(values(alloc, es, columns, variables)?)),
        ResolvedItems::Sets(items) => Ok(Items::Sets(aggregates(
            alloc, items, columns, variables,
        )?)),
    }
}

fn aggregates(
    alloc: Global,
    items: &List<ResolvedItem>,
    columns: &[Letter],
    variables: &[Letter],
) -> Result<List<Aggregate>, AllocError>
    ensures fits { IfOk result (λ codes. AggregatesFit columns.now variables.now items.now codes) }
    ensures value { IfOk result (λ codes. list_all (λ i. is_value_perhaps columns.now variables.now (out-ResolvedItem i).operand) items.now ≡ true → AggregatesAre items.now codes) }
{
    let mut codes = Vec::new(alloc);
    for item in items.items() {
        codes.push(aggregate(alloc, item, columns, variables)?)?;
    }
    Ok(List::of(codes))
}

fn aggregate(
    alloc: Global,
    item: &ResolvedItem,
    columns: &[Letter],
    variables: &[Letter],
) -> Result<Aggregate, AllocError>
    ensures function { IfOk result (λ code. code.function ≡ (out-ResolvedItem item.now).function) }
    ensures fits { IfOk result (λ code. OperandFits columns.now variables.now (out-ResolvedItem item.now).operand code.operand) }
    ensures operand { IfOk result (λ code. is_value_perhaps columns.now variables.now (out-ResolvedItem item.now).operand ≡ true → PerhapsIs (out-ResolvedItem item.now).operand code.operand) }
{
    Ok(Aggregate {
        function: item.function,
        operand: value_perhaps(alloc, &item.operand, columns, variables)?,
    })
}
