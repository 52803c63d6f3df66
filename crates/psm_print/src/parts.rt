//! Parts of statements: orders, conditions, rows and columns that are set, diagnostics.
ghost use Rattle.std.specs.Prelude.{◌≡◌, ◌++◌, IfOk};
ghost use Rattle.psm_print.specs.StatementTokens.{state_tokens, column_order_tokens, order_tokens, ordered_query_tokens, condition_tokens, signalled_tokens, where_tokens, values_tokens, rows_tokens, insert_source_tokens, assignment_tokens, assignments_tokens};

use crate::exprs::{expr, select, sources};
use crate::names::name;
use psm_list::OneOrMore;
use psm_spell::Writer;
use psm_token::{Sign, Word};
use psm_tree::{
    Assignment, Condition, InsertSource, Order, OrderColumn, OrderedQuery, Signalled, State,
    Values, Where,
};
use std::alloc::AllocError;

/// `SQLSTATE 'text'`.
pub(crate) fn state(out: &mut Writer, state: &State) -> Result<(), AllocError>
    ensures { IfOk result (λ _. out.new ≡ out.old ++ state_tokens state.now) }
{
    out.word(Word::SqlState)?;
    out.text(&state.text)
}

/// A column of ORDER BY.
fn column_order(out: &mut Writer, column: &OrderColumn) -> Result<(), AllocError>
    ensures { IfOk result (λ _. out.new ≡ out.old ++ column_order_tokens column.now) }
{
    name(out, &column.column)?;
    if column.descending {
        out.word(Word::Desc)?;
    }
    Ok(())
}

/// `ORDER BY` columns.
fn order(out: &mut Writer, order: &Order) -> Result<(), AllocError>
    ensures { IfOk result (λ _. out.new ≡ out.old ++ order_tokens order.now) }
{
    out.word(Word::Order)?;
    out.word(Word::By)?;
    column_order(out, &order.columns.first)?;
    for next in order.columns.rest.items() {
        out.sign(Sign::Comma)?;
        column_order(out, next)?;
    }
    Ok(())
}

/// A query with its ORDER BY.
pub(crate) fn ordered_query(out: &mut Writer, query: &OrderedQuery) -> Result<(), AllocError>
    ensures { IfOk result (λ _. out.new ≡ out.old ++ ordered_query_tokens query.now) }
{
    select(out, query.query.get())?;
    match &query.order {
        None => {}
        Some(columns) => order(out, columns)?,
    }
    Ok(())
}

/// The condition of SIGNAL and RESIGNAL.
fn condition(out: &mut Writer, condition: &Condition) -> Result<(), AllocError>
    ensures { IfOk result (λ _. out.new ≡ out.old ++ condition_tokens condition.now) }
{
    match condition {
        Condition::Name(declared) => name(out, declared),
        Condition::State(value) => state(out, value),
    }
}

/// A condition, with its message where one is set.
pub(crate) fn signalled(out: &mut Writer, signalled: &Signalled) -> Result<(), AllocError>
    ensures { IfOk result (λ _. out.new ≡ out.old ++ signalled_tokens signalled.now) }
{
    condition(out, &signalled.condition)?;
    match &signalled.message {
        None => {}
        Some(message) => {
            out.word(Word::Set)?;
            out.word(Word::MessageText)?;
            out.sign(Sign::Equal)?;
            expr(out, message.get())?;
        }
    }
    Ok(())
}

/// Which rows an UPDATE or a DELETE changes.
pub(crate) fn which_rows(out: &mut Writer, which: &Where) -> Result<(), AllocError>
    ensures { IfOk result (λ _. out.new ≡ out.old ++ where_tokens which.now) }
{
    out.word(Word::Where)?;
    match which {
        Where::Condition(condition) => expr(out, condition.get()),
        Where::Current { cursor } => {
            out.word(Word::Current)?;
            out.word(Word::Of)?;
            name(out, cursor)
        }
    }
}

/// A row of VALUES.
fn values(out: &mut Writer, values: &Values) -> Result<(), AllocError>
    ensures { IfOk result (λ _. out.new ≡ out.old ++ values_tokens values.now) }
{
    out.sign(Sign::LeftParen)?;
    sources(out, &values.values)?;
    out.sign(Sign::RightParen)
}

/// The rows of an INSERT.
pub(crate) fn insert_source(out: &mut Writer, source: &InsertSource) -> Result<(), AllocError>
    ensures { IfOk result (λ _. out.new ≡ out.old ++ insert_source_tokens source.now) }
{
    match source {
        InsertSource::Values { rows: lines } => {
            out.word(Word::Values)?;
            rows(out, lines)
        }
        InsertSource::Query(query) => select(out, query.get()),
    }
}

/// Rows of VALUES with a comma between two of them.
fn rows(out: &mut Writer, rows: &OneOrMore<Values>) -> Result<(), AllocError>
    ensures { IfOk result (λ _. out.new ≡ out.old ++ rows_tokens rows.now) }
{
    values(out, &rows.first)?;
    for next in rows.rest.items() {
        out.sign(Sign::Comma)?;
        values(out, next)?;
    }
    Ok(())
}

/// A column of UPDATE and its new value.
fn assignment(out: &mut Writer, assignment: &Assignment) -> Result<(), AllocError>
    ensures { IfOk result (λ _. out.new ≡ out.old ++ assignment_tokens assignment.now) }
{
    name(out, &assignment.column)?;
    out.sign(Sign::Equal)?;
    expr(out, assignment.source.get())
}

/// The columns that an UPDATE sets.
pub(crate) fn assignments(
    out: &mut Writer,
    assignments: &OneOrMore<Assignment>,
) -> Result<(), AllocError>
    ensures { IfOk result (λ _. out.new ≡ out.old ++ assignments_tokens assignments.now) }
{
    assignment(out, &assignments.first)?;
    for next in assignments.rest.items() {
        out.sign(Sign::Comma)?;
        assignment(out, next)?;
    }
    Ok(())
}
