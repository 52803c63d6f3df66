//! The lines of a statement that has no statements (ISO/IEC 9075-4:1996; ISO/IEC 9075:1992, clause 13).
ghost use Rattle.std.specs.Prelude.{◌≡◌, None, Some, map, IfOk};
ghost use Rattle.psm_resolved.specs.declared.statement.ResolvedSimple.TheVariants as simples;
ghost use Rattle.psm_resolved.specs.declared.statement.ResolvedRows.TheVariants as given;
ghost use Rattle.psm_codegen.specs.Labels.{DraftedParts, patched_block};
ghost use Rattle.psm_codegen.specs.Simples.{WritesAnywhere, WritesSimple, letters_of_columns, number_op};

use crate::calling::{call_arguments, rows, signals};
use crate::changes::{deletes, updates};
use crate::diagnostics::{condition_items, statement_items};
use crate::enclosing::EnclosingBlock;
use crate::leaving::{iterates, leaves};
use crate::parts::{FunctionBuilder, numbered};
use crate::storing::{gives, retrieves};
use psm_code::{Instruction, Plan};
use psm_exprcode::{Letter, Op};
use psm_exprgen::{
    EmitContext, Known, expr, item_letters, letter_at, letters_at, number_at, query_code,
};
use psm_list::{Boxed, List};
use psm_resolved::{
    ResolvedArgument, ResolvedDiagnostics, ResolvedExpr, ResolvedNumber, ResolvedQuery,
    ResolvedRows, ResolvedSet, ResolvedSignal, ResolvedSimple, ResolvedWhere,
};
use psm_value::Datum;
use std::alloc::{AllocError, Global};

/// Writes a statement that has no statements. The enclosing blocks are given with the innermost one first.
pub(crate) fn simple(
    parts: &mut FunctionBuilder,
    emit_context: EmitContext<'_>,
    enclosing: &[EnclosingBlock],
    statement: &ResolvedSimple,
) -> Result<(), AllocError>
    ensures { IfOk result (λ _. DraftedParts (λ σ. WritesSimple emit_context.entry.known.now emit_context.entry.context (σ emit_context.entry.resume) (map (patched_block σ) enclosing.now) statement.now) parts.old parts.new) }
{
    match statement {
        ResolvedSimple::Set { slot, source } => set(parts, emit_context, *slot, source.get()),
        ResolvedSimple::Call {
            procedure,
            arguments,
        } => call(parts, emit_context, *procedure, arguments),
        ResolvedSimple::Return(e) => returned(parts, emit_context, e.get()),
        ResolvedSimple::Leave { level } => {
            leaves(&mut parts.code, emit_context.context, enclosing, *level)
        }
        ResolvedSimple::Iterate { level } => {
            iterates(&mut parts.code, emit_context.context, enclosing, *level)
        }
        ResolvedSimple::Signal(s) => signal(parts, emit_context, s.get()),
        ResolvedSimple::Resignal(s) => resignal(parts, emit_context, s),
        ResolvedSimple::GetDiagnostics(d) => diagnostics(parts, emit_context, d.get()),
        ResolvedSimple::SelectInto { query, slots } => {
            select_into(parts, emit_context, query.get(), slots)
        }
        ResolvedSimple::Insert {
            table,
            columns,
            rows,
        } => insert(parts, emit_context, *table, columns, rows.get()),
        ResolvedSimple::Update { table, sets, which } => {
            update(parts, emit_context, *table, sets, which)
        }
        ResolvedSimple::Delete { table, which } => delete(parts, emit_context, *table, which),
        ResolvedSimple::Open { cursor } => opened(parts, emit_context, *cursor),
        ResolvedSimple::Fetch { cursor, slots } => fetch(parts, emit_context, *cursor, slots),
        ResolvedSimple::Close { cursor } => closed(parts, emit_context, *cursor),
    }
}

/// Writes SET.
fn set(
    parts: &mut FunctionBuilder,
    emit_context: EmitContext<'_>,
    slot: u32,
    source: &ResolvedExpr,
) -> Result<(), AllocError>
    ensures { IfOk result (λ _. DraftedParts (λ σ. WritesAnywhere emit_context.entry.known.now emit_context.entry.context (σ emit_context.entry.resume) (simples.Set slot source.now)) parts.old parts.new) }
{
    let letter = letter_at(emit_context.known.variables.items(), slot as usize);
    parts.code.plain(emit_context.context, Instruction::Clear)?;
    expr(&mut parts.code, emit_context, source, letter)?;
    parts.code.takes(emit_context, Instruction::Store(slot), 1)
}

/// Writes CALL.
fn call(
    parts: &mut FunctionBuilder,
    emit_context: EmitContext<'_>,
    procedure: u32,
    arguments: &List<ResolvedArgument>,
) -> Result<(), AllocError>
    ensures { IfOk result (λ _. DraftedParts (λ σ. WritesAnywhere emit_context.entry.known.now emit_context.entry.context (σ emit_context.entry.resume) (simples.Call procedure arguments.now)) parts.old parts.new) }
{
    let number = number_at(emit_context.known.procedures.items(), procedure);
    let taken = letters_at(emit_context.known.takes.items(), number);
    let given = letters_at(emit_context.known.gives.items(), number);
    let before = parts.code.height();
    parts.code.plain(emit_context.context, Instruction::Clear)?;
    call_arguments(&mut parts.code, emit_context, taken, arguments)?;
    let count = parts.code.height().saturating_sub(before);
    parts
        .code
        .puts(emit_context, Instruction::Call(number), count, given)?;
    gives(&mut parts.code, emit_context, arguments)
}

/// Writes RETURN.
fn returned(
    parts: &mut FunctionBuilder,
    emit_context: EmitContext<'_>,
    e: &ResolvedExpr,
) -> Result<(), AllocError>
    ensures { IfOk result (λ _. DraftedParts (λ σ. WritesAnywhere emit_context.entry.known.now emit_context.entry.context (σ emit_context.entry.resume) (simples.Return e.now)) parts.old parts.new) }
{
    expr(&mut parts.code, emit_context, e, emit_context.known.result)?;
    parts.code.takes(emit_context, Instruction::ReturnValue, 1)
}

/// Writes SIGNAL.
fn signal(
    parts: &mut FunctionBuilder,
    emit_context: EmitContext<'_>,
    s: &ResolvedSignal,
) -> Result<(), AllocError>
    ensures { IfOk result (λ _. DraftedParts (λ σ. WritesAnywhere emit_context.entry.known.now emit_context.entry.context (σ emit_context.entry.resume) (simples.Signal s.now)) parts.old parts.new) }
{
    let number = parts.condition(&s.condition)?;
    parts.code.plain(emit_context.context, Instruction::Clear)?;
    signals(
        &mut parts.code,
        emit_context,
        Instruction::Signal(number),
        Instruction::SignalMessage(number),
        &s.message,
    )
}

/// Writes RESIGNAL.
fn resignal(
    parts: &mut FunctionBuilder,
    emit_context: EmitContext<'_>,
    s: &Option<Boxed<ResolvedSignal>>,
) -> Result<(), AllocError>
    ensures { IfOk result (λ _. DraftedParts (λ σ. WritesAnywhere emit_context.entry.known.now emit_context.entry.context (σ emit_context.entry.resume) (simples.Resignal s.now)) parts.old parts.new) }
{
    match s {
        None => {
            parts.code.plain(emit_context.context, Instruction::Clear)?;
            parts.code.takes(emit_context, Instruction::Resignal, 0)
        }
        Some(s) => resignal_condition(parts, emit_context, s.get()),
    }
}

/// Writes RESIGNAL with a condition.
fn resignal_condition(
    parts: &mut FunctionBuilder,
    emit_context: EmitContext<'_>,
    s: &ResolvedSignal,
) -> Result<(), AllocError>
    ensures { IfOk result (λ _. DraftedParts (λ σ. WritesAnywhere emit_context.entry.known.now emit_context.entry.context (σ emit_context.entry.resume) (simples.Resignal (Some s.now))) parts.old parts.new) }
{
    let number = parts.condition(&s.condition)?;
    parts.code.plain(emit_context.context, Instruction::Clear)?;
    signals(
        &mut parts.code,
        emit_context,
        Instruction::ResignalCondition(number),
        Instruction::ResignalMessage(number),
        &s.message,
    )
}

/// Writes GET DIAGNOSTICS.
fn diagnostics(
    parts: &mut FunctionBuilder,
    emit_context: EmitContext<'_>,
    d: &ResolvedDiagnostics,
) -> Result<(), AllocError>
    ensures { IfOk result (λ _. DraftedParts (λ σ. WritesAnywhere emit_context.entry.known.now emit_context.entry.context (σ emit_context.entry.resume) (simples.GetDiagnostics d.now)) parts.old parts.new) }
{
    match d {
        ResolvedDiagnostics::Statement { area, items } => {
            statement_items(&mut parts.code, emit_context, *area, items)
        }
        ResolvedDiagnostics::Condition {
            area,
            number,
            items,
        } => {
            parts
                .code
                .applied(emit_context, number_op(number), 0, Letter::N)?;
            condition_items(&mut parts.code, emit_context, *area, items)
        }
    }
}

/// The operation that puts the number of a condition.
fn number_op(number: &ResolvedNumber) -> Op
    ensures { result ≡ number_op number.now }
{
    match number {
        ResolvedNumber::Constant(number) => Op::Constant(Letter::N, Datum::Num(*number)),
        ResolvedNumber::Variable(slot) => Op::Variable(*slot),
    }
}

/// Writes SELECT INTO.
fn select_into(
    parts: &mut FunctionBuilder,
    emit_context: EmitContext<'_>,
    query: &ResolvedQuery,
    slots: &List<u32>,
) -> Result<(), AllocError>
    ensures { IfOk result (λ _. DraftedParts (λ σ. WritesAnywhere emit_context.entry.known.now emit_context.entry.context (σ emit_context.entry.resume) (simples.SelectInto query.now slots.now)) parts.old parts.new) }
{
    let code = query_code(emit_context.alloc, emit_context.known, query)?;
    let letters = item_letters(emit_context.alloc, emit_context.known, query)?;
    let number = parts.code.query_count()?;
    parts.code.plain(emit_context.context, Instruction::Clear)?;
    parts.code.with_query(code)?;
    parts.code.puts(
        emit_context,
        Instruction::Row(number),
        0,
        letters.as_slice(),
    )?;
    retrieves(&mut parts.code, emit_context, slots)
}

/// Writes INSERT.
fn insert(
    parts: &mut FunctionBuilder,
    emit_context: EmitContext<'_>,
    table: u32,
    columns: &List<u32>,
    list: &ResolvedRows,
) -> Result<(), AllocError>
    ensures { IfOk result (λ _. DraftedParts (λ σ. WritesAnywhere emit_context.entry.known.now emit_context.entry.context (σ emit_context.entry.resume) (simples.Insert table columns.now list.now)) parts.old parts.new) }
{
    match list {
        ResolvedRows::Values(list) => insert_rows(parts, emit_context, table, columns, list),
        ResolvedRows::Query(query) => insert_query(
            parts,
            emit_context,
            table,
            columns,
            query.get(),
        ),
    }
}

/// Writes INSERT with VALUES.
fn insert_rows(
    parts: &mut FunctionBuilder,
    emit_context: EmitContext<'_>,
    table: u32,
    columns: &List<u32>,
    list: &List<List<Boxed<ResolvedExpr>>>,
) -> Result<(), AllocError>
    ensures { IfOk result (λ _. DraftedParts (λ σ. WritesAnywhere emit_context.entry.known.now emit_context.entry.context (σ emit_context.entry.resume) (simples.Insert table columns.now (given.Values list.now))) parts.old parts.new) }
{
    let letters = letters_of_columns(emit_context.alloc, emit_context.known, table, columns)?;
    let plan = Plan::Insert {
        table,
        columns: copied(emit_context.alloc, columns)?,
        rows: numbered(list.items().len())?,
    };
    let before = parts.code.height();
    parts.code.plain(emit_context.context, Instruction::Clear)?;
    rows(&mut parts.code, emit_context, letters.as_slice(), list)?;
    let count = parts.code.height().saturating_sub(before);
    parts.changed(emit_context, plan, count)
}

/// Writes INSERT with a query.
fn insert_query(
    parts: &mut FunctionBuilder,
    emit_context: EmitContext<'_>,
    table: u32,
    columns: &List<u32>,
    query: &ResolvedQuery,
) -> Result<(), AllocError>
    ensures { IfOk result (λ _. DraftedParts (λ σ. WritesAnywhere emit_context.entry.known.now emit_context.entry.context (σ emit_context.entry.resume) (simples.Insert table columns.now (given.Query query.now))) parts.old parts.new) }
{
    let code = query_code(emit_context.alloc, emit_context.known, query)?;
    let plan = Plan::InsertQuery {
        table,
        columns: copied(emit_context.alloc, columns)?,
        query: parts.code.query_count()?,
    };
    parts.code.plain(emit_context.context, Instruction::Clear)?;
    parts.code.with_query(code)?;
    parts.changed(emit_context, plan, 0)
}

/// The letters of columns of a table.
fn letters_of_columns(
    alloc: Global,
    known: &Known,
    table: u32,
    columns: &List<u32>,
) -> Result<Vec<Letter>, AllocError>
    ensures { IfOk result (λ letters. letters.items ≡ letters_of_columns known.now table columns.now) }
{
    let all = letters_at(known.columns.items(), table);
    let mut letters = Vec::new(alloc);
    for column in columns.items() {
        letters.push(letter_at(all, *column as usize))?;
    }
    Ok(letters)
}

fn copied(alloc: Global, numbers: &List<u32>) -> Result<List<u32>, AllocError>
    ensures { IfOk result (λ copy. copy ≡ numbers.now) }
{
    let mut copy = Vec::new(alloc);
    for number in numbers.items() {
        copy.push(*number)?;
    }
    Ok(List::of(copy))
}

/// Writes UPDATE.
fn update(
    parts: &mut FunctionBuilder,
    emit_context: EmitContext<'_>,
    table: u32,
    sets: &List<ResolvedSet>,
    which: &ResolvedWhere,
) -> Result<(), AllocError>
    ensures { IfOk result (λ _. DraftedParts (λ σ. WritesAnywhere emit_context.entry.known.now emit_context.entry.context (σ emit_context.entry.resume) (simples.Update table sets.now which.now)) parts.old parts.new) }
{
    let plan = updates(emit_context.alloc, emit_context.known, table, sets, which)?;
    parts.plain(emit_context.context, Instruction::Clear)?;
    parts.changed(emit_context, plan, 0)
}

/// Writes DELETE.
fn delete(
    parts: &mut FunctionBuilder,
    emit_context: EmitContext<'_>,
    table: u32,
    which: &ResolvedWhere,
) -> Result<(), AllocError>
    ensures { IfOk result (λ _. DraftedParts (λ σ. WritesAnywhere emit_context.entry.known.now emit_context.entry.context (σ emit_context.entry.resume) (simples.Delete table which.now)) parts.old parts.new) }
{
    let plan = deletes(emit_context.alloc, emit_context.known, table, which)?;
    parts.plain(emit_context.context, Instruction::Clear)?;
    parts.changed(emit_context, plan, 0)
}

/// Writes OPEN.
fn opened(
    parts: &mut FunctionBuilder,
    emit_context: EmitContext<'_>,
    cursor: u32,
) -> Result<(), AllocError>
    ensures { IfOk result (λ _. DraftedParts (λ σ. WritesAnywhere emit_context.entry.known.now emit_context.entry.context (σ emit_context.entry.resume) (simples.Open cursor)) parts.old parts.new) }
{
    parts.code.plain(emit_context.context, Instruction::Clear)?;
    parts.code.takes(emit_context, Instruction::Open(cursor), 0)
}

/// Writes FETCH.
fn fetch(
    parts: &mut FunctionBuilder,
    emit_context: EmitContext<'_>,
    cursor: u32,
    slots: &List<u32>,
) -> Result<(), AllocError>
    ensures { IfOk result (λ _. DraftedParts (λ σ. WritesAnywhere emit_context.entry.known.now emit_context.entry.context (σ emit_context.entry.resume) (simples.Fetch cursor slots.now)) parts.old parts.new) }
{
    parts.plain(emit_context.context, Instruction::Clear)?;
    parts.puts_row(emit_context, Instruction::Fetch(cursor), cursor)?;
    retrieves(&mut parts.code, emit_context, slots)
}

/// Writes CLOSE.
fn closed(
    parts: &mut FunctionBuilder,
    emit_context: EmitContext<'_>,
    cursor: u32,
) -> Result<(), AllocError>
    ensures { IfOk result (λ _. DraftedParts (λ σ. WritesAnywhere emit_context.entry.known.now emit_context.entry.context (σ emit_context.entry.resume) (simples.Close cursor)) parts.old parts.new) }
{
    parts.code.plain(emit_context.context, Instruction::Clear)?;
    parts
        .code
        .takes(emit_context, Instruction::Close(cursor), 0)
}
