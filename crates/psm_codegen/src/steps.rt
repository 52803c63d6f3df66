//! Steps of statements that have statements, which write no statement.
ghost use Rattle.std.specs.Prelude.{◌≡◌, ◌∷◌, [], map, suc, IfOk};
ghost use Rattle.psm_code.specs.declared.instruction.Instruction.TheVariants as instruction;
ghost use Rattle.psm_exprgen.specs.Exprs.{Writes};
ghost use Rattle.psm_exprgen.specs.Labels.{Drafted};
ghost use Rattle.psm_exprgen.specs.Written.{applied, taken, takes};
ghost use Rattle.psm_codegen.specs.FunctionBuilder.{FunctionBuilder as Whole, at, block_entered, next_context, with_code};
ghost use Rattle.psm_codegen.specs.Labels.{DraftedParts};
ghost use Rattle.psm_codegen.specs.Simples.{Declares};
ghost use Rattle.psm_codegen.specs.Statements.{WritesCursors, fetched, jumped, passed};

use crate::calling::declares;
use crate::enclosing::EnclosingBlock;
use crate::parts::FunctionBuilder;
use crate::storing::stores;
use psm_code::Instruction;
use psm_exprcode::{Letter, Op};
use psm_exprgen::{EmitContext, expr, item_letters, query_code};
use psm_list::{Boxed, List};
use psm_resolved::{
    ResolvedCursor, ResolvedDeclaration, ResolvedExpr, ResolvedFor, ResolvedHandler,
};
use std::alloc::{AllocError, Global};

/// What is around a statement inside another. Out of memory is the one refusal.
pub(crate) fn inside(
    alloc: Global,
    other: EnclosingBlock,
    enclosing: &[EnclosingBlock],
) -> Result<Vec<EnclosingBlock>, AllocError>
    ensures { IfOk result (λ all. all.items ≡ other ∷ enclosing.now) }
{
    let mut all = Vec::new(alloc);
    all.push(other)?;
    for more in enclosing {
        all.push(*more)?;
    }
    Ok(all)
}

/// Writes an expression.
pub(crate) fn evaluated(
    parts: &mut FunctionBuilder,
    emit_context: EmitContext<'_>,
    e: &ResolvedExpr,
    letter: Letter,
) -> Result<(), AllocError>
    ensures written { IfOk result (λ _. Drafted (λ σ. Writes emit_context.entry.known.now emit_context.entry.context (σ emit_context.entry.resume) letter e.now) parts.old.code parts.new.code) }
    ensures alone { IfOk result (λ _. parts.new ≡ with_code parts.new.code parts.old) }
{
    expr(&mut parts.code, emit_context, e, letter)
}

/// Writes declarations.
pub(crate) fn declared(
    parts: &mut FunctionBuilder,
    emit_context: EmitContext<'_>,
    list: &List<Boxed<ResolvedDeclaration>>,
) -> Result<(), AllocError>
    ensures written { IfOk result (λ _. Drafted (λ σ. Declares emit_context.entry.known.now emit_context.entry.context (σ emit_context.entry.resume) list.now) parts.old.code parts.new.code) }
    ensures alone { IfOk result (λ _. parts.new ≡ with_code parts.new.code parts.old) }
{
    declares(&mut parts.code, emit_context, list)
}

/// Writes a jump.
pub(crate) fn jump(parts: &mut FunctionBuilder, context: u32, to: u32) -> Result<(), AllocError>
    ensures { IfOk result (λ _. parts.new ≡ jumped context to parts.old) }
{
    parts.plain(context, Instruction::Operation(Op::Jump(to)))
}

/// Writes an operation that takes the last operand.
pub(crate) fn take(
    parts: &mut FunctionBuilder,
    emit_context: EmitContext<'_>,
    op: Op,
) -> Result<(), AllocError>
    ensures { IfOk result (λ _. parts.new ≡ with_code (taken emit_context.entry.context emit_context.entry.resume op parts.old.code) parts.old) }
{
    parts.code.taken(emit_context, op)
}

/// Writes an operation that takes n operands and puts one.
pub(crate) fn apply(
    parts: &mut FunctionBuilder,
    emit_context: EmitContext<'_>,
    op: Op,
    count: usize,
    letter: Letter,
) -> Result<(), AllocError>
    ensures { IfOk result (λ _. parts.new ≡ with_code (applied emit_context.entry.context emit_context.entry.resume op count letter parts.old.code) parts.old) }
{
    parts.code.applied(emit_context, op, count, letter)
}

/// Writes cursors, with their queries.
pub(crate) fn cursors(
    parts: &mut FunctionBuilder,
    emit_context: EmitContext<'_>,
    list: &List<Boxed<ResolvedCursor>>,
) -> Result<(), AllocError>
    ensures { IfOk result (λ _. WritesCursors emit_context.entry.known.now list.now parts.old parts.new) }
{
    for x in list.items() {
        cursor(parts, emit_context, x.get())?;
    }
    Ok(())
}

/// Writes a cursor with its query.
pub(crate) fn cursor(
    parts: &mut FunctionBuilder,
    emit_context: EmitContext<'_>,
    x: &ResolvedCursor,
) -> Result<(), AllocError>
    ensures { IfOk result (λ _. (xs : _) (r : Whole) → WritesCursors emit_context.entry.known.now xs parts.new r → WritesCursors emit_context.entry.known.now (x.now ∷ xs) parts.old r) }
{
    let code = query_code(emit_context.alloc, emit_context.known, x.query.get())?;
    let letters = item_letters(emit_context.alloc, emit_context.known, x.query.get())?;
    parts.with_cursor(emit_context.alloc, x, code, letters)
}

/// The numbers of cursors.
pub(crate) fn numbers(
    alloc: Global,
    list: &List<Boxed<ResolvedCursor>>,
) -> Result<List<u32>, AllocError>
    ensures { IfOk result (λ numbers. numbers ≡ map (λ x. x.number) list.now) }
{
    let mut numbers = Vec::new(alloc);
    for x in list.items() {
        numbers.push(x.get().number)?;
    }
    Ok(List::of(numbers))
}

/// Enters a block inside a context, and gives back its number.
pub(crate) fn entered(
    parts: &mut FunctionBuilder,
    outer: u32,
    atomic: bool,
    exit: u32,
    cursors: List<u32>,
) -> Result<u32, AllocError>
    ensures number { IfOk result (λ number. number ≡ next_context parts.old) }
    ensures entered { IfOk result (λ _. parts.new ≡ block_entered outer atomic exit cursors parts.old) }
{
    let number = parts.next_context()?;
    parts.block_entered(outer, atomic, exit, cursors)?;
    Ok(number)
}

/// Passes over the actions of handlers, to a label.
pub(crate) fn pass(
    parts: &mut FunctionBuilder,
    context: u32,
    start: u32,
    handlers: &List<Boxed<ResolvedHandler>>,
) -> Result<(), AllocError>
    ensures { IfOk result (λ _. parts.new ≡ passed context start handlers.now parts.old) }
{
    if handlers.items().is_empty() {
        Ok(())
    } else {
        jump(parts, context, start)
    }
}

/// Opens the cursor of a FOR statement.
pub(crate) fn open(
    parts: &mut FunctionBuilder,
    emit_context: EmitContext<'_>,
    x: &ResolvedCursor,
) -> Result<(), AllocError>
    ensures { IfOk result (λ _. parts.new ≡ with_code (takes emit_context.entry.context emit_context.entry.resume (instruction.Open x.now.number) 0 parts.old.code) parts.old) }
{
    parts
        .code
        .takes(emit_context, Instruction::Open(x.number), 0)
}

/// Fetches the next row of a FOR statement into its variables.
pub(crate) fn fetch_row(
    parts: &mut FunctionBuilder,
    emit_context: EmitContext<'_>,
    head: &ResolvedFor,
) -> Result<(), AllocError>
    ensures { IfOk result (λ _. parts.new ≡ fetched emit_context.entry.context emit_context.entry.resume head.now parts.old) }
{
    let next = Instruction::Next {
        cursor: head.cursor.number,
        end: emit_context.resume,
    };
    parts.puts_row(emit_context, next, head.cursor.number)?;
    stores(&mut parts.code, emit_context, &head.slots)
}

/// Raises the condition of a CASE without ELSE.
pub(crate) fn no_case(
    parts: &mut FunctionBuilder,
    emit_context: EmitContext<'_>,
) -> Result<(), AllocError>
    ensures { IfOk result (λ _. DraftedParts (λ σ p q. q ≡ with_code (takes emit_context.entry.context (suc (at p)) instruction.NoCase 0 p.code) p) parts.old parts.new) }
{
    let resume = parts.label()?;
    let raising = EmitContext {
        alloc: emit_context.alloc,
        known: emit_context.known,
        context: emit_context.context,
        resume,
    };
    parts.code.takes(raising, Instruction::NoCase, 0)?;
    parts.bind(resume)
}

/// A list of one number.
pub(crate) fn one(alloc: Global, number: u32) -> Result<List<u32>, AllocError>
    ensures { IfOk result (λ list. list ≡ number ∷ []) }
{
    let mut list = Vec::new(alloc);
    list.push(number)?;
    Ok(List::of(list))
}
