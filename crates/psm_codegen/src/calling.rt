//! Arguments of CALL, rows of INSERT, declarations and messages of conditions: what is evaluated before a statement does its work.
ghost use Rattle.std.specs.Prelude.{◌≡◌, ◌∷◌, ◌<◌, ◌+◌, ◌≤◌, IfOk};
ghost use Rattle.psm_exprgen.specs.Labels.{Drafted, patched_instruction};
ghost use Rattle.psm_exprgen.specs.Written.{Written};
ghost use Rattle.psm_codegen.specs.Simples.{CallArguments, Declares, Default, Signals, WritesRows, letter_of_slots};

use crate::storing::copies;
use psm_code::Instruction;
use psm_exprcode::{Letter, Op};
use psm_exprgen::{EmitContext, Known, Writer, arguments, expr, letter_at};
use psm_list::{Boxed, List};
use psm_resolved::{ResolvedArgument, ResolvedDeclaration, ResolvedExpr};
use psm_value::Datum;
use std::alloc::AllocError;

/// Writes the arguments of CALL, for parameters that take one, of these letters.
pub(crate) fn call_arguments(
    out: &mut Writer,
    emit_context: EmitContext<'_>,
    letters: &[Letter],
    list: &List<ResolvedArgument>,
) -> Result<(), AllocError>
    ensures { IfOk result (λ _. Drafted (λ σ. CallArguments emit_context.entry.known.now emit_context.entry.context (σ emit_context.entry.resume) letters.now 0 list.now) out.old out.new) }
{
    let mut index = 0usize;
    for argument in list.items() {
        index = call_argument(out, emit_context, letters, index, argument)?;
    }
    Ok(())
}

/// Writes an argument for the parameter at an index among those that take one, and gives back the index of the next one.
fn call_argument(
    out: &mut Writer,
    emit_context: EmitContext<'_>,
    letters: &[Letter],
    index: usize,
    argument: &ResolvedArgument,
) -> Result<usize, AllocError>
    requires { index < usize.MAX }
    ensures written { IfOk result (λ next. Drafted (λ σ w u. (others : _) (v : Written) → CallArguments emit_context.entry.known.now emit_context.entry.context (σ emit_context.entry.resume) letters.now next others u v → CallArguments emit_context.entry.known.now emit_context.entry.context (σ emit_context.entry.resume) letters.now index (argument.now ∷ others) w v) out.old out.new) }
    ensures near { IfOk result (λ next. next ≤ index + 1) }
{
    match argument {
        ResolvedArgument::In(e) => {
            let letter = letter_at(letters, index);
            expr(out, emit_context, e.get(), letter)?;
            Ok(index + 1)
        }
        ResolvedArgument::Out { .. } => Ok(index),
        ResolvedArgument::InOut { slot } => {
            let letter = letter_at(emit_context.known.variables.items(), *slot as usize);
            out.applied(emit_context, Op::Variable(*slot), 0, letter)?;
            Ok(index + 1)
        }
    }
}

/// Writes the rows of an INSERT, whose values have these letters.
pub(crate) fn rows(
    out: &mut Writer,
    emit_context: EmitContext<'_>,
    letters: &[Letter],
    list: &List<List<Boxed<ResolvedExpr>>>,
) -> Result<(), AllocError>
    ensures { IfOk result (λ _. Drafted (λ σ. WritesRows emit_context.entry.known.now emit_context.entry.context (σ emit_context.entry.resume) letters.now list.now) out.old out.new) }
{
    for row in list.items() {
        arguments(out, emit_context, letters, row)?;
    }
    Ok(())
}

/// Writes declarations of variables.
pub(crate) fn declares(
    out: &mut Writer,
    emit_context: EmitContext<'_>,
    list: &List<Boxed<ResolvedDeclaration>>,
) -> Result<(), AllocError>
    ensures { IfOk result (λ _. Drafted (λ σ. Declares emit_context.entry.known.now emit_context.entry.context (σ emit_context.entry.resume) list.now) out.old out.new) }
{
    for declaration in list.items() {
        declare(out, emit_context, declaration.get())?;
    }
    Ok(())
}

/// Writes the variables of one declaration.
fn declare(
    out: &mut Writer,
    emit_context: EmitContext<'_>,
    declaration: &ResolvedDeclaration,
) -> Result<(), AllocError>
    ensures { IfOk result (λ _. Drafted (λ σ w u. (others : _) (v : Written) → Declares emit_context.entry.known.now emit_context.entry.context (σ emit_context.entry.resume) others u v → Declares emit_context.entry.known.now emit_context.entry.context (σ emit_context.entry.resume) (declaration.now ∷ others) w v) out.old out.new) }
{
    let letter = letter_of_slots(emit_context.known, &declaration.slots);
    default(out, emit_context, letter, &declaration.default)?;
    copies(out, emit_context, &declaration.slots)
}

/// Writes the value of a DEFAULT, or null.
fn default(
    out: &mut Writer,
    emit_context: EmitContext<'_>,
    letter: Letter,
    value: &Option<Boxed<ResolvedExpr>>,
) -> Result<(), AllocError>
    ensures { IfOk result (λ _. Drafted (λ σ. Default emit_context.entry.known.now emit_context.entry.context (σ emit_context.entry.resume) letter value.now) out.old out.new) }
{
    match value {
        None => out.applied(emit_context, Op::Constant(letter, Datum::Null), 0, letter),
        Some(e) => expr(out, emit_context, e.get(), letter),
    }
}

/// The letter of the first of some variables; that of a number where there is none.
fn letter_of_slots(known: &Known, slots: &List<u32>) -> Letter
    ensures { result ≡ letter_of_slots known.now slots.now }
{
    match slots.items().first() {
        None => Letter::N,
        Some(slot) => letter_at(known.variables.items(), *slot as usize),
    }
}

/// Puts the message of a condition, if there is one, and raises the condition.
pub(crate) fn signals(
    out: &mut Writer,
    emit_context: EmitContext<'_>,
    without: Instruction,
    with_message: Instruction,
    message: &Option<Boxed<ResolvedExpr>>,
) -> Result<(), AllocError>
    ensures { IfOk result (λ _. Drafted (λ σ. Signals emit_context.entry.known.now emit_context.entry.context (σ emit_context.entry.resume) (patched_instruction σ without) (patched_instruction σ with_message) message.now) out.old out.new) }
{
    match message {
        None => out.takes(emit_context, without, 0),
        Some(e) => {
            expr(out, emit_context, e.get(), Letter::T)?;
            out.takes(emit_context, with_message, 1)
        }
    }
}
