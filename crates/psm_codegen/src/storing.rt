//! Operands that go into variables (ISO/IEC 9075-4:1996, assignment).
ghost use Rattle.std.specs.Prelude.{◌≡◌, IfOk};
ghost use Rattle.psm_code.specs.declared.instruction.Instruction.TheVariants as instruction;
ghost use Rattle.psm_simulation.specs.Scheme.{slots_given};
ghost use Rattle.psm_exprcode.specs.declared.op.Op.TheVariants as op;
ghost use Rattle.psm_exprgen.specs.Written.{applied, last_letter, takes};
ghost use Rattle.psm_codegen.specs.Simples.{copied, retrieved, stored};

use psm_code::Instruction;
use psm_exprcode::Op;
use psm_exprgen::{EmitContext, Writer};
use psm_list::List;
use psm_resolved::ResolvedArgument;
use std::alloc::AllocError;

/// Stores the last operand in each variable.
pub(crate) fn stores(
    out: &mut Writer,
    emit_context: EmitContext<'_>,
    slots: &List<u32>,
) -> Result<(), AllocError>
    ensures { IfOk result (λ _. out.new ≡ stored emit_context.entry.context emit_context.entry.resume (λ slot. instruction.Store slot) slots.now out.old) }
{
    for slot in slots.items() {
        out.takes(emit_context, Instruction::Store(*slot), 1)?;
    }
    Ok(())
}

/// Retrieves the last operand into each variable. A character that is lost is a warning.
pub(crate) fn retrieves(
    out: &mut Writer,
    emit_context: EmitContext<'_>,
    slots: &List<u32>,
) -> Result<(), AllocError>
    ensures { IfOk result (λ _. out.new ≡ retrieved emit_context.entry.context emit_context.entry.resume slots.now out.old) }
{
    for slot in slots.items() {
        out.takes(emit_context, Instruction::FetchStore(*slot), 1)?;
    }
    out.takes(emit_context, Instruction::Warn, 0)
}

/// Stores the values that a procedure gives back.
pub(crate) fn gives(
    out: &mut Writer,
    emit_context: EmitContext<'_>,
    arguments: &List<ResolvedArgument>,
) -> Result<(), AllocError>
    ensures { IfOk result (λ _. out.new ≡ stored emit_context.entry.context emit_context.entry.resume (λ slot. instruction.Store slot) (slots_given arguments.now) out.old) }
{
    for argument in arguments.items() {
        match argument {
            ResolvedArgument::In(_) => {}
            ResolvedArgument::Out { slot } | ResolvedArgument::InOut { slot } => {
                out.takes(emit_context, Instruction::Store(*slot), 1)?;
            }
        }
    }
    Ok(())
}

/// Stores the last operand in all of the variables, and drops it where there is none.
pub(crate) fn copies(
    out: &mut Writer,
    emit_context: EmitContext<'_>,
    slots: &List<u32>,
) -> Result<(), AllocError>
    ensures { IfOk result (λ _. out.new ≡ copied emit_context.entry.context emit_context.entry.resume slots.now out.old) }
{
    match slots.items().split_last() {
        None => out.taken(emit_context, Op::Drop),
        Some((last, others)) => {
            for slot in others {
                copy(out, emit_context, *slot)?;
            }
            out.takes(emit_context, Instruction::Store(*last), 1)
        }
    }
}

/// Stores the last operand in a variable, and leaves it.
fn copy(out: &mut Writer, emit_context: EmitContext<'_>, slot: u32) -> Result<(), AllocError>
    ensures { IfOk result (λ _. out.new ≡ takes emit_context.entry.context emit_context.entry.resume (instruction.Store slot) 1 (applied emit_context.entry.context emit_context.entry.resume op.Duplicate 0 (last_letter out.old) out.old)) }
{
    let letter = out.last_letter();
    out.applied(emit_context, Op::Duplicate, 0, letter)?;
    out.takes(emit_context, Instruction::Store(slot), 1)
}
