//! Lines in place of labels.
ghost use Rattle.std.specs.Prelude.{◌≡◌, map, option_map, slice_get};
ghost use Rattle.psm_exprgen.specs.Labels.{op_patch, patch_of, patched_line};
ghost use Rattle.psm_codegen.specs.Labels.{line_of, patched_context};
ghost use Rattle.psm_codegen.specs.Patching.{perhaps_patch, with_patched_instruction, with_patched_resume};

use psm_code::{Instruction, Lines};
use psm_cond::{Context, ContextKind};
use psm_exprcode::Op;

/// Puts the lines to which labels are bound in place of the labels of lines.
#[tactic(auto, using(crate::proofs::Patching::lines_next, crate::proofs::Patching::lines_length, crate::proofs::Patching::map_from_none))]
pub(crate) fn patch_lines(lines: &mut Lines, labels: &[Option<u32>])
    ensures { lines.new ≡ map (patched_line (line_of labels.now)) lines.old }
{
    for at in 0..lines.len() {
        patch_resume(lines, labels, at);
        patch_instruction(lines, labels, at);
    }
}

#[tactic(auto, using(crate::proofs::Patching::resume_patched, crate::proofs::Patching::resume_unset, crate::proofs::Patching::resume_beyond))]
fn patch_resume(lines: &mut Lines, labels: &[Option<u32>], at: usize)
    ensures { lines.new ≡ with_patched_resume (line_of labels.now) at lines.old }
{
    match lines.resume(at) {
        Some(Some(label)) => lines.set_resume(at, Some(line_of(labels, label))),
        Some(None) => {}
        None => {}
    }
}

#[tactic(auto, using(crate::proofs::Patching::instruction_patched, crate::proofs::Patching::instruction_kept))]
fn patch_instruction(lines: &mut Lines, labels: &[Option<u32>], at: usize)
    ensures { lines.new ≡ with_patched_instruction (line_of labels.now) at lines.old }
{
    match patch_at(lines, labels, at) {
        Some(instruction) => lines.set_instruction(at, instruction),
        None => {}
    }
}

fn patch_at(lines: &Lines, labels: &[Option<u32>], at: usize) -> Option<Instruction>
    ensures { result ≡ perhaps_patch (line_of labels.now) (option_map (λ l. l.instruction) (slice_get lines.now at)) }
{
    match lines.instruction(at) {
        Some(instruction) => patch_of(labels, instruction),
        None => None,
    }
}

/// What stands in place of an instruction that names a label.
fn patch_of(labels: &[Option<u32>], instruction: &Instruction) -> Option<Instruction>
    ensures { result ≡ patch_of (line_of labels.now) instruction.now }
{
    match instruction {
        Instruction::Operation(op) => match op_patch(labels, op) {
            Some(op) => Some(Instruction::Operation(op)),
            None => None,
        },
        Instruction::Next { cursor, end } => Some(Instruction::Next {
            cursor: *cursor,
            end: line_of(labels, *end),
        }),
        _ => None,
    }
}

fn op_patch(labels: &[Option<u32>], op: &Op) -> Option<Op>
    ensures { result ≡ op_patch (line_of labels.now) op.now }
{
    match op {
        Op::Jump(label) => Some(Op::Jump(line_of(labels, *label))),
        Op::JumpUnlessTrue(label) => Some(Op::JumpUnlessTrue(line_of(labels, *label))),
        Op::JumpUnlessNull(label) => Some(Op::JumpUnlessNull(line_of(labels, *label))),
        _ => None,
    }
}

/// The line to which a label is bound, or 0.
fn line_of(labels: &[Option<u32>], label: u32) -> u32
    ensures { result ≡ line_of labels.now label }
{
    match labels.get(label as usize) {
        Some(Some(line)) => *line,
        Some(None) => 0,
        None => 0,
    }
}

/// Puts the lines to which labels are bound in place of the labels of contexts.
#[tactic(auto, using(crate::proofs::Patching::map_from_next, crate::proofs::Patching::map_from_none))]
pub(crate) fn patch_contexts(contexts: &mut Vec<Context>, labels: &[Option<u32>])
    ensures { contexts.new.items ≡ map (patched_context (line_of labels.now)) contexts.old.items }
{
    for at in 0..contexts.len() {
        patch_context(&mut contexts[at], labels);
    }
}

fn patch_context(context: &mut Context, labels: &[Option<u32>])
    ensures { context.new ≡ patched_context (line_of labels.now) context.old }
{
    match &mut context.kind {
        ContextKind::Block(block) => block.exit = line_of(labels, block.exit),
        ContextKind::Action(_) => {}
    }
}
