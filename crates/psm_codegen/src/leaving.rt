//! LEAVE and ITERATE (ISO/IEC 9075-4:1996).
ghost use Rattle.std.specs.Prelude.{◌≡◌, IfOk};
ghost use Rattle.psm_codegen.specs.FunctionBuilder.{iterates, leaves};

use crate::enclosing::EnclosingBlock;
use psm_code::Instruction;
use psm_exprcode::Op;
use psm_exprgen::Writer;
use std::alloc::AllocError;

/// Leaves the statement of a level, and the blocks in between. The enclosing blocks are given with the innermost one first.
pub(crate) fn leaves(
    out: &mut Writer,
    context: u32,
    enclosing: &[EnclosingBlock],
    level: u32,
) -> Result<(), AllocError>
    ensures { IfOk result (λ _. out.new ≡ leaves enclosing.now level context out.old) }
{
    let mut current = context;
    for other in enclosing {
        match *other {
            EnclosingBlock::Loop {
                level: own,
                out: to,
                ..
            } => {
                if level == own {
                    return out.plain(current, Instruction::Operation(Op::Jump(to)));
                }
            }
            EnclosingBlock::Block {
                level: own,
                context: inner,
                outer,
                exit,
            } => {
                if level == own {
                    return out.plain(current, Instruction::Operation(Op::Jump(exit)));
                }
                out.plain(current, Instruction::Exit(inner))?;
                current = outer;
            }
            EnclosingBlock::Rows {
                context: inner,
                outer,
            } => {
                out.plain(current, Instruction::Exit(inner))?;
                current = outer;
            }
        }
    }
    Ok(())
}

/// Begins the loop of a level again, and leaves the blocks in between.
pub(crate) fn iterates(
    out: &mut Writer,
    context: u32,
    enclosing: &[EnclosingBlock],
    level: u32,
) -> Result<(), AllocError>
    ensures { IfOk result (λ _. out.new ≡ iterates enclosing.now level context out.old) }
{
    let mut current = context;
    for other in enclosing {
        match *other {
            EnclosingBlock::Loop {
                level: own,
                again,
                ..
            } => {
                if level == own {
                    return out.plain(current, Instruction::Operation(Op::Jump(again)));
                }
            }
            EnclosingBlock::Block {
                context: inner,
                outer,
                ..
            }
            | EnclosingBlock::Rows {
                context: inner,
                outer,
            } => {
                out.plain(current, Instruction::Exit(inner))?;
                current = outer;
            }
        }
    }
    Ok(())
}
