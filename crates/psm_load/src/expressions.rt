//! The expressions of a listing.
ghost use Rattle.psm_load.specs.Left.{Gives};
ghost use Rattle.psm_load.specs.Parts.{if_there, one, times};
ghost use Rattle.psm_load.specs.Stated.{expression as expression_part, operation as operation_part};
ghost use Rattle.psm_load_line.specs.OperationForms.{expression_at};

use crate::left::LinesLeft;
use crate::listed::Listed;
use crate::stop::Stop;
use psm_code::{CodeRule, Instruction};
use psm_exprcode::{ExprCode, Line, Op, RawExpr};
use psm_load_line::{expression_head, operation_line};
use std::alloc::Global;

impl Listed for ExprCode {
    ghost part = { expression_part };

    fn read(alloc: Global, lines: &mut LinesLeft<'_>) -> Result<ExprCode, Stop> {
        let n = head(lines)?;
        Ok(ExprCode::listed(operations(alloc, n, lines)?))
    }
}

/// A test, where there is one.
pub(crate) fn test(
    alloc: Global,
    has_test: bool,
    lines: &mut LinesLeft<'_>,
) -> Result<Option<ExprCode>, Stop>
    ensures { Gives (if_there has_test expression_part) lines.old lines.new result }
{
    if has_test {
        Ok(Some(ExprCode::read(alloc, lines)?))
    } else {
        Ok(None)
    }
}

// The line `EXPR`: how many lines follow.
fn head(lines: &mut LinesLeft<'_>) -> Result<u32, Stop>
    ensures { Gives (one expression_at) lines.old lines.new result }
{
    let line = lines.next()?;
    match expression_head(line.bytes) {
        Some(n) => Ok(n),
        None => Err(Stop::Misfit(line.number)),
    }
}

#[tactic(auto, using(crate::proofs::Repeated::turns))]
fn operations(alloc: Global, n: u32, lines: &mut LinesLeft<'_>) -> Result<RawExpr, Stop>
    ensures { Gives (times n operation_part) lines.old lines.new result }
{
    let mut code = RawExpr::new(alloc);
    for _turn in 0..n {
        let Line { stack, op } = operation(alloc, lines)?;
        code.push(stack.items(), op)?;
    }
    Ok(code)
}

// A line under `EXPR`. An instruction that is no operation is noted.
fn operation(alloc: Global, lines: &mut LinesLeft<'_>) -> Result<Line, Stop>
    ensures { Gives operation_part lines.old lines.new result }
{
    let line = lines.next()?;
    let (stack, instruction) = line.says(operation_line(alloc, line.bytes))?;
    match instruction {
        Instruction::Operation(op) => Ok(Line { stack, op }),
        _ => {
            lines.note(line.number, CodeRule::Place);
            Ok(Line {
                stack,
                op: Op::Rescale(255),
            })
        }
    }
}
