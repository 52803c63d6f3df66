//! Operations of expressions among the instructions (ISO/IEC 9075:1992, clauses 6 and 8).
ghost use Rattle.std.specs.Prelude.{◌≡◌, []};
ghost use Rattle.psm_exprcode.specs.Fits.{Fits};
ghost use Rattle.psm_code.specs.Run.{operation};
ghost use Rattle.psm_unwind.specs.Marks.{SameFrames};
ghost use Rattle.psm_machine.specs.Successors.{GoesOn};

use crate::stop::{Stop, failed};
use psm_exprcode::{Next, Op};
use psm_unwind::Run;
use std::alloc::Global;

/// Carries out an operation over the operands, which sees the variables and no column, and answers where the run goes on.
///
/// The operands that it takes have to be there, and so has the variable that it names; its type or scale is within bounds. Where it
/// raises a condition, those that it takes are gone.
#[inline(always)]
pub fn operation(alloc: Global, run: &mut Run, op: &Op) -> Result<Next, Stop>
    requires { Fits op.now run.old.operands.own [] run.old.running.variables.items }
    ensures expected { GoesOn (operation op.now) run.old result run.new }
    ensures same { SameFrames run.old run.new }
    ensures routine { run.new.running.routine ≡ run.old.running.routine }
{
    let variables = run.running.variables.as_slice();
    match run.operands.apply(alloc, op, &[], variables) {
        // Each by itself, so that the answer isn't copied.
        Ok(Next::FallThrough) => Ok(Next::FallThrough),
        Ok(Next::Jump(line)) => Ok(Next::Jump(line)),
        Err(fault) => Err(failed(alloc, fault)),
    }
}
