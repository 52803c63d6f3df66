//! The operands of the activation that runs.
ghost use Rattle.std.specs.Prelude.{◌≡◌};
ghost use Rattle.psm_code.specs.Steps.{pop, put, put_value};
ghost use Rattle.psm_unwind.specs.Marks.{SameFrames};
ghost use Rattle.psm_machine.specs.ActResults.{Does};

use crate::stop::Stop;
use psm_exprcode::Operand;
use psm_unwind::Run;
use psm_value::Datum;

/// Takes the last operand, which is a value.
#[inline(always)]
pub fn pop(run: &mut Run) -> Result<Datum, Stop>
    ensures expected { Does pop run.old result run.new }
    ensures same { SameFrames run.old run.new }
    ensures routine { run.new.running.routine ≡ run.old.running.routine }
{
    match run.operands.pop() {
        Some(Operand::Value(value)) => Ok(value),
        Some(Operand::Truth(_)) | None => Err(Stop::Stuck),
    }
}

/// Puts an operand on the others.
pub fn put(run: &mut Run, operand: Operand) -> Result<(), Stop>
    ensures expected { Does (put operand) run.old result run.new }
    ensures same { SameFrames run.old run.new }
{
    run.operands.push(operand)?;
    Ok(())
}
