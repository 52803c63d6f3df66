//! Turns, and the diagnostics area of a statement that begins.
ghost use Rattle.std.specs.Prelude.{◌≡◌, Ok};
ghost use Rattle.psm_code.specs.State.{cleared};
ghost use Rattle.psm_code.specs.Steps.{change, turn};
ghost use Rattle.psm_unwind.specs.Marks.{SameFrames};
ghost use Rattle.psm_machine.specs.ActResults.{Does};

use crate::stop::Stop;
use psm_unwind::{Run, spend};

/// Uses a turn.
#[inline(always)]
#[tactic(auto, using(crate::proofs::Spending::turn_used))]
pub fn turn(run: &mut Run) -> Result<(), Stop>
    ensures expected { Does turn run.old result run.new }
    ensures same { SameFrames run.old run.new }
    ensures routine { run.new.running.routine ≡ run.old.running.routine }
{
    let Some(left) = spend(run.turns) else {
        return Err(Stop::NoTurns);
    };
    run.turns = left;
    Ok(())
}

/// The diagnostics area becomes success without rows, and no warning is pending.
#[inline(always)]
pub fn clear(run: &mut Run)
    ensures expected { Does (change cleared) run.old (Ok tt) run.new }
    ensures same { SameFrames run.old run.new }
    ensures routine { run.new.running.routine ≡ run.old.running.routine }
{
    run.area.clear();
    run.pending = None;
}
