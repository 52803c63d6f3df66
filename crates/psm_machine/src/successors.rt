//! Where a run goes on after an instruction.
ghost use Rattle.std.specs.Prelude.{◌≡◌, List};
ghost use Rattle.psm_table.specs.Table.{Contents};
ghost use Rattle.psm_store.specs.declared.store.Mark.{Mark as MarkValue};
ghost use Rattle.psm_code.specs.Run.{fall_through as is_fall_through, successor_of};
ghost use Rattle.psm_code.specs.Steps.{Came, go_on, got};
ghost use Rattle.psm_unwind.specs.Marks.{SameFrames};
ghost use Rattle.psm_unwind.specs.View.{machine_of};
ghost use Rattle.psm_machine.specs.ActResults.{Evaluates};
ghost use Rattle.psm_machine.specs.Successors.{LeadsOn, StepsTo, goes_more};

use crate::stop::Stop;
use psm_exprcode::Next;
use psm_unwind::{Outcome, Run};

/// Goes on at the line that follows, or at another one. The answer says only whether there was one.
#[inline(always)]
pub(crate) fn go_to(run: &mut Run, next: Next) -> Result<(), Stop>
    ensures expected { LeadsOn (successor_of next) run.old (goes_more result) run.new }
    ensures same { SameFrames run.old run.new }
    ensures routine { run.new.running.routine ≡ run.old.running.routine }
{
    match next {
        Next::FallThrough => {
            let Some(line) = run.running.line.checked_add(1) else {
                return Err(Stop::Memory);
            };
            run.running.line = line;
        }
        Next::Jump(line) => run.running.line = line as usize,
    }
    Ok(())
}

/// Goes on at the line that follows, or at another one.
pub fn go(run: &mut Run, next: Next) -> Result<Outcome, Stop>
    ensures expected { LeadsOn (successor_of next) run.old result run.new }
    ensures same { SameFrames run.old run.new }
{
    go_to(run, next)?;
    Ok(Outcome::More)
}

/// Goes on at the line that follows.
pub fn fall_through(run: &mut Run) -> Result<Outcome, Stop>
    ensures expected { LeadsOn is_fall_through run.old result run.new }
    ensures same { SameFrames run.old run.new }
{
    go(run, Next::FallThrough)
}

/// Goes on after a part of an instruction, if that wasn't stopped.
pub fn following(run: &mut Run, done: Result<(), Stop>) -> Result<Outcome, Stop>
    ensures expected { (tables : List Contents) (at : MarkValue → List Contents) (came : Came (Unit {0})) → Evaluates came done (machine_of tables at run.old) → StepsTo (go_on came.given (λ _. got is_fall_through) came.machine) result (machine_of tables at run.new) }
    ensures same { SameFrames run.old run.new }
{
    match done {
        Ok(()) => fall_through(run),
        Err(stop) => Err(stop),
    }
}
