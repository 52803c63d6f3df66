//! Assignment to variables (ISO/IEC 9075-4:1996, assignment statement; 9075:1992, 9.1 and 9.2), and pending warnings.
ghost use Rattle.std.specs.Prelude.{◌≡◌, All, Ok, slice_get};
ghost use Rattle.psm_value.specs.Fetched.{fetched};
ghost use Rattle.psm_value.specs.SqlType.{IsType};
ghost use Rattle.psm_value.specs.Stored.{stored};
ghost use Rattle.psm_code.specs.Parts.{slots_of};
ghost use Rattle.psm_code.specs.Run.{losing, retrieve, store, warn};
ghost use Rattle.psm_code.specs.Steps.{change};
ghost use Rattle.psm_code.specs.State.{warning, with_variable};
ghost use Rattle.psm_unwind.specs.Marks.{SameFrames};
ghost use Rattle.psm_machine.specs.ActResults.{Does, Tries};

use crate::operands::pop;
use crate::stop::{Stop, failed, stop_at};
use psm_code::RawRoutine;
use psm_sqlstate::SqlState;
use psm_unwind::Run;
use psm_value::{Datum, SqlType, fetch_into, is_stored, store_into, storing_is_stable};
use std::alloc::Global;

/// Stores the last operand in a variable, as the variable's type stores it.
#[inline(always)]
pub fn store(alloc: Global, routine: &RawRoutine, run: &mut Run, slot: u32) -> Result<(), Stop>
    requires { All IsType (slots_of routine.now) }
    ensures expected { Does (store routine.now slot) run.old result run.new }
    ensures same { SameFrames run.old run.new }
    ensures routine { run.new.running.routine ≡ run.old.running.routine }
{
    let Some(kind) = slot_type(routine, slot) else {
        return Err(Stop::Stuck);
    };
    let value = pop(run)?;
    // Most values are stored as they are, and go to the variable from where they stand.
    if is_stored(kind, &value) {
        storing_is_stable();
        set_variable(run, slot, value);
        return Ok(());
    }
    let stored = stored(alloc, kind, value)?;
    set_variable(run, slot, stored);
    Ok(())
}

/// Retrieves the last operand into a variable. A text may be cut, which makes a warning pending unless there is one.
pub fn retrieve(alloc: Global, routine: &RawRoutine, run: &mut Run, slot: u32) -> Result<(), Stop>
    requires { All IsType (slots_of routine.now) }
    ensures expected { Does (retrieve routine.now slot) run.old result run.new }
    ensures same { SameFrames run.old run.new }
{
    let Some(kind) = slot_type(routine, slot) else {
        return Err(Stop::Stuck);
    };
    let value = pop(run)?;
    let (fetched, is_cut) = fetched(alloc, kind, &value)?;
    set_variable(run, slot, fetched);
    lose(run, is_cut);
    Ok(())
}

// The value as a type stores it. One that the type stores as it is isn't copied.
#[inline(never)]
pub(crate) fn stored(alloc: Global, kind: SqlType, value: Datum) -> Result<Datum, Stop>
    requires { IsType kind }
    ensures { Tries (stored kind value) result }
{
    if is_stored(kind, &value) {
        storing_is_stable();
        return Ok(value);
    }
    match store_into(alloc, kind, &value) {
        Ok(stored) => Ok(stored),
        Err(fault) => Err(failed(alloc, fault)),
    }
}

// The value as it is fetched into a type, and whether a character was lost.
fn fetched(alloc: Global, kind: SqlType, value: &Datum) -> Result<(Datum, bool), Stop>
    requires { IsType kind }
    ensures { Tries (fetched kind value.now) result }
{
    match fetch_into(alloc, kind, value) {
        Ok(fetched) => Ok(fetched),
        Err(fault) => Err(failed(alloc, fault)),
    }
}

/// The type of a slot.
fn slot_type(routine: &RawRoutine, slot: u32) -> Option<SqlType>
    ensures { result ≡ slice_get (slots_of routine.now) slot }
{
    let at = slot as usize;
    let parameters = routine.parameters.items();
    if at < parameters.len() {
        return Some(parameters[at].kind);
    }
    match routine.variables.items().get(at - parameters.len()) {
        Some(kind) => Some(*kind),
        None => None,
    }
}

fn set_variable(run: &mut Run, slot: u32, value: Datum)
    ensures expected { Does (change (with_variable slot value)) run.old (Ok tt) run.new }
    ensures same { SameFrames run.old run.new }
    ensures routine { run.new.running.routine ≡ run.old.running.routine }
{
    let at = slot as usize;
    if at < run.running.variables.len() {
        run.running.variables[at] = value;
    }
}

// A character that is lost is a warning.
fn lose(run: &mut Run, is_cut: bool)
    ensures expected { Does (losing is_cut) run.old (Ok tt) run.new }
    ensures same { SameFrames run.old run.new }
{
    if is_cut {
        warn_of(run, SqlState::TRUNCATION_WARNING);
    }
}

// Makes a warning pending, unless there is one.
fn warn_of(run: &mut Run, state: SqlState)
    ensures expected { Does (change (warning state)) run.old (Ok tt) run.new }
    ensures same { SameFrames run.old run.new }
{
    if run.pending.is_none() {
        run.pending = Some(state);
    }
}

/// Raises the warning that is pending, if there is one.
pub fn warn(alloc: Global, run: &Run) -> Result<(), Stop>
    ensures { Does warn run.now result run.now }
{
    match run.pending {
        None => Ok(()),
        Some(state) => Err(stop_at(alloc, state)),
    }
}
