//! SIGNAL and RESIGNAL (ISO/IEC 9075-4:1996).
ghost use Rattle.std.specs.Prelude.{◌≡◌, IfOk, slice_get};
ghost use Rattle.std.specs.Option.{option_copied};
ghost use Rattle.std.specs.Str.{chars};
ghost use Rattle.psm_cond.specs.Entry.{name_text};
ghost use Rattle.psm_code.specs.Signalling.{declared, entry_for, handling, message_text, resignal, resignal_condition, resignal_message, resignal_with, signal, signal_message, with_message};
ghost use Rattle.psm_unwind.specs.Marks.{SameFrames};
ghost use Rattle.psm_machine.specs.ActResults.{Does, Finds};

use crate::operands::pop;
use crate::stop::{Stop, stop_at, stop_with};
use psm_code::RawRoutine;
use psm_cond::{Condition, Declared, Entry, Message};
use psm_sqlstate::SqlState;
use psm_text::{Name, Text};
use psm_unwind::{Run, activating};
use psm_value::Datum;
use std::alloc::{AllocError, Global};

/// Raises a declared condition.
pub fn signal(alloc: Global, routine: &RawRoutine, run: &Run, number: u32) -> Result<(), Stop>
    ensures { Does (signal routine.now number) run.now result run.now }
{
    let entry = declared(alloc, routine, number)?;
    Err(stop_with(alloc, Condition::of(alloc, entry)))
}

/// Raises a declared condition with a message, which is the last operand.
pub fn signal_message(
    alloc: Global,
    routine: &RawRoutine,
    run: &mut Run,
    number: u32,
) -> Result<(), Stop>
    ensures expected { Does (signal_message routine.now number) run.old result run.new }
    ensures same { SameFrames run.old run.new }
{
    let entry = declared(alloc, routine, number)?;
    let entry = with_message(alloc, run, entry)?;
    Err(stop_with(alloc, Condition::of(alloc, entry)))
}

/// Raises again the condition that activated the innermost handler whose action runs.
pub fn resignal(alloc: Global, run: &Run) -> Result<(), Stop>
    ensures { Does resignal run.now result run.now }
{
    let condition = handling(alloc, run)?;
    Err(stop_with(alloc, condition))
}

/// Puts a declared condition in front of it, and raises that.
pub fn resignal_condition(
    alloc: Global,
    routine: &RawRoutine,
    run: &Run,
    number: u32,
) -> Result<(), Stop>
    ensures { Does (resignal_condition routine.now number) run.now result run.now }
{
    let entry = declared(alloc, routine, number)?;
    resignal_with(alloc, run, entry)
}

/// The same with a message, which is the last operand.
pub fn resignal_message(
    alloc: Global,
    routine: &RawRoutine,
    run: &mut Run,
    number: u32,
) -> Result<(), Stop>
    ensures expected { Does (resignal_message routine.now number) run.old result run.new }
    ensures same { SameFrames run.old run.new }
{
    let entry = declared(alloc, routine, number)?;
    let entry = with_message(alloc, run, entry)?;
    resignal_with(alloc, run, entry)
}

fn resignal_with(alloc: Global, run: &Run, entry: Entry) -> Result<(), Stop>
    ensures { Does (resignal_with entry) run.now result run.now }
{
    let condition = handling(alloc, run)?;
    Err(stop_with(alloc, condition.following(entry)?))
}

// The condition that activated the innermost running action.
fn handling(alloc: Global, run: &Run) -> Result<Condition, Stop>
    ensures { Does handling run.now result run.now }
{
    match activating(run.running.frames.as_slice()) {
        None => Err(stop_at(alloc, SqlState::HANDLER_NOT_ACTIVE)),
        Some((condition, _)) => Ok(condition.copy(alloc)?),
    }
}

// The entry of a declared condition.
fn declared(alloc: Global, routine: &RawRoutine, number: u32) -> Result<Entry, Stop>
    ensures { Finds (declared routine.now number) result }
{
    match declared_at(routine, number) {
        None => Err(Stop::Stuck),
        Some(declared) => Ok(entry_for(alloc, number, declared)?),
    }
}

fn declared_at(routine: &RawRoutine, number: u32) -> Option<&Declared>
    ensures { option_copied result ≡ slice_get routine.now.handlers.declared number }
{
    routine.handlers.declared().get(number as usize)
}

fn entry_for(alloc: Global, number: u32, declared: &Declared) -> Result<Entry, AllocError>
    ensures { IfOk result (λ e. e ≡ entry_for number declared.now) }
{
    match declared {
        Declared::OfState(state) => Entry::of_state(alloc, *state),
        Declared::Named(name) => {
            let mut entry = Entry::of_state(alloc, SqlState::UNHANDLED_EXCEPTION)?;
            entry.own = Some(number);
            entry.identifier = text_of(alloc, name)?;
            Ok(entry)
        }
    }
}

// The characters of a name as a text.
fn text_of(alloc: Global, name: &Name) -> Result<Text, AllocError>
    ensures { IfOk result (λ t. t ≡ name_text name.now) }
{
    spelled(alloc, name.as_str())
}

// The text that a string of at most 4000 characters spells.
#[tactic(auto, using(psm_cond::proofs::Texts::made_chars))]
fn spelled(alloc: Global, characters: &str) -> Result<Text, AllocError>
    ensures { IfOk result (λ t. t ≡ chars characters.now) }
{
    match Text::make(alloc, characters) {
        Ok(text) => Ok(text),
        Err(_) => Err(AllocError),
    }
}

// The entry with the last operand as its message. Null counts as empty.
fn with_message(alloc: Global, run: &mut Run, entry: Entry) -> Result<Entry, Stop>
    ensures expected { Does (with_message entry) run.old result run.new }
    ensures same { SameFrames run.old run.new }
{
    let value = pop(run)?;
    let message = message_text(alloc, value)?;
    Ok(carrying(entry, message))
}

fn carrying(entry: Entry, message: Text) -> Entry
    ensures { result ≡ record entry { message = message } }
{
    Entry {
        message: Message::own(message),
        ..entry
    }
}

fn message_text(alloc: Global, value: Datum) -> Result<Text, Stop>
    ensures { Finds (message_text value) result }
{
    match value {
        Datum::Null => Ok(spelled(alloc, "")?),
        Datum::Num(_) => Err(Stop::Stuck),
        Datum::Text(text) => Ok(text),
    }
}
