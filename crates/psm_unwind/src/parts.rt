//! The parts of code by their numbers.
ghost use Rattle.std.specs.Prelude.{◌≡◌};
ghost use Rattle.std.specs.Option.{option_copied};
ghost use Rattle.psm_code.specs.Parts.{block_at, handler_at, line_at, routine_at};
ghost use Rattle.psm_cond.specs.Choice.{is_exception};
ghost use Rattle.psm_unwind.specs.Raising.{IsPlace};

use psm_code::{Code, RawRoutine};
use psm_cond::{Block, ContextKind, Handler};
use psm_sqlstate::Kind;

/// Where a line stands: its context, and the line at which the run goes on after a condition that it raises.
#[derive(Clone, Copy)]
pub(crate) struct Place {
    pub(crate) context: u32,
    pub(crate) resume: Option<u32>,
}

/// Where the line of that number stands.
#[tactic(auto, using(crate::proofs::Places::is_place, crate::proofs::Places::no_place))]
pub(crate) fn place_of(routine: &RawRoutine, line: usize) -> Option<Place>
    ensures { IsPlace (line_at routine.now line) result }
{
    match routine.lines.context(line) {
        None => None,
        Some(context) => match routine.lines.resume(line) {
            None => None,
            Some(resume) => Some(Place { context, resume }),
        },
    }
}

/// A routine by its number.
pub fn routine_at(code: &Code, number: u32) -> Option<&RawRoutine>
    ensures { option_copied result ≡ routine_at code.now number }
{
    code.raw().routines.items().get(number as usize)
}

/// A handler by its number.
pub fn handler_at(routine: &RawRoutine, number: u32) -> Option<&Handler>
    ensures { option_copied result ≡ handler_at routine.now number }
{
    routine.handlers.handlers().get(number as usize)
}

/// The block of a context. `None` comes where the context is that of an action, and where there is none.
pub fn block_at(routine: &RawRoutine, context: u32) -> Option<&Block>
    ensures { option_copied result ≡ block_at routine.now context }
{
    match routine.handlers.context(context) {
        Some(found) => match &found.kind {
            ContextKind::Block(block) => Some(block),
            ContextKind::Action(_) => None,
        },
        None => None,
    }
}

pub(crate) fn is_exception(kind: Kind) -> bool
    ensures { result ≡ is_exception kind }
{
    match kind {
        Kind::Exception => true,
        Kind::Success | Kind::Warning | Kind::NotFound => false,
    }
}
