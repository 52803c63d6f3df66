//! How an instruction leaves a run, and how a run ends.

use psm_cond::Condition;
use psm_list::{Boxed, List};
use psm_value::Datum;

/// How a run ends. What it gives is boxed, so that what each instruction ends in is two or three words.
#[derive(Debug, Drop)]
pub enum Ending {
    /// With the values of the OUT and INOUT parameters, or with the value of a function.
    Ended(Boxed<List<Datum>>),
    /// With an exception that no handler takes.
    Raised(Boxed<Condition>),
    /// Where a turn is due and none is left.
    NoTurns,
    /// Where something isn't there that an instruction names. Well-formed code is never stuck so.
    Stuck,
}

/// Whether a run goes on.
#[derive(Debug, Drop)]
pub enum Outcome {
    More,
    Over(Ending),
}
