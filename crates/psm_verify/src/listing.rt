//! The lines of the listing, counted one after another.
ghost use Rattle.std.specs.Prelude.{◌+◌, suc, [], ◌∷◌, Ok};
ghost use Rattle.psm_verify.specs.Checked.{Finds, checked};

use crate::fault::{CodeFault, Stop};
use psm_code::CodeRule;

/// The number of the line that follows. No memory holds n lines that there is none.
pub(crate) fn next(line: u64) -> Result<u64, Stop>
    ensures { Finds (Ok (suc line)) result }
{
    match line.checked_add(1) {
        Some(next) => Ok(next),
        None => Err(Stop::Memory),
    }
}

/// One line, which may break a rule.
pub(crate) fn passed(line: u64, fault: Option<CodeRule>) -> Result<u64, Stop>
    ensures { Finds (checked line (fault ∷ [])) result }
{
    match fault {
        None => next(line),
        Some(rule) => Err(Stop::Fault(CodeFault { line, rule })),
    }
}

/// The number of the line that follows `count` lines which break no rule.
pub(crate) fn skip(line: u64, count: usize) -> Result<u64, Stop>
    ensures { Finds (Ok (line + count)) result }
{
    match line.checked_add(count as u64) {
        Some(next) => Ok(next),
        None => Err(Stop::Memory),
    }
}
