//! Parts of a listing that stand one after another.
ghost use Rattle.psm_load.specs.Left.{after, Gives};
ghost use Rattle.psm_load.specs.Parts.{times, Part};

use crate::left::LinesLeft;
use crate::stop::Stop;
use psm_list::List;
use std::alloc::Global;

/// What lines of a listing stand for.
pub(crate) trait Listed: Sized + Drop {
    ghost part: { Part Self };

    /// Reads it off the front of the lines.
    fn read(alloc: Global, lines: &mut LinesLeft<'_>) -> Result<Self, Stop>
        ensures { Gives part lines.old lines.new result };
}

/// Several of them. No memory is reserved by the number, which a short text may state as a large one.
#[tactic(auto, using(crate::proofs::Repeated::turns))]
pub(crate) fn several<T: Listed>(
    alloc: Global,
    n: u32,
    lines: &mut LinesLeft<'_>,
) -> Result<List<T>, Stop>
    ensures { Gives (times n T.part) lines.old lines.new result }
{
    let mut items = Vec::new(alloc);
    for _turn in 0..n {
        let item = T::read(alloc, lines)?;
        items.push(item)?;
    }
    Ok(List::of(items))
}

/// Several of them after a first one.
#[tactic(auto, using(crate::proofs::Repeated::turns_after))]
pub(crate) fn several_after<T: Listed>(
    alloc: Global,
    first: T,
    n: u32,
    lines: &mut LinesLeft<'_>,
) -> Result<List<T>, Stop>
    ensures { Gives (after first (times n T.part)) lines.old lines.new result }
{
    let mut items = Vec::new(alloc);
    items.push(first)?;
    for _turn in 0..n {
        let item = T::read(alloc, lines)?;
        items.push(item)?;
    }
    Ok(List::of(items))
}
