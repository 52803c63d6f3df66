//! The declared conditions, contexts and handlers of a listing.
ghost use Rattle.psm_load.specs.Left.{Gives};
ghost use Rattle.psm_load.specs.Parts.{one};
ghost use Rattle.psm_load.specs.Read.{control_words, says};
ghost use Rattle.psm_load.specs.Stated.{condition as condition_part, handler as handler_part, handling_by};
ghost use Rattle.psm_load_line.specs.Forms.{condition_at, context_at, handler_at};

use crate::left::LinesLeft;
use crate::listed::{Listed, several};
use crate::stop::Stop;
use psm_cond::{Context, Declared, Handler, HandlerTable};
use psm_load_line::{ControlCounts, condition, context, handler};
use std::alloc::Global;

impl Listed for Declared {
    ghost part = { condition_part };

    #[tactic(auto, using(crate::proofs::Said::said))]
    fn read(alloc: Global, lines: &mut LinesLeft<'_>) -> Result<Declared, Stop> {
        let line = lines.next()?;
        line.says(condition(alloc, line.bytes))
    }
}

impl Listed for Context {
    ghost part = { one context_at };

    #[tactic(auto, using(crate::proofs::Said::said))]
    fn read(alloc: Global, lines: &mut LinesLeft<'_>) -> Result<Context, Stop> {
        let line = lines.next()?;
        line.says(context(alloc, line.bytes))
    }
}

impl Listed for Handler {
    ghost part = { handler_part };

    #[tactic(auto, using(crate::proofs::Said::said))]
    fn read(alloc: Global, lines: &mut LinesLeft<'_>) -> Result<Handler, Stop> {
        let line = lines.next()?;
        line.says(handler(alloc, line.bytes))
    }
}

/// The handler table of a routine.
pub(crate) fn handling(
    alloc: Global,
    counts: ControlCounts,
    lines: &mut LinesLeft<'_>,
) -> Result<HandlerTable, Stop>
    ensures { Gives (handling_by (control_words counts)) lines.old lines.new result }
{
    let declared = several(alloc, counts.conditions, lines)?;
    let contexts = several(alloc, counts.contexts, lines)?;
    let handlers = several(alloc, counts.handlers, lines)?;
    Ok(HandlerTable::try_new(alloc, declared, contexts, handlers)?)
}
