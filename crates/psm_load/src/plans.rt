//! The plans of a listing.
ghost use Rattle.psm_load.specs.Left.{Gives};
ghost use Rattle.psm_load.specs.Parts.{one};
ghost use Rattle.psm_load.specs.Read.{plan_read, says};
ghost use Rattle.psm_load.specs.Stated.{plan as plan_part, set_item as set_item_part};
ghost use Rattle.psm_load_line.specs.Forms.{plan_at, set_at};
ghost use Rattle.psm_load_line.specs.Said.{plan_head_of};

use crate::expressions::test;
use crate::left::LinesLeft;
use crate::listed::{Listed, several};
use crate::stop::Stop;
use psm_code::Plan;
use psm_exprcode::{ExprCode, SetItem};
use psm_load_line::{PlanHead, plan_head, set_head};
use std::alloc::Global;

impl Listed for Plan {
    ghost part = { plan_part };

    #[tactic(auto, using(crate::proofs::Same::plan_same))]
    fn read(alloc: Global, lines: &mut LinesLeft<'_>) -> Result<Plan, Stop> {
        let head = head(alloc, lines)?;
        plan(alloc, head, lines)
    }
}

impl Listed for SetItem {
    ghost part = { set_item_part };

    fn read(alloc: Global, lines: &mut LinesLeft<'_>) -> Result<SetItem, Stop> {
        let column = column(lines)?;
        let source = ExprCode::read(alloc, lines)?;
        Ok(SetItem { column, source })
    }
}

// The line `SET`: the column.
fn column(lines: &mut LinesLeft<'_>) -> Result<u32, Stop>
    ensures { Gives (one set_at) lines.old lines.new result }
{
    let line = lines.next()?;
    match set_head(line.bytes) {
        Some(column) => Ok(column),
        None => Err(Stop::Misfit(line.number)),
    }
}

#[tactic(auto, using(crate::proofs::Said::said))]
fn head(alloc: Global, lines: &mut LinesLeft<'_>) -> Result<PlanHead, Stop>
    ensures { Gives (says plan_head_of plan_at) lines.old lines.new result }
{
    let line = lines.next()?;
    line.says(plan_head(alloc, line.bytes))
}

// The lines after that of a plan.
fn plan(alloc: Global, head: PlanHead, lines: &mut LinesLeft<'_>) -> Result<Plan, Stop>
    ensures { Gives (plan_read head) lines.old lines.new result }
{
    match head {
        PlanHead::Insert {
            table,
            rows,
            columns,
        } => Ok(Plan::Insert {
            table,
            columns,
            rows,
        }),
        PlanHead::InsertQuery {
            table,
            query,
            columns,
        } => Ok(Plan::InsertQuery {
            table,
            columns,
            query,
        }),
        PlanHead::Update {
            table,
            sets,
            has_test,
        } => update(alloc, table, sets, has_test, lines),
        PlanHead::Delete { table, has_test } => {
            let test = test(alloc, has_test, lines)?;
            Ok(Plan::Delete { table, test })
        }
        PlanHead::UpdateAt { cursor, sets } => {
            let sets = several(alloc, sets, lines)?;
            Ok(Plan::UpdateAt { cursor, sets })
        }
        PlanHead::DeleteAt { cursor } => Ok(Plan::DeleteAt { cursor }),
    }
}

// The lines after that of an UPDATE: its assignments, and its test.
fn update(
    alloc: Global,
    table: u32,
    sets: u32,
    has_test: bool,
    lines: &mut LinesLeft<'_>,
) -> Result<Plan, Stop>
    ensures { Gives (plan_read (PlanHead.Update table sets has_test)) lines.old lines.new result }
{
    let sets = several(alloc, sets, lines)?;
    let test = test(alloc, has_test, lines)?;
    Ok(Plan::Update { table, sets, test })
}
