//! The routines of a listing.
ghost use Rattle.psm_load.specs.Left.{Gives, GivesAs};
ghost use Rattle.psm_load.specs.Parts.{one, times};
ghost use Rattle.psm_load.specs.Read.{control_words, data_words, routine_words};
ghost use Rattle.psm_load.specs.Stated.{access_by, routine as routine_part, routine_by, variables_by};
ghost use Rattle.psm_load_line.specs.InstructionForms.{code_line_at};
ghost use Rattle.psm_load_line.specs.RoutineForms.{parameter_at, routine_at, slot_at};

use crate::handlers::handling;
use crate::left::LinesLeft;
use crate::listed::{Listed, several};
use crate::stop::Stop;
use psm_code::{CodeCursor, CodeLine, Lines, Parameter, Plan, RawRoutine};
use psm_exprcode::Query;
use psm_list::List;
use psm_load_line::{DataCounts, RoutineHead, code_line, parameter, routine_head, slot};
use psm_value::SqlType;
use std::alloc::Global;

impl Listed for RawRoutine {
    ghost part = { routine_part };

    fn read(alloc: Global, lines: &mut LinesLeft<'_>) -> Result<RawRoutine, Stop> {
        let head = head(alloc, lines)?;
        routine(alloc, head, lines)
    }
}

impl Listed for Parameter {
    ghost part = { one parameter_at };

    #[tactic(auto, using(crate::proofs::Said::said))]
    fn read(alloc: Global, lines: &mut LinesLeft<'_>) -> Result<Parameter, Stop> {
        let line = lines.next()?;
        line.says(parameter(alloc, line.bytes))
    }
}

// The type of a slot.
impl Listed for SqlType {
    ghost part = { one slot_at };

    #[tactic(auto, using(crate::proofs::Said::said))]
    fn read(_alloc: Global, lines: &mut LinesLeft<'_>) -> Result<SqlType, Stop> {
        let line = lines.next()?;
        line.says(slot(line.bytes))
    }
}

fn head(alloc: Global, lines: &mut LinesLeft<'_>) -> Result<RoutineHead, Stop>
    ensures { GivesAs routine_words (one routine_at) lines.old lines.new result }
{
    let line = lines.next()?;
    line.says(routine_head(alloc, line.bytes))
}

// The lines after that of a routine.
fn routine(alloc: Global, head: RoutineHead, lines: &mut LinesLeft<'_>) -> Result<RawRoutine, Stop>
    ensures { Gives (routine_by (routine_words head)) lines.old lines.new result }
{
    let (parameters, variables) = variables(alloc, head.data_counts, lines)?;
    let (queries, (cursors, plans)) = access(alloc, head.data_counts, lines)?;
    let handlers = handling(alloc, head.control_counts, lines)?;
    let code = code_lines(alloc, head.control_counts.lines, lines)?;
    Ok(RawRoutine {
        name: head.name,
        is_function: head.is_function,
        parameters,
        returns: head.returns,
        variables,
        queries,
        cursors,
        plans,
        handlers,
        lines: code,
    })
}

// The parameters, and the types of the other slots.
fn variables(
    alloc: Global,
    counts: DataCounts,
    lines: &mut LinesLeft<'_>,
) -> Result<(List<Parameter>, List<SqlType>), Stop>
    ensures { Gives (variables_by (data_words counts)) lines.old lines.new result }
{
    let parameters = several(alloc, counts.parameters, lines)?;
    let slots = several(alloc, counts.slots, lines)?;
    Ok((parameters, slots))
}

// The queries, the cursors and the plans.
fn access(
    alloc: Global,
    counts: DataCounts,
    lines: &mut LinesLeft<'_>,
) -> Result<(List<Query>, (List<CodeCursor>, List<Plan>)), Stop>
    ensures { Gives (access_by (data_words counts)) lines.old lines.new result }
{
    let queries = several(alloc, counts.queries, lines)?;
    let cursors = several(alloc, counts.cursors, lines)?;
    let plans = several(alloc, counts.plans, lines)?;
    Ok((queries, (cursors, plans)))
}

#[tactic(auto, using(crate::proofs::Repeated::turns))]
fn code_lines(alloc: Global, n: u32, lines: &mut LinesLeft<'_>) -> Result<Lines, Stop>
    ensures { Gives (times n (one code_line_at)) lines.old lines.new result }
{
    let mut code = Lines::new(alloc);
    for _turn in 0..n {
        let CodeLine {
            context,
            resume,
            stack,
            instruction,
        } = instruction_line(alloc, lines)?;
        code.push(context, resume, stack.items(), instruction)?;
    }
    Ok(code)
}

#[tactic(auto, using(crate::proofs::Said::said))]
fn instruction_line(alloc: Global, lines: &mut LinesLeft<'_>) -> Result<CodeLine, Stop>
    ensures { Gives (one code_line_at) lines.old lines.new result }
{
    let line = lines.next()?;
    line.says(code_line(alloc, line.bytes))
}
