//! The commands of a script, where the numbers of the procedures and what is known of the tables are at hand.
ghost use Rattle.std.specs.Prelude.{◌≡◌, IfOk};
ghost use Rattle.psm_check_script.specs.Seen.{command_seen, commands_seen};
ghost use Rattle.psm_script_code.specs.Lowered.{AllLowered, Lowered, routine_of};

use psm_check_script::ResolvedCommand;
use psm_exprgen::{Known, query_code};
use psm_list::List;
use psm_session::ScriptCommand;
use psm_store::Row;
use psm_value::Datum;
use std::alloc::{AllocError, Global};

pub(crate) fn all_lowered(
    alloc: Global,
    known: &Known,
    procedures: &[u32],
    commands: List<ResolvedCommand>,
) -> Result<List<ScriptCommand>, AllocError>
    ensures { IfOk result (λ made. AllLowered known.now procedures.now (commands_seen commands) made) }
{
    let mut made = Vec::new(alloc);
    for command in commands.into_vec() {
        made.push(lowered(alloc, known, procedures, command)?)?;
    }
    Ok(List::of(made))
}

fn lowered(
    alloc: Global,
    known: &Known,
    procedures: &[u32],
    command: ResolvedCommand,
) -> Result<ScriptCommand, AllocError>
    ensures { IfOk result (λ made. Lowered known.now procedures.now (command_seen command) made) }
{
    match command {
        ResolvedCommand::Call { procedure, values } => Ok(ScriptCommand::Call {
            routine: routine_of(procedures, procedure),
            values,
        }),
        ResolvedCommand::Insert {
            table,
            columns,
            rows,
        } => Ok(ScriptCommand::Insert {
            table,
            columns,
            rows: rows_of(alloc, rows)?,
        }),
        ResolvedCommand::Select(query) => Ok(ScriptCommand::Select(query_code(
            alloc,
            known,
            query.get(),
        )?)),
        ResolvedCommand::Commit => Ok(ScriptCommand::Commit),
        ResolvedCommand::Rollback => Ok(ScriptCommand::Rollback),
    }
}

/// The number of a procedure among all routines; 0 where it isn't there.
fn routine_of(procedures: &[u32], procedure: u32) -> u32
    ensures { result ≡ routine_of procedures.now procedure }
{
    match procedures.get(procedure as usize) {
        Some(routine) => *routine,
        None => 0,
    }
}

/// Rows of the same values.
fn rows_of(alloc: Global, rows: List<List<Datum>>) -> Result<List<Row>, AllocError>
    ensures { IfOk result (λ made. made ≡ rows) }
{
    let mut made = Vec::new(alloc);
    for row in rows.into_vec() {
        made.push(Row::of(row.into_vec()))?;
    }
    Ok(List::of(made))
}
