//! Scripts.

use crate::fault::Fault;
use psm_list::Boxed;
use psm_parse_file::parse_script;
use psm_token::TokenList;
use psm_tree::{Command, Names};
use std::alloc::{AllocError, Global};

/// The commands of a script: a CALL with the number of its arguments, an INSERT with those of its columns and rows.
pub fn script(alloc: Global, list: &TokenList) -> Result<String, Fault> {
    let script = parse_script(alloc, list)?;
    let mut reported = String::from_str(alloc, "ok")?;
    for command in script.commands.items() {
        put_command(alloc, &mut reported, command)?;
    }
    Ok(reported)
}

fn put_command(alloc: Global, reported: &mut String, command: &Command) -> Result<(), AllocError> {
    match command {
        Command::Call {
            procedure,
            arguments,
            ..
        } => {
            let call = format!(in alloc;
                " CALL {} ({})",
                procedure.name.as_str(),
                arguments.items().len()
            )?;
            reported.push_str(call.as_str())
        }
        Command::Insert {
            table,
            columns,
            rows,
            ..
        } => {
            let insert = format!(in alloc;
                " INSERT {} ({}) {}",
                table.name.as_str(),
                column_count(columns),
                rows.rest.items().len().saturating_add(1)
            )?;
            reported.push_str(insert.as_str())
        }
        Command::Select(_) => reported.push_str(" SELECT"),
        Command::Commit { .. } => reported.push_str(" COMMIT"),
        Command::Rollback { .. } => reported.push_str(" ROLLBACK"),
    }
}

fn column_count(columns: &Option<Boxed<Names>>) -> usize {
    match columns {
        None => 0,
        Some(names) => names.get().rest.items().len().saturating_add(1),
    }
}
