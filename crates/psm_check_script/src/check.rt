//! The checker of scripts.
ghost use Rattle.std.specs.Prelude.{◌≡◌, ◌++◌, ◌∷◌, [], None, IfOk};
ghost use Rattle.psm_check_script.specs.Checked.{Checks, script_of};
ghost use Rattle.psm_check_script.specs.Commands.{command_of};
ghost use Rattle.psm_check_script.specs.Known.{known_of};
ghost use Rattle.psm_check_script.specs.ScriptFaults.{command_fault, script_fault};
ghost use Rattle.psm_check_script.specs.Seen.{command_seen, commands_seen};

use crate::calls::{call, call_fault};
use crate::command::{ResolvedCommand, ResolvedScript};
use crate::inserts::{insert, insert_fault};
use crate::known::Known;
use crate::selects::{select, select_fault};
use psm_code::RawCode;
use psm_list::List;
use psm_rules::{Fault, Rule, earlier};
use psm_token::Place;
use psm_tree::{Command, ScriptTree};
use std::alloc::{AllocError, Global};

/// Why a script isn't accepted.
#[derive(Clone, Copy, Debug, PartialEq, Eq)]
pub enum CheckFault {
    /// The rule that the first fault breaks, and the place of the part that breaks it.
    Rule { place: Place, rule: Rule },
    /// Memory was wanting.
    Memory,
}

/// The resolved commands that stand for a script over the tables and procedures of code (ISO/IEC 9075-4:1996, call statement, and
/// ISO/IEC 9075:1992, 13.8, 7.9, 14.3 and 14.4).
///
/// A script that breaks a rule is refused with its first fault: that of the earlier place, and at one place that of the lower code.
#[tactic(auto, using(crate::proofs::Checks::known_as))]
pub fn check_script(
    alloc: Global,
    code: &RawCode,
    script: &ScriptTree,
) -> Result<ResolvedScript, CheckFault>
    ensures { Checks (known_of code.now) script.now result }
{
    match Known::of(alloc, code) {
        Err(_) => Err(CheckFault::Memory),
        Ok(known) => checked(alloc, &known, script),
    }
}

fn checked(alloc: Global, known: &Known, script: &ScriptTree) -> Result<ResolvedScript, CheckFault>
    ensures { Checks known.now script.now result }
{
    match script_fault(alloc, known, script) {
        Err(_) => Err(CheckFault::Memory),
        Ok(Some(fault)) => Err(CheckFault::Rule {
            place: fault.place,
            rule: fault.rule,
        }),
        Ok(None) => resolved(alloc, known, script),
    }
}

fn resolved(alloc: Global, known: &Known, script: &ScriptTree) -> Result<ResolvedScript, CheckFault>
    requires { script_fault known.now script.now ≡ None }
    ensures { Checks known.now script.now result }
{
    match commands_of(alloc, known, script) {
        Err(_) => Err(CheckFault::Memory),
        Ok(commands) => Ok(ResolvedScript { commands }),
    }
}

// ---- the first fault

fn script_fault(
    alloc: Global,
    known: &Known,
    script: &ScriptTree,
) -> Result<Option<Fault>, AllocError>
    ensures { IfOk result (λ f. f ≡ script_fault known.now script.now) }
{
    let mut fault = None;
    for command in script.commands.items() {
        let own = command_fault(alloc, known, command)?;
        fault = earlier(fault, own);
    }
    Ok(fault)
}

fn command_fault(
    alloc: Global,
    known: &Known,
    command: &Command,
) -> Result<Option<Fault>, AllocError>
    ensures { IfOk result (λ f. f ≡ command_fault known.now command.now) }
{
    match command {
        Command::Call {
            procedure,
            arguments,
            ..
        } => Ok(call_fault(known, procedure, arguments.items())),
        Command::Insert {
            table,
            columns,
            rows,
            ..
        } => insert_fault(alloc, known, table, columns, rows),
        Command::Select(query) => select_fault(alloc, known, query),
        Command::Commit { .. } | Command::Rollback { .. } => Ok(None),
    }
}

// ---- the resolved commands

fn commands_of(
    alloc: Global,
    known: &Known,
    script: &ScriptTree,
) -> Result<List<ResolvedCommand>, AllocError>
    ensures { IfOk result (λ made. commands_seen made ≡ script_of known.now script.now) }
{
    let mut made = Vec::new(alloc);
    for command in script.commands.items() {
        push_command(alloc, known, command, &mut made)?;
    }
    Ok(List::of(made))
}

fn push_command(
    alloc: Global,
    known: &Known,
    command: &Command,
    made: &mut Vec<ResolvedCommand>,
) -> Result<(), AllocError>
    ensures { IfOk result (λ _. commands_seen made.new.items ≡ commands_seen made.old.items ++ command_of known.now command.now ∷ []) }
{
    let one = command_of(alloc, known, command)?;
    made.push(one)?;
    Ok(())
}

fn command_of(
    alloc: Global,
    known: &Known,
    command: &Command,
) -> Result<ResolvedCommand, AllocError>
    ensures { IfOk result (λ made. command_seen made ≡ command_of known.now command.now) }
{
    match command {
        Command::Call {
            procedure,
            arguments,
            ..
        } => call(alloc, known, procedure, arguments.items()),
        Command::Insert {
            table,
            columns,
            rows,
            ..
        } => insert(alloc, known, table, columns, rows),
        Command::Select(query) => {
            let query = select(alloc, known, query)?;
            Ok(ResolvedCommand::Select(query))
        }
        Command::Commit { .. } => Ok(ResolvedCommand::Commit),
        Command::Rollback { .. } => Ok(ResolvedCommand::Rollback),
    }
}
