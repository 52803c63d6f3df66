//! The commands and what each is called with.
ghost use Rattle.psm_session.specs.Put.{sunk_of};
ghost use Rattle.psm_files.specs.Fetches.{fetches_of};
ghost use Rattle.psm_commands.specs.Command.{CanBeDone, command_of};
ghost use Rattle.psm_commands.specs.Contract.{CommandSays, CommandCompletes};

use crate::compile::compile;
use crate::exec::exec;
use crate::generate::generate;
use crate::run::run;
use psm_build::files_are_one_thing;
use psm_code_session::{
    scripts_over_code_are_one_thing, scripts_over_well_formed_code_have_one_session,
};
use psm_files::Status;
use psm_io::{Shelf, Sink};
use psm_load::texts_are_one_thing;
use std::alloc::Global;

/// The names of two files, and the turns of the session.
#[derive(Clone, Copy, Debug)]
pub struct Files<'a> {
    /// The file that gives code: a module file, or an object.
    pub for_code: &'a str,
    pub for_script: &'a str,
    pub turns: u64,
}

/// What the program is to do.
#[derive(Clone, Copy, Debug)]
pub enum Command<'a> {
    /// Run the script over the module file.
    Run(Files<'a>),
    /// Write the listing of the module file of that name.
    Compile(&'a str),
    /// Run the script over the object.
    Exec(Files<'a>),
    /// Run a generated script of that many calls over a generated module file.
    Generate(u32),
}

/// Does what the command says. `run` runs the script over the module file, with that many turns, on empty tables (ISO/IEC
/// 9075-4:1996, module definitions and the call statement), and puts a piece for each command of the script. `compile` puts one
/// piece, the listing of code that stands for the module file. `exec` runs the script as `run` does, over the code that the object
/// lists, whoever wrote it. The first file that can't be read, is too long or is refused ends each, and the line that says so is
/// put. `gen` reads no file: it runs a script of at most 200,000 calls over a module file of its own, with 1,000,000 turns, and puts
/// how many calls there were, the turns that they used, and the row that they leave.
///
/// # Errors
/// The status says how the command ended: `Done`, `TurnsUsed` for a session that has used its turns, `ReadFault`, `TooLong`,
/// `ModuleRefused`, `ObjectRefused` and `ScriptRefused` for a file, `WriteFault` where a put failed, `Memory`.
pub fn perform<F: Shelf, K: Sink>(
    alloc: Global,
    command: Command<'_>,
    shelf: &mut F,
    out: &mut K,
) -> Status
    requires { CanBeDone command }
    // Each status comes only for its cause, and what is written is what is expected.
    ensures says { CommandSays (fetches_of F.held F.faults shelf.old shelf.new) (command_of command.entry) (sunk_of K.written K.faults out.old out.new) result }
    // What is expected is answered where nothing outside fails, unless memory runs out.
    ensures completes { CommandCompletes (fetches_of F.held F.faults shelf.old shelf.new) (command_of command.entry) (sunk_of K.written K.faults out.old out.new) result }
{
    files_are_one_thing();
    texts_are_one_thing();
    scripts_over_code_are_one_thing();
    scripts_over_well_formed_code_have_one_session();
    match command {
        Command::Run(files) => run(alloc, files, shelf, out),
        Command::Compile(name) => compile(alloc, name, shelf, out),
        Command::Exec(files) => exec(alloc, files, shelf, out),
        Command::Generate(calls) => generate(alloc, calls, out),
    }
}
