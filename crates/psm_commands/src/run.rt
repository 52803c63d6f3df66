//! The command `run`: the pieces of a script over a module file.
ghost use Rattle.psm_session.specs.Put.{sunk_of};
ghost use Rattle.psm_files.specs.Answer.{Says};
ghost use Rattle.psm_files.specs.Fetches.{fetches_of};
ghost use Rattle.psm_files.specs.Given.{as_fetched};
ghost use Rattle.psm_commands.specs.Command.{named};
ghost use Rattle.psm_commands.specs.Run.{ForRun};

use crate::command::Files;
use crate::refusal::report;
use crate::session_run::run_session;
use crate::source::{module_code, script_over};
use psm_build::{code_means_its_module, files_are_one_thing};
use psm_files::Status;
use psm_io::{Shelf, Sink};
use std::alloc::Global;

/// Runs the script over the module file, with that many turns, or puts the line that says why nothing is run.
pub(crate) fn run<F: Shelf, K: Sink>(
    alloc: Global,
    files: Files<'_>,
    shelf: &mut F,
    out: &mut K,
) -> Status
    ensures { Says (ForRun (as_fetched (fetches_of F.held F.faults shelf.old shelf.new)) (named files.entry.for_code.now files.entry.for_script.now files.entry.turns))
        (sunk_of K.written K.faults out.old out.new) result }
{
    files_are_one_thing();
    code_means_its_module();
    let code = match module_code(alloc, files.for_code, shelf) {
        Ok(code) => code,
        Err(refusal) => return report(alloc, files.for_code, refusal, out),
    };
    match script_over(alloc, &code, files.for_script, shelf) {
        Ok(script) => run_session(alloc, &code, &script, files.turns, out),
        Err(refusal) => report(alloc, files.for_script, refusal, out),
    }
}
