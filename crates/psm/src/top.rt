//! The program's one call.
ghost use Rattle.psm_session.specs.Put.{sunk_of};
ghost use Rattle.psm_files.specs.Answer.{PutsLine};
ghost use Rattle.psm_files.specs.Expected.{with_line};
ghost use Rattle.psm_files.specs.Fetches.{fetches_of};
ghost use Rattle.psm_files.specs.declared.status.Status.TheVariants as status;
ghost use Rattle.psm.specs.Contract.{asked_of, PsmSays, PsmCompletes};
ghost use Rattle.psm.specs.Message.{usage};

use crate::words::command_in;
use psm_commands::perform;
use psm_files::{Status, put_line};
use psm_io::{Shelf, Sink};
use std::alloc::Global;

/// Does what the words after the program's name say, and answers how it ended.
pub fn psm<F: Shelf, K: Sink>(alloc: Global, words: &[String], shelf: &mut F, out: &mut K) -> Status
    // Each status comes only for its cause, and what is written is what is expected.
    ensures says { PsmSays (asked_of words.now (fetches_of F.held F.faults shelf.old shelf.new))
        (sunk_of K.written K.faults out.old out.new) result }
    // What is expected is answered where nothing outside fails, unless memory runs out.
    ensures completes { PsmCompletes (asked_of words.now (fetches_of F.held F.faults shelf.old shelf.new))
        (sunk_of K.written K.faults out.old out.new) result }
{
    match command_in(words) {
        None => report_usage(out),
        Some(command) => perform(alloc, command, shelf, out),
    }
}

// Puts the line that shows the forms of the words.
fn report_usage<K: Sink>(out: &mut K) -> Status
    ensures { PutsLine (with_line status.Usage usage) (sunk_of K.written K.faults out.old out.new) result }
{
    put_line(
        b"usage: psm run M S [--turns N] | psm compile M | psm exec O S [--turns N] | psm gen N\n",
        Status::Usage,
        out,
    )
}
