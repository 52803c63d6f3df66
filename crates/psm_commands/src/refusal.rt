//! What is put for a file that gives no code and no script.
ghost use Rattle.std.specs.Prelude.{◌≡◌};
ghost use Rattle.psm_session.specs.Put.{sunk_of};
ghost use Rattle.psm_files.specs.Answer.{PutsLine};
ghost use Rattle.psm_commands.specs.Message.{noun_of};
ghost use Rattle.psm_commands.specs.Report.{Reports};
ghost use Rattle.psm_commands.specs.Sources.{status_of_refused, with_object_refusal, with_refusal};

use crate::source::{Refusal, Which};
use psm_build::Fault;
use psm_files::{Status, fault_line, object_fault_line, put_line, too_long_line, unread_line};
use psm_io::Sink;
use psm_load::ObjectFault;
use std::alloc::Global;

/// Puts the line that says why the file of that name gives no code and no script.
pub(crate) fn report<K: Sink>(alloc: Global, name: &str, refusal: Refusal, out: &mut K) -> Status
    ensures { Reports refusal name.now (sunk_of K.written K.faults out.old out.new) result }
{
    match refusal {
        Refusal::Unread => {
            let Ok(line) = unread_line(alloc, name) else {
                return Status::Memory;
            };
            put_line(&line, Status::ReadFault, out)
        }
        Refusal::TooLong => {
            let Ok(line) = too_long_line(alloc, name) else {
                return Status::Memory;
            };
            put_line(&line, Status::TooLong, out)
        }
        Refusal::Refused {
            which,
            line,
            column,
            fault,
        } => report_fault(alloc, which, line, column, fault, out),
        Refusal::NoObject { line, fault } => report_object(alloc, line, fault, out),
        Refusal::Memory => Status::Memory,
    }
}

// Puts the line of a file that has a fault.
fn report_fault<K: Sink>(
    alloc: Global,
    which: Which,
    line: u32,
    column: u32,
    fault: Fault,
    out: &mut K,
) -> Status
    ensures { PutsLine (with_refusal which line column fault) (sunk_of K.written K.faults out.old out.new) result }
{
    match fault_line(alloc, noun(which), line, column, fault.text()) {
        Ok(line) => put_line(&line, refused_status(which), out),
        Err(_) => Status::Memory,
    }
}

// Puts the line of a file that is no object.
fn report_object<K: Sink>(alloc: Global, line: u32, fault: ObjectFault, out: &mut K) -> Status
    ensures { PutsLine (with_object_refusal line fault) (sunk_of K.written K.faults out.old out.new) result }
{
    match object_fault_line(alloc, line, fault.text()) {
        Ok(line) => put_line(&line, Status::ObjectRefused, out),
        Err(_) => Status::Memory,
    }
}

fn refused_status(which: Which) -> Status
    ensures { result ≡ status_of_refused which }
{
    match which {
        Which::Module => Status::ModuleRefused,
        Which::Script => Status::ScriptRefused,
    }
}

fn noun(which: Which) -> &'static str
    ensures { result.now ≡ noun_of which }
{
    match which {
        Which::Module => "module",
        Which::Script => "script",
    }
}
