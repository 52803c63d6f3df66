//! A put of one line.
ghost use Rattle.psm_session.specs.Put.{sunk_of};
ghost use Rattle.psm_files.specs.Answer.{PutsLine};
ghost use Rattle.psm_files.specs.Expected.{with_line};

use crate::status::Status;
use psm_io::{Sink, SinkFault};

/// Puts a line for a status, which is answered unless the put fails or memory runs out.
pub fn put_line<K: Sink>(line: &[u8], status: Status, out: &mut K) -> Status
    ensures { PutsLine (with_line status line.now) (sunk_of K.written K.faults out.old out.new) result }
{
    match out.put(line) {
        Ok(()) => status,
        Err(SinkFault::Failed) => Status::WriteFault,
        Err(SinkFault::Memory) => Status::Memory,
    }
}
