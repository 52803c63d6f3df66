//! What a command ends in.
ghost use Rattle.std.specs.Prelude.{◌≡◌};
ghost use Rattle.psm_store.specs.Marks.{IsOutside, Keeps};
ghost use Rattle.psm_session.specs.Put.{sunk_of};
ghost use Rattle.psm_session.specs.Steps.{Puts, tables_after};

use psm_io::{Sink, SinkFault};
use psm_store::{Mark, Store, put_back};

/// What a command ends in.
#[derive(Clone, Copy, Debug, PartialEq, Eq)]
pub enum Step {
    /// The next command is due.
    Next,
    /// The turns ran out.
    TurnsUsed,
    /// Its piece could not be put.
    WriteFault,
    /// Memory ran out, and nothing has changed.
    Memory,
}

/// What a command did: the piece of text that says so, and whether the next command is due after it. If none is, the turns ran out.
#[derive(Debug, Drop)]
pub struct CommandEnd {
    pub piece: Vec<u8>,
    pub goes_on: bool,
}

/// Puts a piece.
pub(crate) fn put<K: Sink>(end: &CommandEnd, out: &mut K) -> Step
    ensures { Puts end.now.goes_on end.now.piece.items (sunk_of K.written K.faults out.old out.new) result }
{
    match out.put(&end.piece) {
        Ok(()) => {
            if end.goes_on {
                Step::Next
            } else {
                Step::TurnsUsed
            }
        }
        Err(SinkFault::Failed) => Step::WriteFault,
        Err(SinkFault::Memory) => Step::Memory,
    }
}

/// Closes the mark of a command after its step. Where memory ran out, the tables are put back to the mark before.
pub(crate) fn close<S: Store>(step: Step, mark: Mark, store: &mut S)
    requires held { S.holds store.old mark }
    ensures tables { S.tables store.new ≡ tables_after step (S.tables store.old) (S.at store.old mark) }
    ensures marks { S.marks store.new ≡ mark.depth }
    ensures keeps { Keeps (IsOutside mark) (S.holds store.old) (S.at store.old) (S.holds store.new) (S.at store.new) }
{
    match step {
        Step::Memory => put_back(store, mark),
        Step::Next | Step::TurnsUsed | Step::WriteFault => store.release(mark),
    }
}
