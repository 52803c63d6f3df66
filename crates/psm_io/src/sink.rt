//! Where pieces of text are put one after another.
ghost use Rattle.std.specs.Prelude.{◌≤◌, ℕ, List, Option};
ghost use Rattle.psm_io.specs.Sink.{Put};

use thiserror::Error;

/// Why a piece was not put whole.
#[derive(Clone, Copy, Debug, PartialEq, Eq, Error)]
pub enum SinkFault {
    #[error("the output could not be written")]
    Failed,
    #[error("out of memory")]
    Memory,
}

/// Where text goes.
///
/// `written` is what the sink holds, where it is known. `faults` is how often a put has failed: a count
/// that stands still at the last value of a `u64`.
pub trait Sink {
    ghost written: { Self → Option (List ℕ) };

    ghost faults: { Self → ℕ };

    /// Appends the piece.
    fn put(&mut self, bytes: &[u8]) -> Result<(), SinkFault>
        ensures answer { Put (written self.old) (written self.new) (faults self.old) (faults self.new) bytes.now result }
        ensures never_falls { faults self.old ≤ faults self.new };
}
