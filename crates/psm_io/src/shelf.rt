//! Where files are fetched by their names.
ghost use Rattle.std.specs.Prelude.{◌≡◌, ◌≢◌, ◌≤◌, ℕ, List, Option};
ghost use Rattle.psm_io.specs.Shelf.{Fetched};

use std::alloc::Global;
use thiserror::Error;

/// Why a fetch gave no bytes.
#[derive(Clone, Copy, Debug, PartialEq, Eq, Error)]
pub enum ShelfFault {
    #[error("the file could not be read")]
    Failed,
    /// `length` is the number of bytes that were counted.
    #[error("the file is too long: {length} bytes were counted")]
    TooLong { length: u64 },
    #[error("out of memory")]
    Memory,
}

/// Where files come from.
///
/// `held` is the bytes of a file, where they are known. `faults` is how often a fetch of a name has
/// failed: a count that stands still at the last value of a `u64`.
pub trait Shelf {
    ghost held: { Self → List ℕ → Option (List ℕ) };

    ghost faults: { Self → List ℕ → ℕ };

    /// The bytes of the file of that name, at most `most` of them. An absent name is a fault.
    fn fetch(&mut self, alloc: Global, name: &str, most: usize) -> Result<Vec<u8>, ShelfFault>
        ensures answer { Fetched (held self.old name.now) most (faults self.old name.now) (faults self.new name.now) result }
        ensures never_falls { faults self.old name.now ≤ faults self.new name.now }
        ensures others { (n : List ℕ) → n ≢ name.now → faults self.new n ≡ faults self.old n }
        ensures contents { (n : List ℕ) → held self.new n ≡ held self.old n };
}
