//! The bytes of one file.
ghost use Rattle.std.specs.Prelude.{◌≡◌, ℕ, List};
ghost use Rattle.psm_files.specs.Fetches.{Gets, fetches_of};

use psm_io::{Shelf, ShelfFault};
use std::alloc::Global;

/// The most bytes of a file.
const MOST_BYTES: usize = 16_777_216;

/// Why a fetch gave no bytes.
#[derive(Clone, Copy, Debug, PartialEq, Eq)]
pub enum FetchFault {
    /// The file could not be read.
    Unread,
    /// The file is too long.
    TooLong,
    Memory,
}

/// The bytes of the file of that name, at most 16777216 of them.
pub fn fetch<F: Shelf>(alloc: Global, name: &str, shelf: &mut F) -> Result<Vec<u8>, FetchFault>
    ensures gets { Gets (fetches_of F.held F.faults shelf.old shelf.new) name.now result }
    ensures contents { (n : List ℕ) → F.held shelf.new n ≡ F.held shelf.old n }
{
    match shelf.fetch(alloc, name, MOST_BYTES) {
        Ok(bytes) => Ok(bytes),
        Err(ShelfFault::Failed) => Err(FetchFault::Unread),
        Err(ShelfFault::TooLong { .. }) => Err(FetchFault::TooLong),
        Err(ShelfFault::Memory) => Err(FetchFault::Memory),
    }
}
