//! Files in memory as a shelf, some of whose calls fail.
ghost use Rattle.std.specs.Prelude.{◌≡◌, ◌≢◌, ◌≤◌, ℕ, List, [], Option, ◌⊎◌, IsSome, map, nat_eq, if◌then◌else◌};
ghost use Rattle.std.specs.List.{list_any};
ghost use Rattle.std.specs.Option.{option_copied};
ghost use Rattle.psm_io.specs.Count.{next_count};
ghost use Rattle.psm_io.specs.Shelf.{Fetched};
ghost use Rattle.psm_io.specs.Failures.{times, names_after};
ghost use Rattle.psm_io.specs.MemShelf.{file_of, first_named, at_most_of, found_next, expected, given};

use crate::failures::Failures;
use crate::shelf::{Shelf, ShelfFault};
use std::alloc::Global;
use std::marker::Model;

/// A shelf in memory, some of whose calls fail.
///
/// Of two files of one name the first counts.
#[derive(Debug, Drop)]
pub struct MemShelf {
    files: Vec<(String, Vec<u8>)>,
    fails: Vec<u32>,
    calls: u64,
    failed: Failures,
}

impl Model for MemShelf {
    ghost use Rattle.std.specs.Prelude.{map};
    ghost use Rattle.psm_io.specs.MemShelf.{Shelved, file_of};

    ghost Value = { Shelved };

    ghost view = { λ s. record {
      files = map file_of s.files.items;
      fails = s.fails.items;
      calls = s.calls;
      failed = s.failed;
    } };
}

impl MemShelf {
    /// A shelf that holds the files, and that fails the calls with the listed numbers, counted from 1.
    pub fn new(alloc: Global, files: Vec<(String, Vec<u8>)>, fails: Vec<u32>) -> MemShelf
        ensures files { result.files ≡ map file_of files.items }
        ensures fails { result.fails ≡ fails.items }
        ensures calls { result.calls ≡ 0 }
        ensures failed { result.failed ≡ [] }
    {
        MemShelf {
            files,
            fails,
            calls: 0,
            failed: Failures::new(alloc),
        }
    }
}

impl Shelf for MemShelf {
    ghost held = { λ shelf name. first_named name shelf.files };

    ghost faults = { λ shelf name. times name shelf.failed };

    fn fetch(&mut self, alloc: Global, name: &str, most: usize) -> Result<Vec<u8>, ShelfFault>
        ensures answer { Fetched (first_named name.now self.old.files) most
            (times name.now self.old.failed) (times name.now self.new.failed) result }
        ensures never_falls { times name.now self.old.failed ≤ times name.now self.new.failed }
        ensures others { (n : List ℕ) → n ≢ name.now → times n self.new.failed ≡ times n self.old.failed }
        ensures contents { (n : List ℕ) → first_named n self.new.files ≡ first_named n self.old.files }

        ensures expected { (given result ≡ expected self.old name.now most) ⊎ (result ≡ Err ShelfFault.Memory) }
        ensures files { self.new.files ≡ self.old.files }
        ensures fails { self.new.fails ≡ self.old.fails }
        ensures calls { self.new.calls ≡ next_count self.old.calls }
        ensures failed { self.new.failed ≡ names_after self.old.failed name.now result }

        // A name that is held keeps its count, whatever name is fetched.
        ensures no_rise { self.old.fails ≡ [] → (n : List ℕ) → IsSome (first_named n self.old.files) →
            times n self.new.failed ≡ times n self.old.failed }
    {
        self.calls = self.calls.saturating_add(1);
        let found = look_up(&self.files, &self.fails, self.calls, name);
        match found {
            None => Err(self.failed.keep(alloc, name)),
            Some(bytes) => copy_at_most(alloc, bytes, most),
        }
    }
}

/// What the call of that number finds: nothing where it is to fail.
fn look_up<'a>(
    files: &'a [(String, Vec<u8>)],
    fails: &[u32],
    call: u64,
    name: &str,
) -> Option<&'a [u8]>
    ensures { option_copied result ≡ (if list_any (λ n. nat_eq n call) fails.now then None else
        first_named name.now (map file_of files.now)) }
{
    if is_listed(fails, call) {
        None
    } else {
        find(files, name)
    }
}

/// Whether the call of that number is to fail.
fn is_listed(fails: &[u32], call: u64) -> bool
    ensures { result ≡ list_any (λ n. nat_eq n call) fails.now }
{
    fails.iter().any(|n| u64::from(*n) == call)
}

/// The bytes of the first file of that name.
fn find<'a>(files: &'a [(String, Vec<u8>)], name: &str) -> Option<&'a [u8]>
    ensures { option_copied result ≡
        first_named name.now (map file_of files.now) }
{
    for file in files {
        if file.0.as_str() == name {
            return Some(file.1.as_slice());
        }
    }
    None
}

/// A copy of the bytes, if there are at most n.
fn copy_at_most(alloc: Global, bytes: &[u8], most: usize) -> Result<Vec<u8>, ShelfFault>
    ensures { (given result ≡ at_most_of most (Some bytes.now)) ⊎ (result ≡ Err ShelfFault.Memory) }
{
    if bytes.len() > most {
        return Err(ShelfFault::TooLong {
            length: bytes.len() as u64,
        });
    }
    match Vec::from_slice(alloc, bytes) {
        Ok(copy) => Ok(copy),
        Err(_) => Err(ShelfFault::Memory),
    }
}
