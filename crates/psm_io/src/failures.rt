//! The names whose fetch failed.
ghost use Rattle.std.specs.Prelude.{◌≡◌, ◌≢◌, ◌+◌, ℕ, List, [], ◌⊎◌, Err};
ghost use Rattle.psm_io.specs.Failures.{times, names_after};

use crate::shelf::ShelfFault;
use std::alloc::Global;
use std::marker::Model;

/// The names whose fetch failed, oldest first.
#[derive(Debug, Drop)]
pub struct Failures {
    names: Vec<String>,
}

impl Model for Failures {
    ghost use Rattle.std.specs.Prelude.{ℕ, List, map};
    ghost use Rattle.std.specs.String.{string_bytes};

    ghost Value = { List (List ℕ) };

    ghost view = { λ s. map string_bytes s.names.items };
}

impl Failures {
    pub fn new(alloc: Global) -> Failures
        ensures { result ≡ [] }
    {
        Failures {
            names: Vec::new(alloc),
        }
    }

    /// Keeps the name, and answers `Memory` where it can't.
    #[tactic(auto, using(crate::proofs::NameCounts::counts))]
    pub fn keep(&mut self, alloc: Global, name: &str) -> ShelfFault
        ensures kept { self.new ≡ names_after self.old name.now (Err result) }
        ensures rises { result ≡ ShelfFault.Failed → times name.now self.new ≡ times name.now self.old + 1 }
        ensures others { (n : List ℕ) → n ≢ name.now → times n self.new ≡ times n self.old }
        ensures fault { (result ≡ ShelfFault.Failed) ⊎ (result ≡ ShelfFault.Memory) }
    {
        let Ok(name) = String::from_str(alloc, name) else {
            return ShelfFault::Memory;
        };
        if self.names.push(name).is_err() {
            return ShelfFault::Memory;
        }
        ShelfFault::Failed
    }
}
