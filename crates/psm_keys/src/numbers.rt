//! Numbers, as those of columns, of which none may stand twice in a list.
ghost use Rattle.std.specs.Prelude.{◌≡◌, [], nat_eq, IfOk, OnErr};
ghost use Rattle.psm_keys.specs.Fresh.{is_new, with_new};
ghost use Rattle.psm_code.specs.Rules as rules;

use indexmap::IndexSet;
use std::alloc::{AllocError, Global};
use std::marker::Model;

/// Numbers in the order in which they were added.
#[derive(Drop)]
pub struct NumberSet {
    keys: IndexSet<u32>,
}

impl Model for NumberSet {
    ghost use Rattle.std.specs.Prelude.{ℕ, List};

    ghost Value = { List ℕ };

    ghost view = { λ n. n.keys.keys };
}

impl NumberSet {
    /// No numbers. It takes no memory.
    pub fn new(alloc: Global) -> NumberSet
        ensures { result ≡ [] }
    {
        NumberSet {
            keys: IndexSet::new(alloc),
        }
    }

    /// Puts a number after the others, or answers `false` where it is among them.
    pub fn add(&mut self, number: u32) -> Result<bool, AllocError>
        ensures answer { IfOk result (λ new. new ≡ is_new nat_eq number self.old) }
        ensures after { IfOk result (λ new. self.new ≡ with_new new number self.old) }
        ensures err { OnErr result (self.new ≡ self.old) }
    {
        let added = self.keys.insert(number)?;
        Ok(added)
    }
}

/// Whether no number stands twice.
#[tactic(auto, using(crate::proofs::Distinct::distinct_is))]
pub fn are_distinct(alloc: Global, numbers: &[u32]) -> Result<bool, AllocError>
    ensures { IfOk result (λ b. b ≡ rules.are_distinct numbers.now) }
{
    let mut before = NumberSet::new(alloc);
    let mut rest = numbers;
    while let Some((number, others)) = rest.split_first() {
        if !before.add(*number)? {
            return Ok(false);
        }
        rest = others;
    }
    Ok(true)
}
