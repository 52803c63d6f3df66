//! The condition values for which the handlers of a routine's blocks are declared (ISO/IEC 9075-4:1996, handler declaration).
ghost use Rattle.std.specs.Prelude.{◌≡◌, ◌++◌, [], true, map, IfOk, OnErr};
ghost use Rattle.psm_keys.specs.Fresh.{is_new, with_new};
ghost use Rattle.psm_keys.specs.Handled.{are_all_new, handled_by, is_same_handled};

use indexmap::IndexSet;
use psm_cond::{ConditionValue, Handler};
use std::alloc::{AllocError, Global};
use std::marker::Model;

/// A condition value for which a block has a handler, as a key of a map.
#[derive(Clone, Copy, Debug, PartialEq, Eq, Hash)]
struct HandledKey {
    block: u32,
    value: ConditionValue,
}

/// Blocks, by the numbers of their contexts, and condition values for which they have a handler, in the order in which they were
/// added.
#[derive(Drop)]
pub struct HandledSet {
    keys: IndexSet<HandledKey>,
}

impl Model for HandledSet {
    ghost use Rattle.std.specs.Prelude.{ℕ, List, map};
    ghost use Rattle.psm_cond.specs.declared.handlers.ConditionValue.{ConditionValue};

    ghost Value = { List (ℕ × ConditionValue) };

    ghost view = { λ h. map (λ k. (k.block, k.value)) h.keys.keys };
}

impl HandledSet {
    /// No values. It takes no memory.
    pub fn new(alloc: Global) -> HandledSet
        ensures { result ≡ [] }
    {
        HandledSet {
            keys: IndexSet::new(alloc),
        }
    }

    /// Puts a value of a block after the others, or answers `false` where it is among them.
    pub fn add(&mut self, block: u32, value: ConditionValue) -> Result<bool, AllocError>
        ensures answer { IfOk result (λ new. new ≡ is_new is_same_handled (block, value) self.old) }
        ensures after { IfOk result (λ new. self.new ≡ with_new new (block, value) self.old) }
        ensures err { OnErr result (self.new ≡ self.old) }
    {
        let added = self.keys.insert(HandledKey { block, value })?;
        Ok(added)
    }

    /// Puts the values of a handler after the others, or answers `false` where one stands twice then.
    pub fn add_handler(&mut self, handler: &Handler) -> Result<bool, AllocError>
        ensures answer { IfOk result (λ new. new ≡ are_all_new self.old (handled_by handler.now)) }
        ensures after { IfOk result (λ new. new ≡ true → self.new ≡ self.old ++ handled_by handler.now) }
    {
        let first = self.add(handler.context, handler.values.first)?;
        if first {
            self.add_others(handler.context, handler.values.rest.items())
        } else {
            Ok(false)
        }
    }

    fn add_others(&mut self, block: u32, values: &[ConditionValue]) -> Result<bool, AllocError>
        ensures answer { IfOk result (λ new. new ≡ are_all_new self.old (map (λ v. (block, v)) values.now)) }
        ensures after { IfOk result (λ new. new ≡ true → self.new ≡ self.old ++ map (λ v. (block, v)) values.now) }
    {
        let mut rest = values;
        while let Some((value, others)) = rest.split_first() {
            if !self.add(block, *value)? {
                return Ok(false);
            }
            rest = others;
        }
        Ok(true)
    }
}
