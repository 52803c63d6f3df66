//! Names, none of which may stand twice.
ghost use Rattle.std.specs.Prelude.{◌≡◌, [], nat_eq, encode_utf8_all, IfOk, OnErr};
ghost use Rattle.std.proofs.Common.{rules};
ghost use Rattle.std.specs.Cmp.Lexicographic.{pointwise};
ghost use Rattle.std.specs.Cmp.Rules.{comparing, hashing};
ghost use Rattle.std.specs.Hash as fed;
ghost use Rattle.psm_code.specs.Rules.{is_same};
ghost use Rattle.psm_keys.specs.Fresh.{is_new, with_new};

use indexmap::IndexSet;
use psm_text::Name;
use std::alloc::{AllocError, Global};
use std::hash::{Hash, Hasher};
use std::marker::Model;

/// A lent name as a key of a map.
#[derive(Clone, Copy, Debug)]
pub(crate) struct NameKey<'a> {
    pub(crate) name: &'a Name,
}

/// Names in the order in which they were added.
#[derive(Drop)]
pub struct NameSet<'a> {
    keys: IndexSet<NameKey<'a>>,
}

impl<'a> Model for NameSet<'a> {
    ghost use Rattle.std.specs.Prelude.{ℕ, List, map};

    ghost Value = { List (List ℕ) };

    ghost view = { λ n. map (λ k. k.name.now) n.keys.keys };
}

impl<'a> NameSet<'a> {
    /// No names. It takes no memory.
    pub fn new(alloc: Global) -> NameSet<'a>
        ensures { result ≡ [] }
    {
        NameSet {
            keys: IndexSet::new(alloc),
        }
    }

    /// Puts a name after the others, or answers `false` where it is among them.
    pub fn add(&mut self, name: &'a Name) -> Result<bool, AllocError>
        ensures answer { IfOk result (λ new. new ≡ is_new is_same name.now self.old) }
        ensures after { IfOk result (λ new. self.new ≡ with_new new name.now self.old) }
        ensures err { OnErr result (self.new ≡ self.old) }
    {
        let added = self.keys.insert(NameKey { name })?;
        Ok(added)
    }
}

// Whether two names have the same characters.
fn same_name(a: &Name, b: &Name) -> bool
    ensures { result ≡ pointwise nat_eq a.now b.now }
{
    a.is(b)
}

impl<'a> PartialEq for NameKey<'a> {
    ghost eq = { λ a b. pointwise nat_eq a.name.now b.name.now };

    ghost laws = { Prim.search (comparing, rules) };

    fn eq(&self, other: &NameKey<'a>) -> bool {
        same_name(self.name, other.name)
    }
}

impl<'a> Eq for NameKey<'a> {
    ghost laws = { Prim.search (comparing, rules) };
}

impl<'a> Hash for NameKey<'a> {
    ghost hash_input = { λ a. fed.str (encode_utf8_all a.name.now) };

    ghost respects_eq = { Prim.search (hashing, rules) };

    fn hash<H: Hasher>(&self, state: &mut H) {
        self.name.as_str().hash(state);
    }
}
