//! Declared names.
ghost use Rattle.std.specs.Prelude.{◌≡◌, ◌<◌, [], Some, length, slice_get};
ghost use Rattle.std.specs.Option.{option_copied, option_map};
ghost use Rattle.psm_scope.specs.Lookup.{named, index_named};
ghost use Rattle.psm_scope.specs.Names.{Adds};

use crate::key::NameKey;
use indexmap::IndexMap;
use psm_text::Name;
use std::alloc::{AllocError, Global};
use std::marker::Model;

/// Declared names in order, each once, with what is known of each. A name is found by a map. The names are lent.
#[derive(Drop)]
pub struct Names<'a, T> {
    known: IndexMap<NameKey<'a>, T>,
}

impl<'a, T> Model for Names<'a, T> {
    ghost use Rattle.std.specs.Prelude.{◌<◌, ◌^◌, ℕ, List, length, map};
    ghost use Rattle.psm_scope.specs.Names.{spelled};

    ghost Value = { List (List ℕ × T) };

    ghost view = { λ n. map spelled n.known.entries };

    ghost invariant = { λ n. length n.known.entries < 2 ^ 32 };
}

impl<'a, T> Names<'a, T> {
    /// No names. It takes no memory.
    pub fn new(alloc: Global) -> Names<'a, T>
        ensures { result ≡ [] }
    {
        Names {
            known: IndexMap::new(alloc),
        }
    }

    /// How many names there are.
    pub fn len(&self) -> u32
        ensures { result ≡ length self.now }
    {
        self.known.len() as u32
    }

    /// The name at an index.
    pub fn name(&self, index: u32) -> &'a Name
        requires { index < length self.now }
        ensures { option_map (λ p. p.0) (slice_get self.now index) ≡ Some result.now }
    {
        match self.known.get_index(index as usize) {
            None => unreachable!(),
            Some((key, _)) => key.name,
        }
    }

    /// The index of a name, counted from 0.
    pub fn index(&self, name: &Name) -> Option<u32>
        ensures { result ≡ option_map (λ p. p.0) (index_named 0 name.now self.now) }
    {
        match self.known.get_index_of(&NameKey { name }) {
            None => None,
            Some(index) => Some(index as u32),
        }
    }

    /// What is known of the name at an index.
    pub fn at(&self, index: u32) -> &T
        requires { index < length self.now }
        ensures { option_map (λ p. p.1) (slice_get self.now index) ≡ Some result.now }
    {
        match self.known.get_index(index as usize) {
            None => unreachable!(),
            Some((_, known)) => known,
        }
    }
}

impl<'a, T> Names<'a, T> {
    /// What is known of a name.
    pub fn lent(&self, name: &Name) -> Option<&T>
        ensures { option_copied result ≡ named name.now self.now }
    {
        match self.index(name) {
            None => None,
            Some(index) => Some(self.at(index)),
        }
    }
}

impl<'a, T: Copy> Names<'a, T> {
    /// What is known of a name.
    pub fn get(&self, name: &Name) -> Option<T>
        ensures { result ≡ named name.now self.now }
    {
        self.known.get(&NameKey { name }).copied()
    }

    /// The index of a name, counted from 0, and what is known of it.
    pub fn find(&self, name: &Name) -> Option<(u32, T)>
        ensures { result ≡ index_named 0 name.now self.now }
    {
        match self.known.get_full(&NameKey { name }) {
            None => None,
            Some((index, _, known)) => Some((index as u32, *known)),
        }
    }
}

impl<'a, T: Drop> Names<'a, T> {
    /// Puts a name after the others, or answers `false` where it is there already. Without memory for it nothing changes.
    pub fn add(&mut self, name: &'a Name, known: T) -> Result<bool, AllocError>
        ensures { Adds name.now known self.old self.new result }
    {
        let key = NameKey { name };
        if self.known.contains_key(&key) {
            return Ok(false);
        }
        if self.known.len() >= u32::MAX as usize {
            return Err(AllocError);
        }
        self.known.insert(key, known)?;
        Ok(true)
    }
}
