//! Slots and numbers.
ghost use Rattle.std.specs.Prelude.{◌≡◌, [], map, IfOk};
ghost use Rattle.psm_declare.specs.Numbering.{next_condition, next_slot, with_condition, with_cursor, with_slot};

use psm_list::List;
use psm_symbols::{as_number, next_number};
use psm_text::Name;
use psm_value::SqlType;
use std::alloc::{AllocError, Global};
use std::marker::Model;

/// What is numbered so far in a routine: each variable has a slot of its own, and each cursor and each condition without an SQLSTATE
/// a number of its own.
#[derive(Drop)]
pub struct Numbering<'a> {
    slots: Vec<SqlType>,
    cursors: u32,
    conditions: Vec<&'a Name>,
}

impl<'a> Model for Numbering<'a> {
    ghost use Rattle.std.specs.Prelude.{map};
    ghost use Rattle.psm_declare.specs.Numbering.{Numbering as Seen};

    ghost Value = { Seen };

    ghost view = { λ n. record { slots = n.slots.items; cursors = n.cursors; conditions = map (λ c. c.now) n.conditions.items } };
}

impl<'a> Numbering<'a> {
    /// Nothing is numbered. It takes no memory.
    pub fn new(alloc: Global) -> Numbering<'a>
        ensures { result ≡ record { slots = []; cursors = 0; conditions = [] } }
    {
        Numbering {
            slots: Vec::new(alloc),
            cursors: 0,
            conditions: Vec::new(alloc),
        }
    }

    /// The next slot, which is one of that type from now on.
    pub fn slot(&mut self, kind: SqlType) -> Result<u32, AllocError>
        ensures slot { IfOk result (λ slot. slot ≡ next_slot self.old) }
        ensures more { IfOk result (λ _. self.new ≡ with_slot kind self.old) }
    {
        let slot = as_number(self.slots.len())?;
        self.slots.push(kind)?;
        Ok(slot)
    }

    /// The number of the next cursor.
    pub fn cursor(&mut self) -> Result<u32, AllocError>
        ensures number { IfOk result (λ number. number ≡ self.old.cursors) }
        ensures more { IfOk result (λ _. self.new ≡ with_cursor self.old) }
    {
        let number = self.cursors;
        self.cursors = next_number(number)?;
        Ok(number)
    }

    /// The number of the next condition, which has that name.
    pub fn condition(&mut self, name: &'a Name) -> Result<u32, AllocError>
        ensures number { IfOk result (λ number. number ≡ next_condition self.old) }
        ensures more { IfOk result (λ _. self.new ≡ with_condition name.now self.old) }
    {
        let condition = as_number(self.conditions.len())?;
        self.conditions.push(name)?;
        Ok(condition)
    }

    /// How many cursors there are.
    pub fn cursors(&self) -> u32
        ensures { result ≡ self.now.cursors }
    {
        self.cursors
    }

    /// The names of the conditions.
    pub fn condition_names(&self, alloc: Global) -> Result<List<Name>, AllocError>
        ensures { IfOk result (λ names. names ≡ self.now.conditions) }
    {
        copied_names(alloc, self.conditions.as_slice())
    }

    /// The types of the slots.
    pub fn into_slots(self) -> List<SqlType>
        ensures { result ≡ self.entry.slots }
    {
        let Numbering { slots, .. } = self;
        List::of(slots)
    }
}

// The names in memory of their own.
fn copied_names(alloc: Global, names: &[&Name]) -> Result<List<Name>, AllocError>
    ensures { IfOk result (λ copies. copies ≡ map (λ n. n.now) names.now) }
{
    let mut copies = Vec::new(alloc);
    for name in names {
        copies.push(name.copy(alloc)?)?;
    }
    Ok(List::of(copies))
}
