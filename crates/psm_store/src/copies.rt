//! Copies of tables, each for one or more marks that are open side by side.
ghost use Rattle.std.specs.Prelude.{◌≡◌, ℕ, ◌+◌, ◌-◌, ◌^◌, ◌<◌, ◌≤◌, [], ◌++◌, length, take, replicate, IfOk, IfSome, IfNone, OnOk, OnErr, OnSome};

use crate::tables::Tables;
use std::alloc::{AllocError, Global};
use std::marker::Model;

/// Copies of tables, seen as one for each mark, outermost first.
#[derive(Drop)]
pub(crate) struct Copies {
    groups: Vec<Group>,
    marks: u128,
}

/// A copy for neighbouring marks that stand for the same tables.
#[derive(Drop)]
struct Group {
    tables: Tables,
    marks: u128,
}

impl Model for Group {
    ghost use Rattle.std.specs.Prelude.{◌<◌};
    ghost use Rattle.psm_store.specs.Groups.{Shared};

    ghost Value = { Shared };

    ghost view = { λ g. record { tables = g.tables; marks = g.marks } };

    ghost invariant = { λ g. 0 < g.marks };
}

impl Group {
    /// How many marks the copy is for.
    fn marks(&self) -> u128
        ensures value { result ≡ self.now.marks }
        ensures some { 0 < result }
    {
        self.marks
    }

    /// Takes n marks away.
    fn shorten(&mut self, by: u128)
        requires { by < self.old.marks }
        ensures { self.new ≡ record self.old { marks = self.old.marks - by } }
    {
        self.marks -= by;
    }

    /// Gives the copy.
    fn into_tables(self) -> Tables
        ensures { result ≡ self.tables }
    {
        let Group { tables, marks: _ } = self;
        tables
    }
}

impl Model for Copies {
    ghost use Rattle.std.specs.Prelude.{◌≡◌, List, length};
    ghost use Rattle.psm_table.specs.Table.{Contents};

    ghost Value = { List (List Contents) };

    ghost use Rattle.psm_store.specs.Groups.{copies_of};

    ghost view = { λ c. copies_of c.groups.items };

    ghost invariant = { λ c. c.marks ≡ length (copies_of c.groups.items) };
}

impl Copies {
    pub(crate) fn new(alloc: Global) -> Copies
        ensures { result ≡ [] }
    {
        Copies {
            groups: Vec::new(alloc),
            marks: 0,
        }
    }

    /// How many marks have a copy.
    pub(crate) fn len(&self) -> u128
        ensures { result ≡ length self.now }
    {
        self.marks
    }

    /// Adds a copy for further marks.
    pub(crate) fn push(&mut self, tables: Tables, marks: u128) -> Result<(), AllocError>
        requires some { 0 < marks }
        requires bound { length self.old + marks < 2 ^ 128 }
        ensures ok { OnOk result (self.new ≡ self.old ++ replicate marks tables) }
        ensures err { OnErr result (self.new ≡ self.old) }
    {
        self.groups.push(Group { tables, marks })?;
        self.marks += marks;
        Ok(())
    }

    /// Takes the last copy out, with its marks.
    fn pop(&mut self) -> Option<Group>
        ensures none { IfNone result (self.old ≡ []) }
        ensures some { IfSome result (λ group. self.old ≡ self.new ++ replicate group.marks group.tables) }
        ensures fewer { OnSome result (length self.new < length self.old) }
    {
        let group = self.groups.pop()?;
        self.marks -= group.marks();
        Some(group)
    }

    /// Moves the copy for the mark of that depth into the tables, if there is one. It and the deeper copies go.
    pub(crate) fn restore(&mut self, depth: u128, tables: &mut Tables)
        ensures outside { length self.new ≤ depth }
        ensures restored { take (depth + 1) (self.new ++ replicate (depth + 1) tables.new) ≡
            take (depth + 1) (self.old ++ replicate (depth + 1) tables.old) }
    {
        while depth < self.len() {
            if let Some(group) = self.pop() {
                *tables = group.into_tables();
            }
        }
    }

    /// Keeps the copies for n of the outermost marks.
    pub(crate) fn truncate(&mut self, marks: u128)
        ensures { self.new ≡ take marks self.old }
    {
        while marks < self.len() {
            self.shorten(self.len() - marks);
        }
    }

    /// Takes n marks from the last copy, or all that it has if those are fewer.
    fn shorten(&mut self, most: u128)
        requires above { 0 < most }
        requires some { 0 < length self.old }
        ensures fewer { length self.new < length self.old }
        ensures most { length self.old ≤ length self.new + most }
        ensures rest { self.new ≡ take (length self.new) self.old }
    {
        let last = self.groups.len() - 1;
        if most < self.groups[last].marks() {
            self.groups[last].shorten(most);
            self.marks -= most;
        } else if let Some(group) = self.groups.pop() {
            self.marks -= group.marks();
        }
    }
}
