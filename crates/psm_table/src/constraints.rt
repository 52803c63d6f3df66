//! The FOREIGN KEY constraints of all tables (ISO/IEC 9075:1992, 11.8), found by the tables that they name.
ghost use Rattle.std.specs.Prelude.{◌≡◌, nat_eq, filter, IfOk, OnOk};
ghost use Rattle.psm_table.specs.Constraints.{found_at, names_table, AreFound, KeepsAlso};

use crate::definition::ForeignKey;
use indexmap::IndexMap;
use psm_list::List;
use std::alloc::{AllocError, Global};
use std::marker::Model;

/// FOREIGN KEY constraints (ISO/IEC 9075:1992, 11.8), seen as the list of them. Those that name a table are found without a
/// pass over the others.
#[derive(Debug, Drop)]
pub struct ForeignKeys {
    all: List<ForeignKey>,
    by_table: ByTable,
}

/// The constraints that name a table, in their order, by the number of the table.
#[derive(Debug, Drop)]
struct ByTable {
    lists: IndexMap<u32, List<ForeignKey>>,
}

impl Model for ForeignKeys {
    ghost use Rattle.std.specs.Prelude.{List as Seq};
    ghost use Rattle.psm_table.specs.Constraints.{AreFound};
    ghost use Rattle.psm_table.specs.declared.definition.ForeignKey.{ForeignKey as Constraint};

    ghost Value = { Seq Constraint };

    ghost view = { λ k. k.all };

    ghost invariant = { λ k. AreFound k.by_table k.all };
}

impl ForeignKeys {
    /// The constraints, which it keeps for each table that they name, too. Out of memory is the one refusal.
    pub fn new(alloc: Global, all: List<ForeignKey>) -> Result<ForeignKeys, AllocError>
        ensures { IfOk result (λ keys. keys ≡ all) }
    {
        let by_table = ByTable::of(alloc, all.items())?;
        Ok(ForeignKeys { all, by_table })
    }

    /// Lends all constraints in order.
    pub fn items(&self) -> &[ForeignKey]
        ensures { result.now ≡ self.now }
    {
        self.all.items()
    }

    /// Lends the constraints that name a table, by its number: it refers, or is referred to. They are in order.
    pub fn of(&self, table: u32) -> &[ForeignKey]
        ensures { result.now ≡ filter (names_table table) self.now }
    {
        self.by_table.at(table)
    }
}

impl ByTable {
    fn of(alloc: Global, keys: &[ForeignKey]) -> Result<ByTable, AllocError>
        ensures { IfOk result (λ kept. AreFound kept keys.now) }
    {
        let mut kept = ByTable {
            lists: IndexMap::new(alloc),
        };
        for key in keys {
            kept.add(alloc, key)?;
        }
        Ok(kept)
    }

    fn at(&self, table: u32) -> &[ForeignKey]
        ensures { result.now ≡ found_at self.now table }
    {
        match self.lists.get(&table) {
            Some(keys) => keys.items(),
            None => &[],
        }
    }

    /// Keeps a constraint after the others of the tables that it names.
    fn add(&mut self, alloc: Global, key: &ForeignKey) -> Result<(), AllocError>
        ensures { OnOk result (KeepsAlso (λ t. names_table t key.now) key.now self.old self.new) }
    {
        self.add_at(alloc, key.from, key)?;
        if key.to != key.from {
            self.add_at(alloc, key.to, key)?;
        }
        Ok(())
    }

    /// Keeps a constraint after the others of one table.
    fn add_at(&mut self, alloc: Global, table: u32, key: &ForeignKey) -> Result<(), AllocError>
        ensures { OnOk result (KeepsAlso (nat_eq table) key.now self.old self.new) }
    {
        let mut keys = match self.lists.swap_remove(&table) {
            Some(keys) => keys.into_vec(),
            None => Vec::new(alloc),
        };
        keys.push(key.copy(alloc)?)?;
        self.lists.insert(table, List::of(keys))?;
        Ok(())
    }
}
