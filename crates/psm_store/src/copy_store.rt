//! A store that keeps whole copies of its tables.
ghost use Rattle.std.specs.Prelude.{◌≡◌, ◌+◌, ◌^◌, ◌<◌, [], ◌++◌, map, All, IfOk, OnOk, OnErr, length, replicate};
ghost use Rattle.psm_table.specs.Definition.{IsDefinition};
ghost use Rattle.psm_table.specs.Table.{empty_table};
ghost use Rattle.psm_store.specs.Kept.{IsOpen, stands_for};

use crate::copies::Copies;
use crate::store::{Mark, Store};
use crate::tables::Tables;
use psm_table::{ForeignKey, Key, Row, RowFault, Steps, Table, TableDef};
use std::alloc::{AllocError, Global};
use std::marker::Model;
use std::sync::ledger::Ledger;

/// A store that keeps whole copies of its tables.
///
/// Marks between which nothing was changed share a copy, which is made by the first change under them. A
/// mark takes no memory, and neither do a rollback, which moves the copy back, and a release.
#[derive(Drop)]
pub struct CopyStore {
    tables: Tables,
    copies: Copies,
    /// How many marks stand for the tables of now and have no copy yet: the deepest ones.
    uncopied: u128,
}

impl Model for CopyStore {
    ghost use Rattle.psm_store.specs.Kept.{IsKept, Kept, kept_of};

    ghost Value = { Kept };

    ghost view = { λ s. kept_of s.tables s.copies s.uncopied };

    ghost invariant = { λ s. IsKept (kept_of s.tables s.copies s.uncopied) };
}

impl CopyStore {
    /// A store of empty tables, with no mark open. The columns of each constraint are indexed in the referencing table, if it
    /// is there.
    pub fn new(
        alloc: Global,
        defs: Vec<TableDef>,
        keys: &[ForeignKey],
    ) -> Result<CopyStore, AllocError>
        requires { All IsDefinition defs.items }
        ensures tables { IfOk result (λ s. s.tables ≡ map empty_table defs.items) }
        ensures marks { IfOk result (λ s. s.marks ≡ []) }
    {
        Ok(CopyStore {
            tables: Tables::new(alloc, defs, keys)?,
            copies: Copies::new(alloc),
            uncopied: 0,
        })
    }
}

impl Store for CopyStore {
    ghost tables = { λ s. s.tables };

    ghost marks = { λ s. length s.marks };

    ghost holds = { IsOpen };

    ghost at = { stands_for };

    ghost below = { λ s m h. h.depth };

    fn table(&self, t: u32) -> &Table {
        self.tables.get(t)
    }

    fn mark(&mut self, _alloc: Global) -> Result<Mark, AllocError> {
        let depth = self.copies.len() + self.uncopied;
        self.uncopied += 1;
        Ok(Mark { depth, position: 0 })
    }

    fn rollback<L: Ledger>(&mut self, mark: Mark, _steps: &mut Steps<L>) {
        self.copies.restore(mark.depth, &mut self.tables);
        self.uncopied = mark.depth + 1 - self.copies.len();
    }

    fn release(&mut self, mark: Mark) {
        self.copies.truncate(mark.depth);
        self.uncopied = mark.depth - self.copies.len();
    }

    fn insert(&mut self, alloc: Global, t: u32, row: Row) -> Result<(), RowFault> {
        let table = self.tables.get(t);
        if table.is_full() {
            return Err(RowFault::Full);
        }
        if table.namesake(&row).is_some() {
            return Err(RowFault::Duplicate);
        }
        keep(alloc, &self.tables, &mut self.copies, &mut self.uncopied)?;
        self.tables.insert(t, row)
    }

    fn erase(&mut self, alloc: Global, t: u32, key: &Key) -> Result<(), RowFault> {
        if self.tables.get(t).get(key).is_none() {
            return Err(RowFault::Absent);
        }
        keep(alloc, &self.tables, &mut self.copies, &mut self.uncopied)?;
        self.tables.erase(t, key)
    }

    fn change(&mut self, alloc: Global, t: u32, row: Row) -> Result<(), RowFault> {
        if self.tables.get(t).namesake(&row).is_none() {
            return Err(RowFault::Absent);
        }
        keep(alloc, &self.tables, &mut self.copies, &mut self.uncopied)?;
        self.tables.change(t, row)
    }
}

/// Makes the copy for the marks that have none yet.
fn keep(
    alloc: Global,
    tables: &Tables,
    copies: &mut Copies,
    uncopied: &mut u128,
) -> Result<(), AllocError>
    requires { length copies.old + uncopied.old < 2 ^ 128 }
    ensures all_copied { OnOk result (uncopied.new ≡ 0) }
    ensures copies { OnOk result (copies.new ≡ copies.old ++ replicate uncopied.old tables.now) }
    ensures err_uncopied { OnErr result (uncopied.new ≡ uncopied.old) }
    ensures err_copies { OnErr result (copies.new ≡ copies.old) }
{
    let marks = *uncopied;
    if marks > 0 {
        copies.push(tables.copy(alloc)?, marks)?;
        *uncopied = 0;
    }
    Ok(())
}
