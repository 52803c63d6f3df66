//! A store, and the marks that rows have opened in it.
ghost use Rattle.std.specs.Prelude.{◌≡◌, ◌<◌, ◌≤◌, ◌∷◌, [], length, map, IfOk, IfSome, slice_get};
ghost use Rattle.store_rows.specs.Bench.{IsBench};
ghost use Rattle.store_rows.specs.Parts.{IsPartsKey, IsPartsRow, IsPartsTable};

use crate::call::{Call, Change, Look};
use crate::display;
use crate::fault::Fault;
use crate::like::{numbered_key, numbered_row};
use crate::look::looked;
use psm_store::{Key, Mark, Row, Steps, Store, Table};
use std::alloc::Global;
use std::sync::ledger::Ledger;

const MOST_MARKS: usize = 100;

/// A store of two tables, and the marks that are open in it, outermost first.
#[derive(Drop)]
pub struct Bench<S: Store> {
    pub store: S,
    pub marks: Vec<Mark>,
}

impl<S: Store> Bench<S> {
    /// What the store answers to a call on that table.
    pub fn answered<L: Ledger>(
        &mut self,
        alloc: Global,
        t: u32,
        call: &Call<'_>,
        steps: &mut Steps<L>,
    ) -> Result<String, Fault>
        requires { IsBench (S.tables self.old.store) (S.marks self.old.store) (S.holds self.old.store) self.old.marks.items }
        ensures { IsBench (S.tables self.new.store) (S.marks self.new.store) (S.holds self.new.store) self.new.marks.items }
    {
        match call {
            Call::Look(look) => self.looked(alloc, t, look),
            Call::Change(change) => display::done(alloc, self.changed(alloc, t, change)),
            Call::Mark => self.mark(alloc),
            Call::Rollback(depth) => self.rollback(alloc, *depth, steps),
            Call::Release(depth) => self.release(alloc, *depth),
            _ => Err(Fault::NoRow),
        }
    }

    fn looked(&self, alloc: Global, t: u32, look: &Look<'_>) -> Result<String, Fault>
        requires { IsBench (S.tables self.now.store) (S.marks self.now.store) (S.holds self.now.store) self.now.marks.items }
    {
        if t < 2 {
            looked(alloc, self.table(t), look)
        } else {
            Err(Fault::NoRow)
        }
    }

    #[tactic(auto, using(crate::proofs::PartsRows::table_of))]
    fn table(&self, t: u32) -> &Table
        requires bench { IsBench (S.tables self.now.store) (S.marks self.now.store) (S.holds self.now.store) self.now.marks.items }
        requires exists { t < 2 }
        ensures { IsPartsTable result.now.contents.def }
    {
        self.store.table(t)
    }

    fn changed(&mut self, alloc: Global, t: u32, change: &Change<'_>) -> Result<(), Fault>
        requires { IsBench (S.tables self.old.store) (S.marks self.old.store) (S.holds self.old.store) self.old.marks.items }
        ensures { IsBench (S.tables self.new.store) (S.marks self.new.store) (S.holds self.new.store) self.new.marks.items }
    {
        match change {
            Change::Insert(like) => self.insert(alloc, t, like.made(alloc)?),
            Change::Replace(like) => self.replace(alloc, t, like.made(alloc)?),
            Change::Erase(like) => self.erase(alloc, t, &like.made(alloc)?),
            Change::Fill(from, to) => self.fill(alloc, t, *from, *to),
            Change::Drain(from, to) => self.drain(alloc, t, *from, *to),
        }
    }

    #[tactic(auto, using(crate::proofs::Benches::kept, crate::proofs::PartsRows::row_fits_at))]
    fn insert(&mut self, alloc: Global, t: u32, row: Row) -> Result<(), Fault>
        requires parts { IsPartsRow row }
        requires bench { IsBench (S.tables self.old.store) (S.marks self.old.store) (S.holds self.old.store) self.old.marks.items }
        ensures { IsBench (S.tables self.new.store) (S.marks self.new.store) (S.holds self.new.store) self.new.marks.items }
    {
        if t >= 2 {
            return Err(Fault::NoRow);
        }
        Ok(self.store.insert(alloc, t, row)?)
    }

    #[tactic(auto, using(crate::proofs::Benches::kept, crate::proofs::PartsRows::row_fits_at))]
    fn replace(&mut self, alloc: Global, t: u32, row: Row) -> Result<(), Fault>
        requires parts { IsPartsRow row }
        requires bench { IsBench (S.tables self.old.store) (S.marks self.old.store) (S.holds self.old.store) self.old.marks.items }
        ensures { IsBench (S.tables self.new.store) (S.marks self.new.store) (S.holds self.new.store) self.new.marks.items }
    {
        if t >= 2 {
            return Err(Fault::NoRow);
        }
        Ok(self.store.change(alloc, t, row)?)
    }

    #[tactic(auto, using(crate::proofs::Benches::kept, crate::proofs::PartsRows::key_fits_at))]
    fn erase(&mut self, alloc: Global, t: u32, key: &Key) -> Result<(), Fault>
        requires parts { IsPartsKey key.now }
        requires bench { IsBench (S.tables self.old.store) (S.marks self.old.store) (S.holds self.old.store) self.old.marks.items }
        ensures { IsBench (S.tables self.new.store) (S.marks self.new.store) (S.holds self.new.store) self.new.marks.items }
    {
        if t >= 2 {
            return Err(Fault::NoRow);
        }
        Ok(self.store.erase(alloc, t, key)?)
    }

    fn fill(&mut self, alloc: Global, t: u32, from: u32, to: u32) -> Result<(), Fault>
        requires bench { IsBench (S.tables self.old.store) (S.marks self.old.store) (S.holds self.old.store) self.old.marks.items }
        ensures { IsBench (S.tables self.new.store) (S.marks self.new.store) (S.holds self.new.store) self.new.marks.items }
    {
        'fill: for size in from..to {
            self.insert(alloc, t, numbered_row(alloc, size, size)?)?;
        }
        Ok(())
    }

    fn drain(&mut self, alloc: Global, t: u32, from: u32, to: u32) -> Result<(), Fault>
        requires bench { IsBench (S.tables self.old.store) (S.marks self.old.store) (S.holds self.old.store) self.old.marks.items }
        ensures { IsBench (S.tables self.new.store) (S.marks self.new.store) (S.holds self.new.store) self.new.marks.items }
    {
        'drain: for size in from..to {
            self.erase(alloc, t, &numbered_key(alloc, size)?)?;
        }
        Ok(())
    }

    // How many marks were open before the new one.
    #[tactic(auto, using(crate::proofs::Benches::opened, crate::proofs::Benches::kept))]
    fn mark(&mut self, alloc: Global) -> Result<String, Fault>
        requires bench { IsBench (S.tables self.old.store) (S.marks self.old.store) (S.holds self.old.store) self.old.marks.items }
        ensures { IsBench (S.tables self.new.store) (S.marks self.new.store) (S.holds self.new.store) self.new.marks.items }
    {
        if self.marks.len() >= MOST_MARKS {
            return Err(Fault::NoRow);
        }
        let mark = self.store.mark(alloc)?;
        match self.marks.push(mark) {
            Ok(()) => display::depth(alloc, mark.depth),
            Err(_) => {
                self.store.release(mark);
                Err(Fault::Memory)
            }
        }
    }

    #[tactic(auto, using(crate::proofs::Benches::rolled))]
    fn rollback<L: Ledger>(
        &mut self,
        alloc: Global,
        depth: u32,
        steps: &mut Steps<L>,
    ) -> Result<String, Fault>
        requires bench { IsBench (S.tables self.old.store) (S.marks self.old.store) (S.holds self.old.store) self.old.marks.items }
        ensures { IsBench (S.tables self.new.store) (S.marks self.new.store) (S.holds self.new.store) self.new.marks.items }
    {
        let place = depth as usize;
        if place >= self.marks.len() {
            return Err(Fault::NoRow);
        }
        self.store.rollback(self.marks[place], steps);
        self.marks.truncate(place + 1);
        display::word(alloc, "ok")
    }

    #[tactic(auto, using(crate::proofs::Benches::closed))]
    fn release(&mut self, alloc: Global, depth: u32) -> Result<String, Fault>
        requires bench { IsBench (S.tables self.old.store) (S.marks self.old.store) (S.holds self.old.store) self.old.marks.items }
        ensures { IsBench (S.tables self.new.store) (S.marks self.new.store) (S.holds self.new.store) self.new.marks.items }
    {
        let place = depth as usize;
        if place >= self.marks.len() {
            return Err(Fault::NoRow);
        }
        self.store.release(self.marks[place]);
        self.marks.truncate(place);
        display::word(alloc, "ok")
    }
}
