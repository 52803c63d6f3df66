//! A table that stands alone, and the row that was taken out of it last.
ghost use Rattle.std.specs.Prelude.{IfOk};
ghost use Rattle.store_rows.specs.Alone.{IsAlone};
ghost use Rattle.store_rows.specs.Parts.{IsPartsKey, IsPartsRow};

use crate::call::{Call, Change};
use crate::definition::definition;
use crate::display;
use crate::fault::Fault;
use crate::look::looked;
use psm_table::{Key, Row, Steps, Table};
use std::alloc::Global;
use std::sync::ledger::Ledger;

const MOST_ROWS: u32 = 200_000;

/// A table, and the row that `hide` or `swap` gave last, if it may be put back.
#[derive(Drop)]
pub struct Alone {
    pub table: Table,
    pub left: Option<Row>,
}

impl Alone {
    pub fn new(alloc: Global) -> Result<Alone, Fault>
        ensures { IfOk result (λ a. IsAlone a.table a.left) }
    {
        Ok(Alone {
            table: Table::new(alloc, definition(alloc)?)?,
            left: None,
        })
    }

    /// What the table answers to a call.
    pub fn answered<L: Ledger>(
        &mut self,
        alloc: Global,
        call: &Call<'_>,
        steps: &mut Steps<L>,
    ) -> Result<String, Fault>
        requires { IsAlone self.old.table self.old.left }
        ensures { IsAlone self.new.table self.new.left }
    {
        match call {
            Call::Look(look) => looked(alloc, &self.table, look),
            Call::Change(Change::Insert(like)) => self.insert(alloc, like.made(alloc)?, steps),
            Call::Hide(like) => self.hide(alloc, &like.made(alloc)?, steps),
            Call::Swap(like) => self.swap(alloc, like.made(alloc)?, steps),
            Call::Revive => self.revive(alloc, steps),
            Call::Settle => self.settle(alloc),
            Call::Change(_) | Call::Mark | Call::Rollback(_) | Call::Release(_) => Err(
                Fault::NoRow,
            ),
        }
    }

    #[tactic(auto, using(crate::proofs::PartsRows::row_fits))]
    fn insert<L: Ledger>(
        &mut self,
        alloc: Global,
        row: Row,
        steps: &mut Steps<L>,
    ) -> Result<String, Fault>
        requires alone { IsAlone self.old.table self.old.left }
        requires parts { IsPartsRow row }
        ensures { IsAlone self.new.table self.new.left }
    {
        self.table.insert(row, steps)?;
        display::word(alloc, "ok")
    }

    // The row that had the key. It is kept.
    #[tactic(auto, using(crate::proofs::PartsRows::key_fits))]
    fn hide<L: Ledger>(
        &mut self,
        alloc: Global,
        key: &Key,
        steps: &mut Steps<L>,
    ) -> Result<String, Fault>
        requires alone { IsAlone self.old.table self.old.left }
        requires parts { IsPartsKey key.now }
        ensures { IsAlone self.new.table self.new.left }
    {
        self.left = self.table.hide(key, steps);
        display::row(alloc, self.left.as_ref())
    }

    // The row that had the key. It is kept.
    #[tactic(auto, using(crate::proofs::PartsRows::row_fits))]
    fn swap<L: Ledger>(
        &mut self,
        alloc: Global,
        row: Row,
        steps: &mut Steps<L>,
    ) -> Result<String, Fault>
        requires alone { IsAlone self.old.table self.old.left }
        requires parts { IsPartsRow row }
        ensures { IsAlone self.new.table self.new.left }
    {
        self.left = Some(self.table.swap(row, steps)?);
        display::row(alloc, self.left.as_ref())
    }

    fn revive<L: Ledger>(&mut self, alloc: Global, steps: &mut Steps<L>) -> Result<String, Fault>
        requires { IsAlone self.old.table self.old.left }
        ensures { IsAlone self.new.table self.new.left }
    {
        if self.table.len() == MOST_ROWS {
            return Err(Fault::NoRow);
        }
        let row = self.left.take().ok_or(Fault::NoRow)?;
        self.table.revive(row, steps);
        display::word(alloc, "ok")
    }

    fn settle(&mut self, alloc: Global) -> Result<String, Fault>
        requires { IsAlone self.old.table self.old.left }
        ensures { IsAlone self.new.table self.new.left }
    {
        self.left = None;
        self.table.settle();
        display::word(alloc, "ok")
    }
}
