//! Groups of rows.
ghost use Rattle.std.specs.Prelude.{◌≡◌, ◌<◌, length, IfOk};
ghost use Rattle.psm_store.specs.Kept.{IsOpen};
ghost use Rattle.psm_undostore.specs.Undo.{IsHeld, tables_of};
ghost use Rattle.store_rows.specs.Alone.{IsAlone};
ghost use Rattle.store_rows.specs.Bench.{IsBench};

use crate::alone::Alone;
use crate::answer::answer;
use crate::bench::Bench;
use crate::definition::definition;
use crate::fault::Fault;
use anyhow::{Result, bail};
use psm_store::{CopyStore, Steps, Store};
use psm_undostore::UndoStore;
use std::alloc::Global;
use std::marker::Brand;
use std::sync::ledger::{Blank, Ledger};

/// Prints each row of the groups, which stand after an empty line each, with what is answered to it.
pub fn print_groups(rt: &impl Print, alloc: Global, text: String) -> Result<()> {
    let display = reported_groups::<Brand>(alloc, text, Blank::new(1))?;
    print!(rt; "{display}")?;
    Ok(())
}

// The row steps are counted, and nothing is done with their number.
fn reported_groups<L: Ledger>(alloc: Global, text: String, blank: Blank) -> Result<String>
    requires name { blank.name ≡ L.name }
    requires parts { blank.parts ≡ L.parts }
    requires some { 0 < blank.parts }
{
    let mut steps: Steps<L> = Steps::open(blank);
    let mut display = String::new(alloc);
    for (number, rows) in text.split("\n\n").enumerate() {
        if number > 0 {
            display.push_str("\n")?;
        }
        let group = reported_group(alloc, rows, &mut steps)?;
        display.push_str(group.as_str())?;
    }
    Ok(display)
}

// A group begins with empty tables.
fn reported_group<L: Ledger>(alloc: Global, rows: &str, steps: &mut Steps<L>) -> Result<String> {
    let Ok(mut alone) = Alone::new(alloc) else {
        bail!("no table");
    };
    let (Ok(mut copies), Ok(mut journal)) = (copying(alloc), journaling(alloc)) else {
        bail!("no store");
    };
    reported_rows(alloc, rows, &mut alone, &mut copies, &mut journal, steps)
}

// A store of two tables that keeps copies.
#[tactic(auto, using(crate::proofs::Benches::new_bench))]
fn copying(alloc: Global) -> Result<Bench<CopyStore>, Fault>
    ensures { IfOk result (λ b. IsBench b.store.tables (length b.store.marks) (IsOpen b.store) b.marks.items) }
{
    let first = definition(alloc)?;
    let second = definition(alloc)?;
    let store = CopyStore::new(alloc, vec![in alloc; first, second]?, &[])?;
    Ok(Bench {
        store,
        marks: Vec::new(alloc),
    })
}

// A store of two tables that keeps a journal.
#[tactic(auto, using(crate::proofs::Benches::new_bench))]
fn journaling(alloc: Global) -> Result<Bench<UndoStore>, Fault>
    ensures { IfOk result (λ b. IsBench (tables_of b.store) b.store.marks (IsHeld b.store) b.marks.items) }
{
    let first = definition(alloc)?;
    let second = definition(alloc)?;
    let store = UndoStore::new(alloc, vec![in alloc; first, second]?, &[])?;
    Ok(Bench {
        store,
        marks: Vec::new(alloc),
    })
}

fn reported_rows<S: Store, T: Store, L: Ledger>(
    alloc: Global,
    rows: &str,
    alone: &mut Alone,
    copies: &mut Bench<S>,
    journal: &mut Bench<T>,
    steps: &mut Steps<L>,
) -> Result<String>
    requires alone { IsAlone alone.old.table alone.old.left }
    requires copies { IsBench (S.tables copies.old.store) (S.marks copies.old.store) (S.holds copies.old.store) copies.old.marks.items }
    requires journal { IsBench (T.tables journal.old.store) (T.marks journal.old.store) (T.holds journal.old.store) journal.old.marks.items }
{
    let mut display = String::new(alloc);
    'rows: for row in rows.lines() {
        let one = reported_row(alloc, row, alone, copies, journal, steps)?;
        display.push_str(one.as_str())?;
        display.push_str("\n")?;
    }
    Ok(display)
}

// A line that begins with `#` is printed as it is.
fn reported_row<S: Store, T: Store, L: Ledger>(
    alloc: Global,
    row: &str,
    alone: &mut Alone,
    copies: &mut Bench<S>,
    journal: &mut Bench<T>,
    steps: &mut Steps<L>,
) -> Result<String>
    requires alone { IsAlone alone.old.table alone.old.left }
    requires copies { IsBench (S.tables copies.old.store) (S.marks copies.old.store) (S.holds copies.old.store) copies.old.marks.items }
    requires journal { IsBench (T.tables journal.old.store) (T.marks journal.old.store) (T.holds journal.old.store) journal.old.marks.items }
    ensures alone { IsAlone alone.new.table alone.new.left }
    ensures copies { IsBench (S.tables copies.new.store) (S.marks copies.new.store) (S.holds copies.new.store) copies.new.marks.items }
    ensures journal { IsBench (T.tables journal.new.store) (T.marks journal.new.store) (T.holds journal.new.store) journal.new.marks.items }
{
    if row.starts_with('#') {
        return Ok(String::from_str(alloc, row)?);
    }
    let answer = answer(alloc, row, alone, copies, journal, steps)?;
    Ok(format!(in alloc; "{row} | {answer}")?)
}
