//! What is printed after a row.
ghost use Rattle.store_rows.specs.Alone.{IsAlone};
ghost use Rattle.store_rows.specs.Bench.{IsBench};

use crate::alone::Alone;
use crate::bench::Bench;
use crate::call::Call;
use crate::fault::Fault;
use crate::operands::Operands;
use psm_store::{Steps, Store};
use std::alloc::{AllocError, Global};
use std::sync::ledger::Ledger;

/// A row: a call, and the table of the stores that it is for, or none for the one that stands alone.
#[derive(Clone, Copy)]
struct Row<'a> {
    call: Call<'a>,
    table: Option<u32>,
}

impl Row<'_> {
    /// The row of a line.
    fn of(line: &str) -> Result<Row<'_>, Fault> {
        let mut operands = Operands::of(line);
        let head = operands.word()?;
        let (operation, table) = match head.split_once('@') {
            Some((operation, number)) => (operation, Some(table_number(number)?)),
            None => (head, None),
        };
        let call = Call::named(operation, &mut operands)?;
        operands.end()?;
        let table = if call.is_of_marks() { Some(0) } else { table };
        Ok(Row { call, table })
    }
}

fn table_number(number: &str) -> Result<u32, Fault> {
    number.parse::<u32>().ok().ok_or(Fault::NoRow)
}

/// What is answered to a row: by both stores, or by the table that stands alone.
pub fn answer<S: Store, T: Store, L: Ledger>(
    alloc: Global,
    line: &str,
    alone: &mut Alone,
    copies: &mut Bench<S>,
    journal: &mut Bench<T>,
    steps: &mut Steps<L>,
) -> Result<String, AllocError>
    requires alone { IsAlone alone.old.table alone.old.left }
    requires copies { IsBench (S.tables copies.old.store) (S.marks copies.old.store) (S.holds copies.old.store) copies.old.marks.items }
    requires journal { IsBench (T.tables journal.old.store) (T.marks journal.old.store) (T.holds journal.old.store) journal.old.marks.items }
    ensures alone { IsAlone alone.new.table alone.new.left }
    ensures copies { IsBench (S.tables copies.new.store) (S.marks copies.new.store) (S.holds copies.new.store) copies.new.marks.items }
    ensures journal { IsBench (T.tables journal.new.store) (T.marks journal.new.store) (T.holds journal.new.store) journal.new.marks.items }
{
    match Row::of(line) {
        Ok(row) => match row.table {
            None => display(alloc, alone.answered(alloc, &row.call, steps)),
            Some(t) => both(alloc, t, &row.call, copies, journal, steps),
        },
        Err(fault) => fault.display(alloc),
    }
}

// What both stores answer, or what each does where they differ.
fn both<S: Store, T: Store, L: Ledger>(
    alloc: Global,
    t: u32,
    call: &Call<'_>,
    copies: &mut Bench<S>,
    journal: &mut Bench<T>,
    steps: &mut Steps<L>,
) -> Result<String, AllocError>
    requires copies { IsBench (S.tables copies.old.store) (S.marks copies.old.store) (S.holds copies.old.store) copies.old.marks.items }
    requires journal { IsBench (T.tables journal.old.store) (T.marks journal.old.store) (T.holds journal.old.store) journal.old.marks.items }
    ensures copies { IsBench (S.tables copies.new.store) (S.marks copies.new.store) (S.holds copies.new.store) copies.new.marks.items }
    ensures journal { IsBench (T.tables journal.new.store) (T.marks journal.new.store) (T.holds journal.new.store) journal.new.marks.items }
{
    let first = display(alloc, copies.answered(alloc, t, call, steps))?;
    let second = display(alloc, journal.answered(alloc, t, call, steps))?;
    if first.as_str() == second.as_str() {
        Ok(first)
    } else {
        format!(in alloc; "{first} by copies, {second} by the journal")
    }
}

fn display(alloc: Global, answer: Result<String, Fault>) -> Result<String, AllocError> {
    match answer {
        Ok(text) => Ok(text),
        Err(fault) => fault.display(alloc),
    }
}
