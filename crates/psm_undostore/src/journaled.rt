//! Row calls that a journal records: each reserves its entry before it changes the table.
ghost use Rattle.std.specs.Prelude.{◌≡◌, ◌<◌, ◌≤◌};
ghost use Rattle.psm_table.specs.Definition.{IsRow, IsKey};
ghost use Rattle.psm_table.specs.Table.{keyed, namesake, with_row, without_row};
ghost use Rattle.psm_store.specs.RowCalls.{AnswersFound, AnswersInsert, row_after};
ghost use Rattle.psm_undostore.specs.Journal.{Records};

use crate::entry::{Change, Entry};
use crate::packed::Packed;
use psm_segstack::SegStack;
use psm_table::{Key, Row, RowFault, Steps, Table};
use std::alloc::Global;
use std::sync::ledger::{Blank, Ledger};

/// Puts a row into table number `t`. The step isn't counted.
pub(crate) fn insert_row<L: Ledger>(
    alloc: Global,
    entries: &mut SegStack<Packed>,
    t: u32,
    table: &mut Table,
    row: Row,
    blank: Blank,
) -> Result<(), RowFault>
    requires name { blank.name ≡ L.name }
    requires parts { blank.parts ≡ L.parts }
    requires some { 0 < blank.parts }
    requires fits { IsRow table.old.contents.def row }
    ensures answer { AnswersInsert row result table.old.contents }
    ensures table { table.new.contents ≡ row_after result (λ c. with_row c row) table.old.contents }
    ensures entry { Records result t table.old table.new entries.old.items entries.new.items }
{
    let _def = table.def();
    entries.reserve()?;
    let key = table.key_of(alloc, &row)?;
    let mut steps: Steps<L> = Steps::open(blank);
    table.insert(row, &mut steps)?;
    entries.push(Packed::of(Entry {
        table: t,
        change: Change::Inserted(key),
    }));
    Ok(())
}

/// Takes the row that has the key out of table number `t`. The step isn't counted.
pub(crate) fn erase_row<L: Ledger>(
    entries: &mut SegStack<Packed>,
    t: u32,
    table: &mut Table,
    key: &Key,
    blank: Blank,
) -> Result<(), RowFault>
    requires name { blank.name ≡ L.name }
    requires parts { blank.parts ≡ L.parts }
    requires some { 0 < blank.parts }
    requires fits { IsKey table.old.contents.def key.now }
    ensures answer { AnswersFound (keyed table.old.contents key.now) result }
    ensures table { table.new.contents ≡ row_after result (without_row key.now) table.old.contents }
    ensures entry { Records result t table.old table.new entries.old.items entries.new.items }
{
    let _def = table.def();
    entries.reserve()?;
    let mut steps: Steps<L> = Steps::open(blank);
    match table.hide(key, &mut steps) {
        Some(row) => {
            entries.push(Packed::of(Entry {
                table: t,
                change: Change::Erased(row),
            }));
            Ok(())
        }
        None => Err(RowFault::Absent),
    }
}

/// Puts a row in the place of the row that has its key in table number `t`. The step isn't counted.
pub(crate) fn change_row<L: Ledger>(
    entries: &mut SegStack<Packed>,
    t: u32,
    table: &mut Table,
    row: Row,
    blank: Blank,
) -> Result<(), RowFault>
    requires name { blank.name ≡ L.name }
    requires parts { blank.parts ≡ L.parts }
    requires some { 0 < blank.parts }
    requires fits { IsRow table.old.contents.def row }
    ensures answer { AnswersFound (namesake table.old.contents row) result }
    ensures table { table.new.contents ≡ row_after result (λ c. with_row c row) table.old.contents }
    ensures entry { Records result t table.old table.new entries.old.items entries.new.items }
{
    let _def = table.def();
    entries.reserve()?;
    let mut steps: Steps<L> = Steps::open(blank);
    match table.swap(row, &mut steps) {
        Ok(was) => {
            entries.push(Packed::of(Entry {
                table: t,
                change: Change::Changed(was),
            }));
            Ok(())
        }
        Err(fault) => Err(fault),
    }
}
