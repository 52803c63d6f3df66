//! Row calls without a mark: nothing of them is kept, and a tidy table stays tidy.
ghost use Rattle.std.specs.Prelude.{◌≡◌, ◌<◌, All, IfSome, length, slice_get};
ghost use Rattle.psm_table.specs.Definition.{IsRow, IsKey};
ghost use Rattle.psm_table.specs.State.{IsTidy};
ghost use Rattle.psm_table.specs.Table.{keyed, namesake, with_row, without_row};
ghost use Rattle.psm_store.specs.RowCalls.{AnswersFound, AnswersInsert, after, row_after};
ghost use Rattle.psm_undostore.specs.Undone.{contents_of};

use psm_table::{Key, Row, RowFault, Steps, Table};
use std::marker::Brand;
use std::sync::ledger::{Blank, Ledger};

pub(crate) fn insert(tables: &mut [Table], t: u32, row: Row) -> Result<(), RowFault>
    requires exists { t < length tables.old }
    requires fits { IfSome (slice_get (contents_of tables.old) t) (λ c. IsRow c.def row) }
    ensures answer { IfSome (slice_get (contents_of tables.old) t) (AnswersInsert row result) }
    ensures tables { contents_of tables.new ≡ after result (λ c. with_row c row) (contents_of tables.old) t }
    ensures tidy { All IsTidy tables.old → All IsTidy tables.new }
{
    insert_row::<Brand>(&mut tables[t as usize], row, Blank::new(1))
}

pub(crate) fn erase(tables: &mut [Table], t: u32, key: &Key) -> Result<(), RowFault>
    requires exists { t < length tables.old }
    requires fits { IfSome (slice_get (contents_of tables.old) t) (λ c. IsKey c.def key.now) }
    ensures answer { IfSome (slice_get (contents_of tables.old) t) (λ c. AnswersFound (keyed c key.now) result) }
    ensures tables { contents_of tables.new ≡ after result (without_row key.now) (contents_of tables.old) t }
    ensures tidy { All IsTidy tables.old → All IsTidy tables.new }
{
    erase_row::<Brand>(&mut tables[t as usize], key, Blank::new(1))
}

pub(crate) fn change(tables: &mut [Table], t: u32, row: Row) -> Result<(), RowFault>
    requires exists { t < length tables.old }
    requires fits { IfSome (slice_get (contents_of tables.old) t) (λ c. IsRow c.def row) }
    ensures answer { IfSome (slice_get (contents_of tables.old) t) (λ c. AnswersFound (namesake c row) result) }
    ensures tables { contents_of tables.new ≡ after result (λ c. with_row c row) (contents_of tables.old) t }
    ensures tidy { All IsTidy tables.old → All IsTidy tables.new }
{
    change_row::<Brand>(&mut tables[t as usize], row, Blank::new(1))
}

/// Puts a row into a table. The step isn't counted.
fn insert_row<L: Ledger>(table: &mut Table, row: Row, blank: Blank) -> Result<(), RowFault>
    requires name { blank.name ≡ L.name }
    requires parts { blank.parts ≡ L.parts }
    requires some { 0 < blank.parts }
    requires fits { IsRow table.old.contents.def row }
    ensures answer { AnswersInsert row result table.old.contents }
    ensures table { table.new.contents ≡ row_after result (λ c. with_row c row) table.old.contents }
    ensures tidy { IsTidy table.old → IsTidy table.new }
{
    let mut steps: Steps<L> = Steps::open(blank);
    table.insert(row, &mut steps)
}

/// Takes the row that has the key out of a table. The step isn't counted.
fn erase_row<L: Ledger>(table: &mut Table, key: &Key, blank: Blank) -> Result<(), RowFault>
    requires name { blank.name ≡ L.name }
    requires parts { blank.parts ≡ L.parts }
    requires some { 0 < blank.parts }
    requires fits { IsKey table.old.contents.def key.now }
    ensures answer { AnswersFound (keyed table.old.contents key.now) result }
    ensures table { table.new.contents ≡ row_after result (without_row key.now) table.old.contents }
    ensures tidy { IsTidy table.old → IsTidy table.new }
{
    if table.get(key).is_none() {
        return Err(RowFault::Absent);
    }
    let mut steps: Steps<L> = Steps::open(blank);
    let _row = table.erase(key, &mut steps);
    Ok(())
}

/// Puts a row in the place of the row that has its key. The step isn't counted.
fn change_row<L: Ledger>(table: &mut Table, row: Row, blank: Blank) -> Result<(), RowFault>
    requires name { blank.name ≡ L.name }
    requires parts { blank.parts ≡ L.parts }
    requires some { 0 < blank.parts }
    requires fits { IsRow table.old.contents.def row }
    ensures answer { AnswersFound (namesake table.old.contents row) result }
    ensures table { table.new.contents ≡ row_after result (λ c. with_row c row) table.old.contents }
    ensures tidy { IsTidy table.old → IsTidy table.new }
{
    let mut steps: Steps<L> = Steps::open(blank);
    match table.change(row, &mut steps) {
        Ok(_) => Ok(()),
        Err(fault) => Err(fault),
    }
}
