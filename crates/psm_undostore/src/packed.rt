//! Entries as the journal keeps them.
ghost use Rattle.std.specs.Prelude.{◌≡◌};
ghost use Rattle.psm_table.specs.Parts.{values_of};
ghost use Rattle.psm_undostore.specs.Packed.{entry_of};
ghost use Rattle.psm_undostore.specs.declared.entry.Change.TheVariants.{Inserted as InsertedKey};

use crate::entry::{Change, Entry};
use psm_num::Dec;
use psm_table::{Key, Parts, Row};
use psm_text::Text;
use psm_value::Datum;
use std::marker::Model;

/// An entry in four words: what kind of change it is and the table's number are one, and a key of one value is kept without the
/// words that say what kind of value it is. It is seen as the entry.
#[derive(Drop)]
pub(crate) struct Packed {
    kept: Kept,
}

#[derive(Drop)]
enum Kept {
    InsertedNull { table: u32 },
    InsertedNumber { table: u32, number: Dec },
    InsertedText { table: u32, text: Text },
    InsertedValues { table: u32, values: Vec<Datum> },
    Erased { table: u32, row: Row },
    Changed { table: u32, row: Row },
}

impl Model for Packed {
    ghost use Rattle.psm_undostore.specs.declared.entry.Entry.{Entry as Unpacked};
    ghost use Rattle.psm_undostore.specs.Packed.{entry_of};

    ghost Value = { Unpacked };

    ghost view = { λ p. entry_of p.kept };
}

impl Packed {
    /// An entry, packed. It takes no memory.
    pub(crate) fn of(entry: Entry) -> Packed
        ensures { result ≡ entry }
    {
        let Entry { table, change } = entry;
        let kept = match change {
            Change::Inserted(key) => inserted(table, key.into_parts()),
            Change::Erased(row) => Kept::Erased { table, row },
            Change::Changed(row) => Kept::Changed { table, row },
        };
        Packed { kept }
    }

    /// The entry. It takes no memory.
    pub(crate) fn into_entry(self) -> Entry
        ensures { result ≡ self }
    {
        let Packed { kept } = self;
        match kept {
            Kept::InsertedNull { table } => put_in(table, Parts::One([Datum::Null])),
            Kept::InsertedNumber { table, number } => put_in(
                table,
                Parts::One([Datum::Num(number)]),
            ),
            Kept::InsertedText { table, text } => put_in(table, Parts::One([Datum::Text(text)])),
            Kept::InsertedValues { table, values } => put_in(table, Parts::Many(values)),
            Kept::Erased { table, row } => Entry {
                table,
                change: Change::Erased(row),
            },
            Kept::Changed { table, row } => Entry {
                table,
                change: Change::Changed(row),
            },
        }
    }
}

// What is kept of a row that was put in, by the parts of its key.
fn inserted(table: u32, parts: Parts) -> Kept
    ensures { entry_of result ≡ record { table = table; change = InsertedKey (values_of parts) } }
{
    match parts {
        Parts::One([value]) => match value {
            Datum::Null => Kept::InsertedNull { table },
            Datum::Num(number) => Kept::InsertedNumber { table, number },
            Datum::Text(text) => Kept::InsertedText { table, text },
        },
        Parts::Many(values) => Kept::InsertedValues { table, values },
    }
}

// The entry of a row that was put in, by the parts of its key.
fn put_in(table: u32, parts: Parts) -> Entry
    ensures { result ≡ record { table = table; change = InsertedKey (values_of parts) } }
{
    Entry {
        table,
        change: Change::Inserted(Key::of_parts(parts)),
    }
}
