//! A store that undoes changes.
ghost use Rattle.std.specs.Prelude.{◌≡◌, ◌+◌, ◌*◌, ◌<◌, ◌≤◌, [], map, length, is_ok, if◌then◌else◌, All, Some, IfSome, IfOk, IsOk, slice_get};
ghost use Rattle.psm_table.specs.Definition.{IsDefinition, IsRow, IsKey};
ghost use Rattle.psm_table.specs.Table.{empty_table, keyed, namesake, with_row, without_row};
ghost use Rattle.psm_store.specs.Marks.{AnyMark, IsNewMark, IsOutside, Keeps, defs_of, marks_after, most_marks};
ghost use Rattle.psm_store.specs.RowCalls.{AnswersFound, AnswersInsert, after};
ghost use Rattle.psm_undostore.specs.Undo.{HasFewerSince, HasMoreSince, IsHeld, RestsTidy, since, stands_for, tables_of};

use crate::journal::Journal;
use crate::plain;
use crate::touched::Touched;
use psm_store::{Mark, Store, index_keys};
use psm_table::{ForeignKey, Key, Row, RowFault, Steps, Table, TableDef};
use std::alloc::{AllocError, Global};
use std::marker::Model;
use std::sync::ledger::Ledger;

/// A store that keeps the changes of rows since the outermost open mark, and undoes them in a rollback.
///
/// A mark, a rollback and a release take no memory, and what they cost doesn't depend on the size of a table nor on
/// how many tables there are: a release of the outermost mark looks once at each table that was changed since.
/// Without a mark no change is kept, and what each table keeps is no more than twice its rows and 64.
#[derive(Drop)]
pub struct UndoStore {
    tables: Vec<Table>,
    journal: Journal,
    marks: u128,
    touched: Touched,
}

impl Model for UndoStore {
    ghost use Rattle.psm_undostore.specs.Touched.{IsNoted};
    ghost use Rattle.psm_undostore.specs.Undo.{IsUndo, Undo};

    ghost Value = { Undo };

    ghost view = { λ s. record { states = s.tables.items; entries = s.journal; marks = s.marks } };

    ghost invariant = { λ s. IsUndo (record { states = s.tables.items; entries = s.journal; marks = s.marks }) ×
        IsNoted s.touched (record { states = s.tables.items; entries = s.journal; marks = s.marks }) };
}

impl UndoStore {
    /// A store of empty tables, with no mark open. The columns of each constraint are indexed in the referencing table, if it
    /// is there.
    pub fn new(
        alloc: Global,
        defs: Vec<TableDef>,
        keys: &[ForeignKey],
    ) -> Result<UndoStore, AllocError>
        requires { All IsDefinition defs.items }
        ensures tables { IfOk result (λ s. tables_of s ≡ map empty_table defs.items) }
        ensures marks { IfOk result (λ s. s.marks ≡ 0) }
        ensures tidy { IfOk result RestsTidy }
    {
        let mut tables = Vec::new(alloc);
        for def in defs {
            tables.push(Table::new(alloc, def)?)?;
        }
        index_keys(&mut tables, keys)?;
        let touched = Touched::new(alloc, tables.len())?;
        Ok(UndoStore {
            tables,
            journal: Journal::new(alloc),
            marks: 0,
            touched,
        })
    }
}

impl Store for UndoStore {
    ghost tables = { tables_of };

    ghost marks = { λ s. s.marks };

    ghost holds = { IsHeld };

    ghost at = { stands_for };

    ghost below = { λ s m h. h.depth };

    fn table(&self, t: u32) -> &Table {
        &self.tables[t as usize]
    }

    /// Takes no memory, and always gives a mark. No change is since the mark.
    fn mark(&mut self, _alloc: Global) -> Result<Mark, AllocError>
        requires { self.old.marks < most_marks }
        ensures ok { IsOk result }
        ensures tables { tables_of self.new ≡ tables_of self.old }
        ensures marks { self.new.marks ≡ marks_after self.old.marks result }
        ensures mark { IfOk result (IsNewMark self.old.marks (tables_of self.old) (IsHeld self.old) (IsHeld self.new) (stands_for self.new)) }
        ensures keeps { Keeps AnyMark (IsHeld self.old) (stands_for self.old) (IsHeld self.new) (stands_for self.new) }
        ensures since { IfOk result (λ mark. since self.new mark ≡ 0) }
        ensures others { HasMoreSince self.old self.new 0 }
    {
        let mark = Mark {
            depth: self.marks,
            position: self.journal.len(),
        };
        self.marks += 1;
        Ok(mark)
    }

    /// Takes no memory, and at most two row steps for each change since the mark.
    fn rollback<L: Ledger>(&mut self, mark: Mark, steps: &mut Steps<L>)
        requires { IsHeld self.old mark }
        ensures tables { tables_of self.new ≡ stands_for self.old mark }
        ensures defs { defs_of (tables_of self.new) ≡ defs_of (tables_of self.old) }
        ensures marks { self.new.marks ≡ mark.depth + 1 }
        ensures held { IsHeld self.new mark }
        ensures stands { stands_for self.new mark ≡ stands_for self.old mark }
        ensures keeps { Keeps (IsOutside mark) (IsHeld self.old) (stands_for self.old) (IsHeld self.new) (stands_for self.new) }
        ensures steps { steps.new ≤ steps.old + 2 * since self.old mark }
        ensures since { since self.new mark ≡ 0 }
        ensures others { HasFewerSince self.old self.new mark (since self.old mark) }
    {
        self.journal
            .undo(self.tables.as_mut_slice(), mark.position, steps);
        self.marks = mark.depth + 1;
    }

    /// Takes no memory. Where no mark is left open, no change is kept, and the tables that were changed are settled.
    fn release(&mut self, mark: Mark)
        requires { IsHeld self.old mark }
        ensures tables { tables_of self.new ≡ tables_of self.old }
        ensures marks { self.new.marks ≡ mark.depth }
        ensures keeps { Keeps (IsOutside mark) (IsHeld self.old) (stands_for self.old) (IsHeld self.new) (stands_for self.new) }
        ensures others { HasFewerSince self.old self.new mark 0 }
        ensures idle { self.new.marks ≡ 0 → self.new.entries ≡ [] }
        ensures tidy { RestsTidy self.new }
    {
        self.marks = mark.depth;
        if mark.depth > 0 {
            return;
        }
        self.journal.clear();
        self.touched.settle(self.tables.as_mut_slice());
    }

    fn insert(&mut self, alloc: Global, t: u32, row: Row) -> Result<(), RowFault>
        requires exists { t < length (tables_of self.old) }
        requires fits { IfSome (slice_get (tables_of self.old) t) (λ c. IsRow c.def row) }
        ensures answer { IfSome (slice_get (tables_of self.old) t) (AnswersInsert row result) }
        ensures tables { tables_of self.new ≡ after result (λ c. with_row c row) (tables_of self.old) t }
        ensures defs { defs_of (tables_of self.new) ≡ defs_of (tables_of self.old) }
        ensures marks { self.new.marks ≡ self.old.marks }
        ensures keeps { Keeps AnyMark (IsHeld self.old) (stands_for self.old) (IsHeld self.new) (stands_for self.new) }
        ensures since { HasMoreSince self.old self.new (if is_ok result then 1 else 0) }
        ensures tidy { RestsTidy self.new }
    {
        if self.marks == 0 {
            return plain::insert(self.tables.as_mut_slice(), t, row);
        }
        self.touched.add(t)?;
        self.journal
            .insert(alloc, self.tables.as_mut_slice(), t, row)
    }

    fn erase(&mut self, _alloc: Global, t: u32, key: &Key) -> Result<(), RowFault>
        requires exists { t < length (tables_of self.old) }
        requires fits { IfSome (slice_get (tables_of self.old) t) (λ c. IsKey c.def key.now) }
        ensures answer { IfSome (slice_get (tables_of self.old) t) (λ c. AnswersFound (keyed c key.now) result) }
        ensures tables { tables_of self.new ≡ after result (without_row key.now) (tables_of self.old) t }
        ensures defs { defs_of (tables_of self.new) ≡ defs_of (tables_of self.old) }
        ensures marks { self.new.marks ≡ self.old.marks }
        ensures keeps { Keeps AnyMark (IsHeld self.old) (stands_for self.old) (IsHeld self.new) (stands_for self.new) }
        ensures since { HasMoreSince self.old self.new (if is_ok result then 1 else 0) }
        ensures tidy { RestsTidy self.new }
    {
        if self.marks == 0 {
            return plain::erase(self.tables.as_mut_slice(), t, key);
        }
        self.touched.add(t)?;
        self.journal.erase(self.tables.as_mut_slice(), t, key)
    }

    fn change(&mut self, _alloc: Global, t: u32, row: Row) -> Result<(), RowFault>
        requires exists { t < length (tables_of self.old) }
        requires fits { IfSome (slice_get (tables_of self.old) t) (λ c. IsRow c.def row) }
        ensures answer { IfSome (slice_get (tables_of self.old) t) (λ c. AnswersFound (namesake c row) result) }
        ensures tables { tables_of self.new ≡ after result (λ c. with_row c row) (tables_of self.old) t }
        ensures defs { defs_of (tables_of self.new) ≡ defs_of (tables_of self.old) }
        ensures marks { self.new.marks ≡ self.old.marks }
        ensures keeps { Keeps AnyMark (IsHeld self.old) (stands_for self.old) (IsHeld self.new) (stands_for self.new) }
        ensures since { HasMoreSince self.old self.new (if is_ok result then 1 else 0) }
        ensures tidy { RestsTidy self.new }
    {
        if self.marks == 0 {
            return plain::change(self.tables.as_mut_slice(), t, row);
        }
        self.touched.add(t)?;
        self.journal.change(self.tables.as_mut_slice(), t, row)
    }
}
