ghost use Rattle.std.specs.Prelude.{◌≡◌, ℕ, ◌+◌, ◌<◌, List, Some, IfSome, IfOk, length, slice_get};
ghost use Rattle.psm_table.specs.Definition.{IsRow, IsKey};
ghost use Rattle.psm_table.specs.Table.{Contents, keyed, namesake, with_row, without_row};
ghost use Rattle.psm_store.specs.declared.store.Mark.{Mark};
ghost use Rattle.psm_store.specs.Marks.{AnyMark, IsNewMark, IsOutside, Keeps, defs_of, marks_after, most_marks};
ghost use Rattle.psm_store.specs.RowCalls.{AnswersFound, AnswersInsert, after};

use psm_table::{Key, Row, RowFault, Steps, Table};
use std::alloc::{AllocError, Global};
use std::sync::ledger::Ledger;

/// A state of a store's tables that they can be put back to.
///
/// `depth` is how many marks were open before it, and `position` is for the store's own use.
#[derive(Clone, Copy, Debug, PartialEq, Eq)]
pub struct Mark {
    pub depth: u128,
    pub position: u64,
}

/// Tables that can be put back to marks. No call changes the definitions of the tables, nor their number.
///
/// `tables` are the tables of now, and `marks` is how many marks are open. `holds` says which marks are
/// held, and `at` are the tables that a rollback to a held mark gives.
///
/// A refused row call changes nothing. `Memory` may come at any time, and the other refusals come exactly
/// where they are due.
pub trait Store {
    ghost tables: { Self → List Contents };

    ghost marks: { Self → ℕ };

    ghost holds: { Self → Mark → Type 0 };

    ghost at: { Self → Mark → List Contents };

    /// A table by its number.
    fn table(&self, t: u32) -> &Table
        requires { t < length (tables self.now) }
        ensures { slice_get (tables self.now) t ≡ Some result.now.contents };

    /// Opens a mark, which stands for the tables of now. The marks that are held stay as they were, also
    /// where memory runs out.
    fn mark(&mut self, alloc: Global) -> Result<Mark, AllocError>
        requires { marks self.old < most_marks }
        ensures tables { tables self.new ≡ tables self.old }
        ensures marks { marks self.new ≡ marks_after (marks self.old) result }
        ensures mark { IfOk result (IsNewMark (marks self.old) (tables self.old) (holds self.old) (holds self.new) (at self.new)) }
        ensures keeps { Keeps AnyMark (holds self.old) (at self.old) (holds self.new) (at self.new) };

    /// Puts the tables back to what the mark stands for, and closes the deeper marks. The mark stays held.
    fn rollback<L: Ledger>(&mut self, mark: Mark, steps: &mut Steps<L>)
        requires { holds self.old mark }
        ensures tables { tables self.new ≡ at self.old mark }
        ensures defs { defs_of (tables self.new) ≡ defs_of (tables self.old) }
        ensures marks { marks self.new ≡ mark.depth + 1 }
        ensures held { holds self.new mark }
        ensures stands { at self.new mark ≡ at self.old mark }
        ensures keeps { Keeps (IsOutside mark) (holds self.old) (at self.old) (holds self.new) (at self.new) };

    /// Closes the mark and the deeper ones. The tables stay as they are.
    fn release(&mut self, mark: Mark)
        requires { holds self.old mark }
        ensures tables { tables self.new ≡ tables self.old }
        ensures marks { marks self.new ≡ mark.depth }
        ensures keeps { Keeps (IsOutside mark) (holds self.old) (at self.old) (holds self.new) (at self.new) };

    /// Puts a row into a table. `Full` comes exactly where the table has 200,000 rows, and else `Duplicate`
    /// exactly where a row has the key.
    fn insert(&mut self, alloc: Global, t: u32, row: Row) -> Result<(), RowFault>
        requires exists { t < length (tables self.old) }
        requires fits { IfSome (slice_get (tables self.old) t) (λ c. IsRow c.def row) }
        ensures answer { IfSome (slice_get (tables self.old) t) (AnswersInsert row result) }
        ensures tables { tables self.new ≡ after result (λ c. with_row c row) (tables self.old) t }
        ensures defs { defs_of (tables self.new) ≡ defs_of (tables self.old) }
        ensures marks { marks self.new ≡ marks self.old }
        ensures keeps { Keeps AnyMark (holds self.old) (at self.old) (holds self.new) (at self.new) };

    /// Takes the row that has the key out of a table. `Absent` comes exactly where no row has it.
    fn erase(&mut self, alloc: Global, t: u32, key: &Key) -> Result<(), RowFault>
        requires exists { t < length (tables self.old) }
        requires fits { IfSome (slice_get (tables self.old) t) (λ c. IsKey c.def key.now) }
        ensures answer { IfSome (slice_get (tables self.old) t) (λ c. AnswersFound (keyed c key.now) result) }
        ensures tables { tables self.new ≡ after result (without_row key.now) (tables self.old) t }
        ensures defs { defs_of (tables self.new) ≡ defs_of (tables self.old) }
        ensures marks { marks self.new ≡ marks self.old }
        ensures keeps { Keeps AnyMark (holds self.old) (at self.old) (holds self.new) (at self.new) };

    /// Puts a row in the place of the row that has its key. `Absent` comes exactly where no row has it.
    fn change(&mut self, alloc: Global, t: u32, row: Row) -> Result<(), RowFault>
        requires exists { t < length (tables self.old) }
        requires fits { IfSome (slice_get (tables self.old) t) (λ c. IsRow c.def row) }
        ensures answer { IfSome (slice_get (tables self.old) t) (λ c. AnswersFound (namesake c row) result) }
        ensures tables { tables self.new ≡ after result (λ c. with_row c row) (tables self.old) t }
        ensures defs { defs_of (tables self.new) ≡ defs_of (tables self.old) }
        ensures marks { marks self.new ≡ marks self.old }
        ensures keeps { Keeps AnyMark (holds self.old) (at self.old) (holds self.new) (at self.new) };

    ghost below: { (s : Self) (m : Mark) → holds s m → m.depth < marks s };
}
