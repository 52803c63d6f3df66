//! Ways back to a mark of which nobody counts the steps.
ghost use Rattle.std.specs.Prelude.{◌≡◌, ◌+◌, ◌<◌};
ghost use Rattle.psm_store.specs.Marks.{IsOutside, Keeps, defs_of};

use crate::store::{Mark, Store};
use psm_table::Steps;
use std::marker::Brand;
use std::sync::ledger::{Blank, Ledger};

/// Puts the tables back to what a mark stands for, and closes the deeper marks. The mark stays held.
pub fn go_back<S: Store>(store: &mut S, mark: Mark)
    requires { S.holds store.old mark }
    ensures tables { S.tables store.new ≡ S.at store.old mark }
    ensures defs { defs_of (S.tables store.new) ≡ defs_of (S.tables store.old) }
    ensures marks { S.marks store.new ≡ mark.depth + 1 }
    ensures held { S.holds store.new mark }
    ensures stands { S.at store.new mark ≡ S.at store.old mark }
    ensures keeps { Keeps (IsOutside mark) (S.holds store.old) (S.at store.old) (S.holds store.new) (S.at store.new) }
{
    go_back_in::<S, Brand>(store, mark, Blank::new(1));
}

// The same over a ledger of its own.
fn go_back_in<S: Store, L: Ledger>(store: &mut S, mark: Mark, blank: Blank)
    requires name { blank.name ≡ L.name }
    requires parts { blank.parts ≡ L.parts }
    requires some { 0 < blank.parts }
    requires held { S.holds store.old mark }
    ensures tables { S.tables store.new ≡ S.at store.old mark }
    ensures defs { defs_of (S.tables store.new) ≡ defs_of (S.tables store.old) }
    ensures marks { S.marks store.new ≡ mark.depth + 1 }
    ensures held { S.holds store.new mark }
    ensures stands { S.at store.new mark ≡ S.at store.old mark }
    ensures keeps { Keeps (IsOutside mark) (S.holds store.old) (S.at store.old) (S.holds store.new) (S.at store.new) }
{
    let mut steps: Steps<L> = Steps::open(blank);
    store.rollback(mark, &mut steps);
}

/// Puts the tables back to what a mark stands for, and closes it too. Marks outside it stay.
pub fn put_back<S: Store>(store: &mut S, mark: Mark)
    requires { S.holds store.old mark }
    ensures tables { S.tables store.new ≡ S.at store.old mark }
    ensures defs { defs_of (S.tables store.new) ≡ defs_of (S.tables store.old) }
    ensures marks { S.marks store.new ≡ mark.depth }
    ensures keeps { Keeps (IsOutside mark) (S.holds store.old) (S.at store.old) (S.holds store.new) (S.at store.new) }
{
    go_back(store, mark);
    store.release(mark);
}
