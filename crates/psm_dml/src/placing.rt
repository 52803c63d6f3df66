//! Whether an UPDATE may put its rows in the places of the old ones.
ghost use Rattle.std.specs.Prelude.{◌≡◌, ◌&&◌, nat_eq};
ghost use Rattle.std.specs.List.{list_all, list_any};
ghost use Rattle.psm_dml.specs.Changes.{sets_none as no_set, keep_places as places_kept};

use psm_exprcode::SetItem;
use psm_table::{List, TableDef};

/// Whether no assignment sets a column of the key, nor one of a UNIQUE list.
pub(crate) fn keep_places(def: &TableDef, sets: &[SetItem]) -> bool
    ensures { result ≡ places_kept def.now sets.now }
{
    sets_none(sets, def.key.items()) && set_none_of(sets, def.unique.items())
}

fn set_none_of(sets: &[SetItem], lists: &[List<u32>]) -> bool
    ensures { result ≡ list_all (no_set sets.now) lists.now }
{
    lists.iter().all(|columns| sets_none(sets, columns.items()))
}

fn sets_none(sets: &[SetItem], columns: &[u32]) -> bool
    ensures { result ≡ no_set sets.now columns.now }
{
    sets.iter().all(|set| !has_column(columns, set.column))
}

fn has_column(columns: &[u32], column: u32) -> bool
    ensures { result ≡ list_any (λ c. nat_eq c column) columns.now }
{
    columns.iter().any(|c| *c == column)
}
