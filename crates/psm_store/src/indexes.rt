//! Indexes of referencing tables.
ghost use Rattle.std.specs.Prelude.{◌≡◌, All};
ghost use Rattle.psm_store.specs.Kept.{AreEmpty, contents_of};
ghost use Rattle.psm_table.specs.State.{IsTidy};

use psm_table::{ForeignKey, Table};
use std::alloc::AllocError;

/// Keeps an index on the columns of each constraint in the referencing table, if it is there: so the rows that refer to one
/// are found without a walk. The tables have no rows, and none is changed.
pub fn index_keys(tables: &mut Vec<Table>, keys: &[ForeignKey]) -> Result<(), AllocError>
    requires empty { AreEmpty (contents_of tables.old.items) }
    ensures contents { contents_of tables.new.items ≡ contents_of tables.old.items }
    ensures tidy { All IsTidy tables.old.items → All IsTidy tables.new.items }
{
    for key in keys {
        index_key(tables, key)?;
    }
    Ok(())
}

/// Keeps an index on the columns of a constraint in the referencing table, if it is there.
fn index_key(tables: &mut Vec<Table>, key: &ForeignKey) -> Result<(), AllocError>
    requires empty { AreEmpty (contents_of tables.old.items) }
    ensures contents { contents_of tables.new.items ≡ contents_of tables.old.items }
    ensures tidy { All IsTidy tables.old.items → All IsTidy tables.new.items }
{
    let from = key.from as usize;
    if from < tables.len() {
        tables[from].index(key.columns.items())?;
    }
    Ok(())
}
