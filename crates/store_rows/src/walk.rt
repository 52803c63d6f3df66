//! Walks over the rows of a table.

use psm_table::{Row, Table};
use std::alloc::{AllocError, Global};

/// The rows from the first on.
pub fn rising(alloc: Global, table: &Table) -> Result<Vec<&Row>, AllocError> {
    let mut rows = Vec::new(alloc);
    let mut next = table.next_after(None);
    'walk: for _ in 0..table.len() {
        let Some(row) = next else {
            break;
        };
        rows.push(row)?;
        let key = table.key_of(alloc, row)?;
        next = table.next_after(Some(&key));
    }
    Ok(rows)
}
