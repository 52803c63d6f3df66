//! What a table answers without a change.
ghost use Rattle.store_rows.specs.Parts.{IsPartsTable};

use crate::call::Look;
use crate::display;
use crate::fault::Fault;
use crate::like::RowLike;
use crate::walk::rising;
use psm_table::{Datum, Row, Table};
use std::alloc::Global;

pub fn looked(alloc: Global, table: &Table, look: &Look<'_>) -> Result<String, Fault>
    requires { IsPartsTable table.now.contents.def }
{
    match look {
        Look::Clash(row) => clash(alloc, table, row),
        Look::Rows => display::rows(alloc, rising(alloc, table)?.as_slice()),
        Look::Sum => sum(alloc, table),
        Look::Copy => copied(alloc, table),
    }
}

#[tactic(auto, using(crate::proofs::PartsRows::row_has_columns))]
fn clash(alloc: Global, table: &Table, row: &RowLike<'_>) -> Result<String, Fault>
    requires { IsPartsTable table.now.contents.def }
{
    let row = row.made(alloc)?;
    display::word(alloc, if table.clash(&row) { "yes" } else { "no" })
}

fn sum(alloc: Global, table: &Table) -> Result<String, Fault> {
    let mut sum = 0i64;
    let rows = rising(alloc, table)?;
    for row in rows.as_slice() {
        sum = sum.wrapping_add(code(row));
    }
    Ok(format!(in alloc; "{} rows, sum {sum}", table.len())?)
}

fn code(row: &Row) -> i64 {
    match row.values().get(2) {
        Some(Datum::Num(code)) => code.coef(),
        _ => 0,
    }
}

fn copied(alloc: Global, table: &Table) -> Result<String, Fault> {
    let copy = table.copy(alloc)?;
    let rows = rising(alloc, &copy)?;
    display::rows(alloc, rows.as_slice())
}
