//! The calls that rows ask for.

use crate::fault::Fault;
use crate::like::{KeyLike, RowLike};
use crate::operands::Operands;

/// What is done.
///
/// A table of a store is named by its number, and a mark by how many were open before it.
#[derive(Clone, Copy)]
pub enum Call<'a> {
    Look(Look<'a>),
    Change(Change<'a>),
    Mark,
    Rollback(u32),
    Release(u32),
    /// The row that has the key is taken out, and kept.
    Hide(KeyLike<'a>),
    /// The row is put in the place of another, which is kept.
    Swap(RowLike<'a>),
    /// The row that was kept last is put back.
    Revive,
    Settle,
}

/// A question to a table.
#[derive(Clone, Copy)]
pub enum Look<'a> {
    Clash(RowLike<'a>),
    /// The rows, from the first on.
    Rows,
    /// The number of rows and the sum of their codes.
    Sum,
    /// The rows of a copy of the table.
    Copy,
}

/// A change of a table.
#[derive(Clone, Copy)]
pub enum Change<'a> {
    Insert(RowLike<'a>),
    Replace(RowLike<'a>),
    Erase(KeyLike<'a>),
    /// The rows of the sizes from the first number up to before the second are put in, with the size as the code.
    Fill(u32, u32),
    /// These rows are taken out.
    Drain(u32, u32),
}

impl<'a> Call<'a> {
    /// Whether it is a call of stores alone, and of none of their tables.
    pub fn is_of_marks(&self) -> bool {
        matches!(self, Call::Mark | Call::Rollback(_) | Call::Release(_))
    }

    /// The call that the operation and its operands name.
    pub fn named(operation: &str, operands: &mut Operands<'a>) -> Result<Call<'a>, Fault> {
        match operation {
            "mark" => Ok(Call::Mark),
            "rollback" => Ok(Call::Rollback(operands.count()?)),
            "release" => Ok(Call::Release(operands.count()?)),
            "hide" => Ok(Call::Hide(operands.key()?)),
            "swap" => Ok(Call::Swap(operands.row()?)),
            "revive" => Ok(Call::Revive),
            "settle" => Ok(Call::Settle),
            "insert" | "change" | "erase" | "fill" | "drain" => {
                Ok(Call::Change(named_change(operation, operands)?))
            }
            _ => Ok(Call::Look(named_look(operation, operands)?)),
        }
    }
}

fn named_change<'a>(operation: &str, operands: &mut Operands<'a>) -> Result<Change<'a>, Fault> {
    match operation {
        "insert" => Ok(Change::Insert(operands.row()?)),
        "change" => Ok(Change::Replace(operands.row()?)),
        "erase" => Ok(Change::Erase(operands.key()?)),
        "fill" => Ok(Change::Fill(operands.count()?, operands.count()?)),
        _ => Ok(Change::Drain(operands.count()?, operands.count()?)),
    }
}

fn named_look<'a>(operation: &str, operands: &mut Operands<'a>) -> Result<Look<'a>, Fault> {
    match operation {
        "clash" => Ok(Look::Clash(operands.row()?)),
        "rows" => Ok(Look::Rows),
        "sum" => Ok(Look::Sum),
        "copy" => Ok(Look::Copy),
        _ => Err(Fault::NoRow),
    }
}
