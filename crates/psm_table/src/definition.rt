ghost use Rattle.std.specs.Prelude.{◌≡◌, IfOk};

use psm_list::List;
use psm_text::Name;
use psm_value::{Datum, SqlType};
use std::alloc::{AllocError, Global};

/// A column of a table (ISO/IEC 9075:1992, 11.4).
#[derive(Debug, Drop)]
pub struct Column {
    pub name: Name,
    pub kind: SqlType,
    pub not_null: bool,
    pub default: Datum,
}

/// The definition of a table (ISO/IEC 9075:1992, 11.3): its columns, the indexes of those in its primary
/// key, and the indexes of those in each UNIQUE list.
#[derive(Debug, Drop)]
pub struct TableDef {
    pub name: Name,
    pub columns: List<Column>,
    pub key: List<u32>,
    pub unique: List<List<u32>>,
}

/// A FOREIGN KEY constraint (ISO/IEC 9075:1992, 11.8) with NO ACTION: the number of the referencing table and the indexes of its
/// columns, and the number of the referenced table and the indexes of the columns there, each with the one that refers to it.
#[derive(Debug, Drop)]
pub struct ForeignKey {
    pub from: u32,
    pub columns: List<u32>,
    pub to: u32,
    pub target: List<u32>,
}

impl ForeignKey {
    /// The same constraint in memory of its own.
    pub fn copy(&self, alloc: Global) -> Result<ForeignKey, AllocError>
        ensures { IfOk result (λ key. key ≡ self.now) }
    {
        Ok(ForeignKey {
            from: self.from,
            columns: List::of(Vec::from_slice(alloc, self.columns.items())?),
            to: self.to,
            target: List::of(Vec::from_slice(alloc, self.target.items())?),
        })
    }
}

impl Column {
    /// The same column in memory of its own.
    pub fn copy(&self, alloc: Global) -> Result<Column, AllocError>
        ensures { IfOk result (λ column. column ≡ self.now) }
    {
        Ok(Column {
            name: self.name.copy(alloc)?,
            kind: self.kind,
            not_null: self.not_null,
            default: self.default.copy(alloc)?,
        })
    }
}

impl TableDef {
    /// The same definition in memory of its own.
    pub fn copy(&self, alloc: Global) -> Result<TableDef, AllocError>
        ensures { IfOk result (λ def. def ≡ self.now) }
    {
        Ok(TableDef {
            name: self.name.copy(alloc)?,
            columns: copied_columns(alloc, self.columns.items())?,
            key: List::of(Vec::from_slice(alloc, self.key.items())?),
            unique: copied_lists(alloc, self.unique.items())?,
        })
    }
}

fn copied_columns(alloc: Global, columns: &[Column]) -> Result<List<Column>, AllocError>
    ensures { IfOk result (λ copy. copy ≡ columns.now) }
{
    let mut copy = Vec::new(alloc);
    for column in columns {
        copy.push(column.copy(alloc)?)?;
    }
    Ok(List::of(copy))
}

/// The same lists in memory of their own.
pub(crate) fn copied_lists(
    alloc: Global,
    lists: &[List<u32>],
) -> Result<List<List<u32>>, AllocError>
    ensures { IfOk result (λ copy. copy ≡ lists.now) }
{
    let mut copy = Vec::new(alloc);
    for list in lists {
        copy.push(List::of(Vec::from_slice(alloc, list.items())?))?;
    }
    Ok(List::of(copy))
}
