//! The definition of the tables.
ghost use Rattle.std.specs.Prelude.{◌≡◌, [], ◌∷◌, IfOk};
ghost use Rattle.psm_value.specs.declared.sqltype.SqlType.TheVariants.{VarChar, Numeric, Integer};
ghost use Rattle.psm_table.specs.Definition.{kinds_of, IsDefinition};
ghost use Rattle.store_rows.specs.Parts.{IsPartsTable};

use crate::fault::Fault;
use psm_table::{Column, Datum, List, Name, SqlType, TableDef};
use std::alloc::Global;

/// A table of a name, a size and a code, of which the first two are the key and the code is UNIQUE.
pub fn definition(alloc: Global) -> Result<TableDef, Fault>
    ensures defined { IfOk result IsDefinition }
    ensures parts { IfOk result IsPartsTable }
{
    let columns = columns(alloc)?;
    Ok(TableDef {
        name: Name::make(alloc, "parts")?,
        columns,
        key: List::of(vec![in alloc; 0u32, 1]?),
        unique: List::of(vec![in alloc; List::of(vec![in alloc; 2u32]?)]?),
    })
}

fn columns(alloc: Global) -> Result<List<Column>, Fault>
    ensures { IfOk result (λ columns. kinds_of columns ≡ VarChar 10 ∷ Numeric 5 2 ∷ Integer ∷ []) }
{
    let name = column(alloc, "name", SqlType::VarChar { n: 10 })?;
    let size = column(alloc, "size", SqlType::Numeric { p: 5, s: 2 })?;
    let code = column(alloc, "code", SqlType::Integer)?;
    Ok(List::of(vec![in alloc; name, size, code]?))
}

fn column(alloc: Global, name: &str, kind: SqlType) -> Result<Column, Fault>
    ensures { IfOk result (λ c. c.kind ≡ kind) }
{
    Ok(Column {
        name: Name::make(alloc, name)?,
        kind,
        not_null: kind != SqlType::Integer,
        default: Datum::Null,
    })
}
