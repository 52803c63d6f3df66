//! The tables of code.
ghost use Rattle.std.specs.Prelude.{◌≡◌, IfOk, map};
ghost use Rattle.psm_build.specs.Outcome.{definitions};

use psm_code::{Code, CodeTable};
use psm_table::TableDef;
use std::alloc::{AllocError, Global};

/// The definitions of the tables of code, in their order (ISO/IEC 9075:1992, 11.3). Fails only without memory.
pub fn definitions_of(alloc: Global, code: &Code) -> Result<Vec<TableDef>, AllocError>
    ensures { IfOk result (λ defs. defs.items ≡ definitions code.now) }
{
    definitions_in(alloc, code.raw().tables.items())
}

fn definitions_in(alloc: Global, tables: &[CodeTable]) -> Result<Vec<TableDef>, AllocError>
    ensures { IfOk result (λ defs. defs.items ≡ map (λ t. t.definition) tables.now) }
{
    let mut defs = Vec::new(alloc);
    for table in tables {
        defs.push(table.definition.copy(alloc)?)?;
    }
    Ok(defs)
}
