//! The code of tables.
ghost use Rattle.std.specs.Prelude.{IfOk};
ghost use Rattle.psm_exprgen.specs.Queries.{TableMade, TablesMade};

use psm_code::CodeTable;
use psm_exprgen::tests;
use psm_list::List;
use psm_resolved::ResolvedTable;
use psm_tablecode::column_letters;
use std::alloc::{AllocError, Global};

/// The code of tables, whose CHECKs see their columns and no variable.
pub(crate) fn tables_code(
    alloc: Global,
    tables: &List<ResolvedTable>,
) -> Result<List<CodeTable>, AllocError>
    ensures { IfOk result (λ codes. TablesMade tables.now codes) }
{
    let mut codes = Vec::new(alloc);
    for table in tables.items() {
        codes.push(table_code(alloc, table)?)?;
    }
    Ok(List::of(codes))
}

fn table_code(alloc: Global, table: &ResolvedTable) -> Result<CodeTable, AllocError>
    ensures { IfOk result (λ code. TableMade table.now code) }
{
    let columns = column_letters(alloc, &table.definition)?;
    let checks = tests(alloc, &table.checks, columns.as_slice(), &[])?;
    Ok(CodeTable {
        definition: table.definition.copy(alloc)?,
        checks,
    })
}
