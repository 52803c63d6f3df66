//! The tables of a listing.
ghost use Rattle.std.specs.Prelude.{◌≡◌, ◌++◌, map, IfOk};
ghost use Rattle.psm_load.specs.Left.{Gives};
ghost use Rattle.psm_load.specs.Parts.{one};
ghost use Rattle.psm_load.specs.Read.{says, table_read};
ghost use Rattle.psm_load.specs.Stated.{table as table_part, tables_by};
ghost use Rattle.psm_load_line.specs.Forms.{column_at, key_at, reference_at, table_at, unique_at};
ghost use Rattle.psm_load_line.specs.Said.{columns_of, key_from, reference_of, table_head_of};

use crate::left::LinesLeft;
use crate::listed::{Listed, several};
use crate::stop::Stop;
use psm_code::CodeTable;
use psm_list::List;
use psm_load_line::{Reference, TableHead, column, key, reference, table_head, unique};
use psm_table::{Column, ForeignKey, TableDef};
use std::alloc::{AllocError, Global};

/// A table with its FOREIGN KEY constraints.
#[derive(Drop)]
pub(crate) struct TableText {
    pub(crate) table: CodeTable,
    pub(crate) references: List<Reference>,
}

/// Tables, of which there are n, and the FOREIGN KEY constraints of all of them.
#[tactic(auto, using(crate::proofs::TableTexts::tables))]
pub(crate) fn tables(
    alloc: Global,
    n: u32,
    lines: &mut LinesLeft<'_>,
) -> Result<(List<CodeTable>, List<ForeignKey>), Stop>
    ensures { Gives (tables_by n) lines.old lines.new result }
{
    let mut tables = Vec::new(alloc);
    let mut keys = Vec::new(alloc);
    for number in 0..n {
        let TableText { table, references } = TableText::read(alloc, lines)?;
        tables.push(table)?;
        add_keys(&mut keys, number, references)?;
    }
    Ok((List::of(tables), List::of(keys)))
}

// The constraints of the table of that number.
fn add_keys(
    keys: &mut Vec<ForeignKey>,
    from: u32,
    references: List<Reference>,
) -> Result<(), AllocError>
    ensures { IfOk result (λ _. keys.new.items ≡ keys.old.items ++ map (key_from from) references) }
{
    for reference in references.into_vec() {
        let Reference {
            columns,
            to,
            target,
        } = reference;
        keys.push(ForeignKey {
            from,
            columns,
            to,
            target,
        })?;
    }
    Ok(())
}

impl Listed for TableText {
    ghost part = { table_part };

    #[tactic(auto, using(crate::proofs::Same::table_same))]
    fn read(alloc: Global, lines: &mut LinesLeft<'_>) -> Result<TableText, Stop> {
        let head = head(alloc, lines)?;
        table(alloc, head, lines)
    }
}

impl Listed for Column {
    ghost part = { one column_at };

    #[tactic(auto, using(crate::proofs::Said::said))]
    fn read(alloc: Global, lines: &mut LinesLeft<'_>) -> Result<Column, Stop> {
        let line = lines.next()?;
        line.says(column(alloc, line.bytes))
    }
}

// The columns of a UNIQUE list.
impl Listed for List<u32> {
    ghost part = { says columns_of unique_at };

    #[tactic(auto, using(crate::proofs::Said::said))]
    fn read(alloc: Global, lines: &mut LinesLeft<'_>) -> Result<List<u32>, Stop> {
        let line = lines.next()?;
        line.says(unique(alloc, line.bytes))
    }
}

impl Listed for Reference {
    ghost part = { says reference_of reference_at };

    #[tactic(auto, using(crate::proofs::Said::said))]
    fn read(alloc: Global, lines: &mut LinesLeft<'_>) -> Result<Reference, Stop> {
        let line = lines.next()?;
        line.says(reference(alloc, line.bytes))
    }
}

#[tactic(auto, using(crate::proofs::Said::said))]
fn head(alloc: Global, lines: &mut LinesLeft<'_>) -> Result<TableHead, Stop>
    ensures { Gives (says table_head_of table_at) lines.old lines.new result }
{
    let line = lines.next()?;
    line.says(table_head(alloc, line.bytes))
}

// The lines after that of a table.
fn table(alloc: Global, head: TableHead, lines: &mut LinesLeft<'_>) -> Result<TableText, Stop>
    ensures { Gives (table_read head) lines.old lines.new result }
{
    let columns = several(alloc, head.columns, lines)?;
    let key = key_columns(alloc, lines)?;
    let unique = several(alloc, head.uniques, lines)?;
    let references = several(alloc, head.keys, lines)?;
    let checks = several(alloc, head.checks, lines)?;
    let definition = TableDef {
        name: head.name,
        columns,
        key,
        unique,
    };
    Ok(TableText {
        table: CodeTable { definition, checks },
        references,
    })
}

#[tactic(auto, using(crate::proofs::Said::said))]
fn key_columns(alloc: Global, lines: &mut LinesLeft<'_>) -> Result<List<u32>, Stop>
    ensures { Gives (says columns_of key_at) lines.old lines.new result }
{
    let line = lines.next()?;
    line.says(key(alloc, line.bytes))
}
