//! The lines of tables.
ghost use Rattle.std.specs.Prelude.{◌≡◌, ◌++◌, map, OnOk};
ghost use Rattle.std.specs.List.{flat_map};
ghost use Rattle.psm_object.specs.Expressions.{expression_lines};
ghost use Rattle.psm_object.specs.Tables.{column_line, key_line, table_line, table_lines, tables_lines, unique_line};
ghost use Rattle.psm_code.specs.TableRules.{keys_from};
ghost use Rattle.psm_object.specs.Words.{ended, text};

use crate::expressions::put_expression;
use crate::references::{ascend, count_of, parted, put_references};
use crate::words::{end_line, put_count, put_flag, put_indices, put_kind, put_name, put_value};
use psm_code::CodeTable;
use psm_exprcode::ExprCode;
use psm_list::List;
use psm_table::{Column, ForeignKey};
use std::alloc::AllocError;

/// Appends the lines of tables with their FOREIGN KEY constraints. Takes the time of the text, if these stand in the order of the
/// referencing tables.
pub(crate) fn put_tables(
    out: &mut Vec<u8>,
    tables: &[CodeTable],
    keys: &[ForeignKey],
) -> Result<(), AllocError>
    ensures { OnOk result (out.new.items ≡ out.old.items ++ text (tables_lines keys.now 0 tables.now)) }
{
    let in_order = ascend(keys);
    let mut left = keys;
    for (number, table) in tables.iter().enumerate() {
        let (own, others) = parted(left, number, in_order);
        put_table(out, number, table, own)?;
        left = others;
    }
    Ok(())
}

// The lines of the table of that number, with those of the constraints that are its own.
fn put_table(
    out: &mut Vec<u8>,
    number: usize,
    table: &CodeTable,
    keys: &[ForeignKey],
) -> Result<(), AllocError>
    ensures { OnOk result (out.new.items ≡ out.old.items ++ text (table_lines (keys_from keys.now number) table.now)) }
{
    put_table_line(out, table, count_of(keys, number))?;
    put_columns(out, table.definition.columns.items())?;
    put_key(out, table.definition.key.items())?;
    put_uniques(out, table.definition.unique.items())?;
    put_references(out, keys, number)?;
    put_checks(out, table.checks.items())
}

fn put_table_line(out: &mut Vec<u8>, table: &CodeTable, keys: usize) -> Result<(), AllocError>
    ensures { OnOk result (out.new.items ≡ out.old.items ++ ended (table_line keys table.now)) }
{
    let definition = &table.definition;
    out.extend_from_slice(b"TABLE")?;
    put_name(out, &definition.name)?;
    put_count(out, definition.columns.items().len())?;
    put_count(out, definition.unique.items().len())?;
    put_count(out, table.checks.items().len())?;
    put_count(out, keys)?;
    end_line(out)
}

fn put_columns(out: &mut Vec<u8>, columns: &[Column]) -> Result<(), AllocError>
    ensures { OnOk result (out.new.items ≡ out.old.items ++ text (map column_line columns.now)) }
{
    for column in columns {
        put_column(out, column)?;
    }
    Ok(())
}

fn put_column(out: &mut Vec<u8>, column: &Column) -> Result<(), AllocError>
    ensures { OnOk result (out.new.items ≡ out.old.items ++ ended (column_line column.now)) }
{
    out.extend_from_slice(b"COL")?;
    put_name(out, &column.name)?;
    put_kind(out, column.kind)?;
    put_flag(out, column.not_null)?;
    put_value(out, &column.default)?;
    end_line(out)
}

fn put_key(out: &mut Vec<u8>, columns: &[u32]) -> Result<(), AllocError>
    ensures { OnOk result (out.new.items ≡ out.old.items ++ ended (key_line columns.now)) }
{
    out.extend_from_slice(b"KEY")?;
    put_indices(out, columns)?;
    end_line(out)
}

fn put_uniques(out: &mut Vec<u8>, lists: &[List<u32>]) -> Result<(), AllocError>
    ensures { OnOk result (out.new.items ≡ out.old.items ++ text (map unique_line lists.now)) }
{
    for columns in lists {
        put_unique(out, columns.items())?;
    }
    Ok(())
}

fn put_unique(out: &mut Vec<u8>, columns: &[u32]) -> Result<(), AllocError>
    ensures { OnOk result (out.new.items ≡ out.old.items ++ ended (unique_line columns.now)) }
{
    out.extend_from_slice(b"UNI")?;
    put_indices(out, columns)?;
    end_line(out)
}

fn put_checks(out: &mut Vec<u8>, checks: &[ExprCode]) -> Result<(), AllocError>
    ensures { OnOk result (out.new.items ≡ out.old.items ++ text (flat_map expression_lines checks.now)) }
{
    for check in checks {
        put_expression(out, check)?;
    }
    Ok(())
}
