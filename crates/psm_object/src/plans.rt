//! The lines of plans.
ghost use Rattle.std.specs.Prelude.{◌≡◌, ◌++◌, ◌∷◌, [], codes, OnOk};
ghost use Rattle.std.specs.List.{flat_map};
ghost use Rattle.psm_words.specs.Words.{number};
ghost use Rattle.psm_object.specs.Expressions.{test_lines};
ghost use Rattle.psm_object.specs.Plans.{plan_lines, set_lines};
ghost use Rattle.psm_object.specs.Words.{ended, flag, further, numbers, spaced, text};

use crate::expressions::{put_expression, put_test};
use crate::words::{end_line, put_count, put_flag, put_index, put_indices};
use psm_code::Plan;
use psm_exprcode::{ExprCode, SetItem};
use std::alloc::AllocError;

/// Appends the lines of plans.
pub(crate) fn put_plans(out: &mut Vec<u8>, plans: &[Plan]) -> Result<(), AllocError>
    ensures { OnOk result (out.new.items ≡ out.old.items ++ text (flat_map plan_lines plans.now)) }
{
    for plan in plans {
        put_plan(out, plan)?;
    }
    Ok(())
}

fn put_plan(out: &mut Vec<u8>, plan: &Plan) -> Result<(), AllocError>
    ensures { OnOk result (out.new.items ≡ out.old.items ++ text (plan_lines plan.now)) }
{
    match plan {
        Plan::Insert {
            table,
            columns,
            rows,
        } => put_insert(out, *table, *rows, columns.items()),
        Plan::InsertQuery {
            table,
            columns,
            query,
        } => put_insert_query(out, *table, *query, columns.items()),
        Plan::Update { table, sets, test } => {
            put_update_line(out, *table, sets.items().len(), test.is_some())?;
            put_changes(out, sets.items(), test)
        }
        Plan::Delete { table, test } => {
            put_delete_line(out, *table, test.is_some())?;
            put_test(out, test)
        }
        Plan::UpdateAt { cursor, sets } => {
            put_update_at_line(out, *cursor, sets.items().len())?;
            put_sets(out, sets.items())
        }
        Plan::DeleteAt { cursor } => put_delete_at_line(out, *cursor),
    }
}

fn put_insert(out: &mut Vec<u8>, table: u32, rows: u32, columns: &[u32]) -> Result<(), AllocError>
    ensures { OnOk result (out.new.items ≡ out.old.items ++ ended (spaced (codes "PLAN" ∷ codes "INSERT" ∷ number table ∷ number rows ∷ numbers columns.now))) }
{
    out.extend_from_slice(b"PLAN INSERT")?;
    put_columns(out, table, rows, columns)
}

fn put_insert_query(
    out: &mut Vec<u8>,
    table: u32,
    query: u32,
    columns: &[u32],
) -> Result<(), AllocError>
    ensures { OnOk result (out.new.items ≡ out.old.items ++ ended (spaced (codes "PLAN" ∷ codes "INSERTQ" ∷ number table ∷ number query ∷ numbers columns.now))) }
{
    out.extend_from_slice(b"PLAN INSERTQ")?;
    put_columns(out, table, query, columns)
}

// What INSERT names, up to the end of the line.
fn put_columns(out: &mut Vec<u8>, table: u32, n: u32, columns: &[u32]) -> Result<(), AllocError>
    ensures { OnOk result (out.new.items ≡ out.old.items ++ ended (further (number table ∷ number n ∷ numbers columns.now))) }
{
    put_index(out, table)?;
    put_index(out, n)?;
    put_indices(out, columns)?;
    end_line(out)
}

fn put_update_line(
    out: &mut Vec<u8>,
    table: u32,
    sets: usize,
    has_test: bool,
) -> Result<(), AllocError>
    ensures { OnOk result (out.new.items ≡ out.old.items ++ ended (spaced (codes "PLAN" ∷ codes "UPDATE" ∷ number table ∷ number sets ∷ flag has_test ∷ []))) }
{
    out.extend_from_slice(b"PLAN UPDATE")?;
    put_update_words(out, table, sets, has_test)
}

// What UPDATE names, up to the end of the line.
fn put_update_words(
    out: &mut Vec<u8>,
    table: u32,
    sets: usize,
    has_test: bool,
) -> Result<(), AllocError>
    ensures { OnOk result (out.new.items ≡ out.old.items ++ ended (further (number table ∷ number sets ∷ flag has_test ∷ []))) }
{
    put_index(out, table)?;
    put_count(out, sets)?;
    put_flag(out, has_test)?;
    end_line(out)
}

fn put_delete_line(out: &mut Vec<u8>, table: u32, has_test: bool) -> Result<(), AllocError>
    ensures { OnOk result (out.new.items ≡ out.old.items ++ ended (spaced (codes "PLAN" ∷ codes "DELETE" ∷ number table ∷ flag has_test ∷ []))) }
{
    out.extend_from_slice(b"PLAN DELETE")?;
    put_index(out, table)?;
    put_flag(out, has_test)?;
    end_line(out)
}

fn put_update_at_line(out: &mut Vec<u8>, cursor: u32, sets: usize) -> Result<(), AllocError>
    ensures { OnOk result (out.new.items ≡ out.old.items ++ ended (spaced (codes "PLAN" ∷ codes "UPDATEAT" ∷ number cursor ∷ number sets ∷ []))) }
{
    out.extend_from_slice(b"PLAN UPDATEAT")?;
    put_update_at_words(out, cursor, sets)
}

fn put_update_at_words(out: &mut Vec<u8>, cursor: u32, sets: usize) -> Result<(), AllocError>
    ensures { OnOk result (out.new.items ≡ out.old.items ++ ended (further (number cursor ∷ number sets ∷ []))) }
{
    put_index(out, cursor)?;
    put_count(out, sets)?;
    end_line(out)
}

fn put_delete_at_line(out: &mut Vec<u8>, cursor: u32) -> Result<(), AllocError>
    ensures { OnOk result (out.new.items ≡ out.old.items ++ ended (spaced (codes "PLAN" ∷ codes "DELETEAT" ∷ number cursor ∷ []))) }
{
    out.extend_from_slice(b"PLAN DELETEAT")?;
    put_index(out, cursor)?;
    end_line(out)
}

fn put_changes(
    out: &mut Vec<u8>,
    sets: &[SetItem],
    test: &Option<ExprCode>,
) -> Result<(), AllocError>
    ensures { OnOk result (out.new.items ≡ out.old.items ++ text (flat_map set_lines sets.now ++ test_lines test.now)) }
{
    put_sets(out, sets)?;
    put_test(out, test)
}

fn put_sets(out: &mut Vec<u8>, sets: &[SetItem]) -> Result<(), AllocError>
    ensures { OnOk result (out.new.items ≡ out.old.items ++ text (flat_map set_lines sets.now)) }
{
    for set in sets {
        put_set(out, set)?;
    }
    Ok(())
}

fn put_set(out: &mut Vec<u8>, set: &SetItem) -> Result<(), AllocError>
    ensures { OnOk result (out.new.items ≡ out.old.items ++ text (set_lines set.now)) }
{
    out.extend_from_slice(b"SET")?;
    put_index(out, set.column)?;
    end_line(out)?;
    put_expression(out, &set.source)
}
