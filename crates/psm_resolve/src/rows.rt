//! INSERT, UPDATE and DELETE.
ghost use Rattle.std.specs.Prelude.{◌≡◌, ◌∷◌, [], ◌++◌, map, None, IfOk};
ghost use Rattle.std.specs.Option.{option_copied};
ghost use Rattle.psm_symbols.specs.Columns.{column_of, inserted};
ghost use Rattle.psm_scope.specs.Rows.{columns_known};
ghost use Rattle.psm_rules.specs.StatementFaults.{several};
ghost use Rattle.psm_resolved.specs.declared.statement.ResolvedSimple.TheVariants as resolved;
ghost use Rattle.psm_resolve_expr.specs.Exprs.{resolve_query};
ghost use Rattle.psm_resolve_expr.specs.Seen.{seen_at};
ghost use Rattle.psm_resolve_expr.specs.ResolverScope.{on_row};
ghost use Rattle.psm_declare.specs.Seen.{expr_at};
ghost use Rattle.psm_resolve.specs.Statements.{columns_of, on_table, row_of, rows_of, set_of, table_of, which_in};
ghost use Rattle.psm_resolved.specs.declared.statement.ResolvedRows.TheVariants as rows;

use crate::known::cursor_of;
use psm_check_expr::Columns;
use psm_declare::{expr_at, push_expr};
use psm_list::{Boxed, List, OneOrMore};
use psm_resolve_expr::{ResolverScope, on_row, resolve_query, table_columns, table_number};
use psm_resolved::{ResolvedExpr, ResolvedRows, ResolvedSet, ResolvedSimple, ResolvedWhere};
use psm_scope::RowTable;
use psm_symbols::{column_of, inserted};
use psm_tree::{Assignment, Identifier, InsertSource, Names, Values, Where};
use std::alloc::{AllocError, Global};

// ---- INSERT

/// INSERT.
pub(crate) fn insert(
    alloc: Global,
    resolver_scope: ResolverScope,
    table: &Identifier,
    names: &Option<Boxed<Names>>,
    source: &InsertSource,
) -> Result<Boxed<ResolvedSimple>, AllocError>
    ensures { IfOk result (λ s. s ≡ resolved.Insert (table_of (seen_at resolver_scope.entry) table.now) (inserted (columns_of (seen_at resolver_scope.entry) table.now) names.now) (rows_of (seen_at resolver_scope.entry) source.now)) }
{
    let columns = inserted(alloc, table_columns(resolver_scope, &table.name), names)?;
    let rows = rows_of(alloc, resolver_scope, source)?;
    let table = table_number(resolver_scope, &table.name);
    Boxed::new(
        alloc,
        ResolvedSimple::Insert {
            table,
            columns,
            rows,
        },
    )
}

fn rows_of(
    alloc: Global,
    resolver_scope: ResolverScope,
    source: &InsertSource,
) -> Result<Boxed<ResolvedRows>, AllocError>
    ensures { IfOk result (λ resolved. resolved ≡ rows_of (seen_at resolver_scope.entry) source.now) }
{
    match source {
        InsertSource::Values { rows } => listed_rows(alloc, resolver_scope, rows),
        InsertSource::Query(query) => {
            let resolved = resolve_query(alloc, query.get(), resolver_scope)?;
            Boxed::new(alloc, ResolvedRows::Query(resolved.query))
        }
    }
}

fn listed_rows(
    alloc: Global,
    resolver_scope: ResolverScope,
    list: &OneOrMore<Values>,
) -> Result<Boxed<ResolvedRows>, AllocError>
    ensures { IfOk result (λ resolved. resolved ≡ rows.Values (map (row_of (seen_at resolver_scope.entry)) (several list.now))) }
{
    let mut resolved = Vec::new(alloc);
    push_row(alloc, resolver_scope, &list.first, &mut resolved)?;
    for row in list.rest.items() {
        push_row(alloc, resolver_scope, row, &mut resolved)?;
    }
    Boxed::new(alloc, ResolvedRows::Values(List::of(resolved)))
}

fn push_row(
    alloc: Global,
    resolver_scope: ResolverScope,
    row: &Values,
    resolved: &mut Vec<List<Boxed<ResolvedExpr>>>,
) -> Result<(), AllocError>
    ensures { IfOk result (λ _. resolved.new.items ≡ resolved.old.items ++ row_of (seen_at resolver_scope.entry) row.now ∷ []) }
{
    let one = row_of(alloc, resolver_scope, row)?;
    resolved.push(one)?;
    Ok(())
}

fn row_of(
    alloc: Global,
    resolver_scope: ResolverScope,
    row: &Values,
) -> Result<List<Boxed<ResolvedExpr>>, AllocError>
    ensures { IfOk result (λ resolved. resolved ≡ row_of (seen_at resolver_scope.entry) row.now) }
{
    let mut resolved = Vec::new(alloc);
    push_expr(alloc, resolver_scope, row.values.first.get(), &mut resolved)?;
    for e in row.values.rest.items() {
        push_expr(alloc, resolver_scope, e.get(), &mut resolved)?;
    }
    Ok(List::of(resolved))
}

// ---- UPDATE and DELETE

/// UPDATE.
pub(crate) fn update(
    alloc: Global,
    resolver_scope: ResolverScope,
    table: &Identifier,
    assignments: &OneOrMore<Assignment>,
    which: &Option<Where>,
) -> Result<Boxed<ResolvedSimple>, AllocError>
    ensures { IfOk result (λ s. s ≡ resolved.Update (table_of (seen_at resolver_scope.entry) table.now) (map (set_of (on_table (seen_at resolver_scope.entry) table.now) (columns_of (seen_at resolver_scope.entry) table.now)) (several assignments.now)) (which_in (seen_at resolver_scope.entry) table.now which.now)) }
{
    let columns = table_columns(resolver_scope, &table.name);
    let sets = sets_of(alloc, on_table(resolver_scope, table), columns, assignments)?;
    let which = which_in(alloc, resolver_scope, table, which)?;
    let table = table_number(resolver_scope, &table.name);
    Boxed::new(alloc, ResolvedSimple::Update { table, sets, which })
}

/// DELETE.
pub(crate) fn delete(
    alloc: Global,
    resolver_scope: ResolverScope,
    table: &Identifier,
    which: &Option<Where>,
) -> Result<Boxed<ResolvedSimple>, AllocError>
    ensures { IfOk result (λ s. s ≡ resolved.Delete (table_of (seen_at resolver_scope.entry) table.now) (which_in (seen_at resolver_scope.entry) table.now which.now)) }
{
    let which = which_in(alloc, resolver_scope, table, which)?;
    let table = table_number(resolver_scope, &table.name);
    Boxed::new(alloc, ResolvedSimple::Delete { table, which })
}

// What is seen on the rows of a table.
fn on_table<'v, 'a>(
    resolver_scope: ResolverScope<'v, 'a>,
    table: &'v Identifier,
) -> ResolverScope<'v, 'a>
    ensures { seen_at result ≡ on_table (seen_at resolver_scope.entry) table.now }
{
    let row = RowTable {
        name: &table.name,
        alias: None,
        columns: table_columns(resolver_scope, &table.name),
    };
    on_row(resolver_scope, row)
}

fn sets_of(
    alloc: Global,
    resolver_scope: ResolverScope,
    columns: Option<&Columns>,
    assignments: &OneOrMore<Assignment>,
) -> Result<List<ResolvedSet>, AllocError>
    ensures { IfOk result (λ resolved. resolved ≡ map (set_of (seen_at resolver_scope.entry) (columns_known (option_copied columns.entry))) (several assignments.now)) }
{
    let mut resolved = Vec::new(alloc);
    push_set(
        alloc,
        resolver_scope,
        columns,
        &assignments.first,
        &mut resolved,
    )?;
    for assignment in assignments.rest.items() {
        push_set(alloc, resolver_scope, columns, assignment, &mut resolved)?;
    }
    Ok(List::of(resolved))
}

fn push_set(
    alloc: Global,
    resolver_scope: ResolverScope,
    columns: Option<&Columns>,
    assignment: &Assignment,
    resolved: &mut Vec<ResolvedSet>,
) -> Result<(), AllocError>
    ensures { IfOk result (λ _. resolved.new.items ≡ resolved.old.items ++ set_of (seen_at resolver_scope.entry) (columns_known (option_copied columns.entry)) assignment.now ∷ []) }
{
    let source = expr_at(alloc, resolver_scope, assignment.source.get())?;
    let column = column_of(columns, &assignment.column);
    resolved.push(ResolvedSet { column, source })?;
    Ok(())
}

fn which_in(
    alloc: Global,
    resolver_scope: ResolverScope,
    table: &Identifier,
    which: &Option<Where>,
) -> Result<ResolvedWhere, AllocError>
    ensures { IfOk result (λ resolved. resolved ≡ which_in (seen_at resolver_scope.entry) table.now which.now) }
{
    match which {
        None => Ok(ResolvedWhere::All),
        Some(Where::Condition(e)) => {
            let test = expr_at(alloc, on_table(resolver_scope, table), e.get())?;
            Ok(ResolvedWhere::Test(test))
        }
        Some(Where::Current { cursor }) => Ok(ResolvedWhere::Current {
            cursor: cursor_of(resolver_scope.scopes, cursor),
        }),
    }
}
