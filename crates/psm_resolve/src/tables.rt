//! Tables: their columns, keys and UNIQUE lists by places, and their CHECKs.
ghost use Rattle.std.specs.Prelude.{◌≡◌, ◌++◌, [], map, nat_eq, Some, IfOk};
ghost use Rattle.std.specs.List.{list_any};
ghost use Rattle.psm_rules.specs.FileFaults.{columns_of, no_symbols, table_elements};
ghost use Rattle.psm_rules.specs.Types.{type_of};
ghost use Rattle.psm_resolve_expr.specs.Exprs.{type_known};
ghost use Rattle.psm_resolve_expr.specs.Seen.{seen_at};
ghost use Rattle.psm_resolve.specs.Files.{checks_in, checks_of, column_in, column_with, defined_from, key_of, next_place, on_columns, own_check, own_checks, own_unique, own_uniques, rule_check, rule_unique, says_not_null, resolve_table, unique_in, uniques_from};

use crate::constants::default_of;
use crate::keys::key_of;
use psm_check_expr::{Columns, SymbolTable};
use psm_declare::{known_type, push_expr};
use psm_list::{Boxed, List};
use psm_resolve_expr::{ResolverScope, Scopes};
use psm_resolved::{ResolvedExpr, ResolvedTable};
use psm_scope::RowTable;
use psm_symbols::{columns_of, next_number, places_of};
use psm_table::{Column, TableDef};
use psm_text::Name;
use psm_tree::{
    ColumnRule, ColumnRuleForm, Constant, DataType, Element, Identifier, TableRuleForm, TableTree,
};
use std::alloc::{AllocError, Global};

/// The tables of a file.
pub(crate) fn resolve_tables(
    alloc: Global,
    tables: &[TableTree],
) -> Result<List<ResolvedTable>, AllocError>
    ensures { IfOk result (λ resolved. resolved ≡ map resolve_table tables.now) }
{
    let mut resolved = Vec::new(alloc);
    for table in tables {
        resolved.push(resolve_table(alloc, table)?)?;
    }
    Ok(List::of(resolved))
}

fn resolve_table(alloc: Global, table: &TableTree) -> Result<ResolvedTable, AllocError>
    ensures { IfOk result (λ resolved. resolved ≡ resolve_table table.now) }
{
    let symbols = SymbolTable::new(alloc);
    let scopes = Scopes::new(alloc);
    table_alone(alloc, &symbols, &scopes, table)
}

// A table, where nothing else is known.
fn table_alone<'a>(
    alloc: Global,
    symbols: &SymbolTable<'a>,
    scopes: &Scopes<'a>,
    table: &'a TableTree,
) -> Result<ResolvedTable, AllocError>
    requires nothing_known { symbols.now ≡ no_symbols }
    requires nothing_around { scopes.now ≡ [] }
    ensures { IfOk result (λ resolved. resolved ≡ resolve_table table.now) }
{
    let columns = columns_of(alloc, table)?;
    let resolver_scope = on_columns(table, &columns, symbols, scopes);
    table_on(alloc, resolver_scope, &columns, table)
}

// A CHECK sees the columns of its table alone, of which a symbol table and scopes with nothing in them know nothing.
fn on_columns<'v, 'a>(
    table: &'v TableTree,
    columns: &'v Columns<'a>,
    symbols: &'v SymbolTable<'a>,
    scopes: &'v Scopes<'a>,
) -> ResolverScope<'v, 'a>
    requires nothing_known { symbols.now ≡ no_symbols }
    requires nothing_around { scopes.now ≡ [] }
    ensures { seen_at result ≡ on_columns table.now.name.name columns.now }
{
    ResolverScope {
        symbols,
        scopes,
        row: Some(RowTable {
            name: &table.name.name,
            alias: None,
            columns: Some(columns),
        }),
    }
}

// A table with its columns.
fn table_on(
    alloc: Global,
    resolver_scope: ResolverScope,
    columns: &Columns,
    table: &TableTree,
) -> Result<ResolvedTable, AllocError>
    requires columns { columns.now ≡ columns_of (table_elements table.now) }
    requires seen { seen_at resolver_scope ≡ on_columns table.now.name.name columns.now }
    ensures { IfOk result (λ resolved. resolved ≡ resolve_table table.now) }
{
    let name = table.name.name.copy(alloc)?;
    let key = key_of(alloc, columns, table)?;
    let parts = parts_of(alloc, resolver_scope, columns, key.items(), table)?;
    Ok(table_with(name, key, parts))
}

fn table_with(name: Name, key: List<u32>, parts: TableParts) -> ResolvedTable
    ensures { result ≡ record { definition = record { name = name; columns = parts.columns.items; key = key; unique = parts.unique.items }; checks = parts.checks.items } }
{
    let TableParts {
        columns,
        unique,
        checks,
    } = parts;
    let definition = TableDef {
        name,
        columns: List::of(columns),
        key,
        unique: List::of(unique),
    };
    ResolvedTable {
        definition,
        checks: List::of(checks),
    }
}

/// The columns, the UNIQUE lists and the CHECKs of a table so far.
#[derive(Drop)]
struct TableParts {
    columns: Vec<Column>,
    unique: Vec<List<u32>>,
    checks: Vec<Boxed<ResolvedExpr>>,
}

fn parts_of(
    alloc: Global,
    resolver_scope: ResolverScope,
    columns: &Columns,
    key: &[u32],
    table: &TableTree,
) -> Result<TableParts, AllocError>
    ensures columns { IfOk result (λ p. p.columns.items ≡ defined_from key.now 0 (table_elements table.now)) }
    ensures unique { IfOk result (λ p. p.unique.items ≡ uniques_from columns.now 0 (table_elements table.now)) }
    ensures checks { IfOk result (λ p. p.checks.items ≡ checks_of (seen_at resolver_scope.entry) (table_elements table.now)) }
{
    let mut parts = TableParts {
        columns: Vec::new(alloc),
        unique: Vec::new(alloc),
        checks: Vec::new(alloc),
    };
    let first = &table.elements.first;
    let mut place = push_element(alloc, resolver_scope, columns, key, 0, first, &mut parts)?;
    for element in table.elements.rest.items() {
        place = push_element(
            alloc,
            resolver_scope,
            columns,
            key,
            place,
            element,
            &mut parts,
        )?;
    }
    Ok(parts)
}

// Puts an element after others, and gives the place after it.
fn push_element(
    alloc: Global,
    resolver_scope: ResolverScope,
    columns: &Columns,
    key: &[u32],
    place: u32,
    element: &Element,
    parts: &mut TableParts,
) -> Result<u32, AllocError>
    ensures next { IfOk result (λ n. n ≡ next_place place element.now) }
    ensures columns { IfOk result (λ _. parts.new.columns.items ≡ parts.old.columns.items ++ column_in key.now place element.now) }
    ensures unique { IfOk result (λ _. parts.new.unique.items ≡ parts.old.unique.items ++ unique_in columns.now place element.now) }
    ensures checks { IfOk result (λ _. parts.new.checks.items ≡ parts.old.checks.items ++ checks_in (seen_at resolver_scope.entry) element.now) }
{
    match element {
        Element::Column {
            name,
            kind,
            default,
            rules,
        } => {
            let column = column_with(alloc, key, place, name, kind, default, rules.items())?;
            parts.columns.push(column)?;
            push_own_rules(alloc, resolver_scope, place, rules.items(), parts)?;
            next_number(place)
        }
        Element::Rule(rule) => {
            push_rule(alloc, resolver_scope, columns, &rule.form, parts)?;
            Ok(place)
        }
    }
}

// ---- columns

fn column_with(
    alloc: Global,
    key: &[u32],
    place: u32,
    name: &Identifier,
    kind: &DataType,
    default: &Option<Constant>,
    rules: &[ColumnRule],
) -> Result<Column, AllocError>
    ensures { IfOk result (λ c. c ≡ column_with key.now place name.now.name (type_known (type_of kind.now)) default.now rules.now) }
{
    let kind = known_type(kind);
    let default = default_of(alloc, kind, default)?;
    Ok(Column {
        name: name.name.copy(alloc)?,
        kind,
        not_null: says_not_null(rules) || is_in_key(place, key),
        default,
    })
}

fn says_not_null(rules: &[ColumnRule]) -> bool
    ensures { result ≡ list_any (λ r. says_not_null r.form) rules.now }
{
    rules.iter().any(|rule| is_not_null(&rule.form))
}

fn is_not_null(form: &ColumnRuleForm) -> bool
    ensures { result ≡ says_not_null form.now }
{
    match form {
        ColumnRuleForm::NotNull => true,
        ColumnRuleForm::PrimaryKey
        | ColumnRuleForm::Unique
        | ColumnRuleForm::Check(_)
        | ColumnRuleForm::References(_) => false,
    }
}

fn is_in_key(place: u32, key: &[u32]) -> bool
    ensures { result ≡ list_any (nat_eq place) key.now }
{
    key.iter().any(|k| place == *k)
}

// ---- rules

fn push_own_rules(
    alloc: Global,
    resolver_scope: ResolverScope,
    place: u32,
    rules: &[ColumnRule],
    parts: &mut TableParts,
) -> Result<(), AllocError>
    ensures columns { IfOk result (λ _. parts.new.columns.items ≡ parts.old.columns.items) }
    ensures unique { IfOk result (λ _. parts.new.unique.items ≡ parts.old.unique.items ++ own_uniques place rules.now) }
    ensures checks { IfOk result (λ _. parts.new.checks.items ≡ parts.old.checks.items ++ own_checks (seen_at resolver_scope.entry) rules.now) }
{
    for rule in rules {
        push_own_rule(alloc, resolver_scope, place, &rule.form, parts)?;
    }
    Ok(())
}

fn push_own_rule(
    alloc: Global,
    resolver_scope: ResolverScope,
    place: u32,
    form: &ColumnRuleForm,
    parts: &mut TableParts,
) -> Result<(), AllocError>
    ensures columns { IfOk result (λ _. parts.new.columns.items ≡ parts.old.columns.items) }
    ensures unique { IfOk result (λ _. parts.new.unique.items ≡ parts.old.unique.items ++ own_unique place form.now) }
    ensures checks { IfOk result (λ _. parts.new.checks.items ≡ parts.old.checks.items ++ own_check (seen_at resolver_scope.entry) form.now) }
{
    match form {
        ColumnRuleForm::NotNull | ColumnRuleForm::PrimaryKey | ColumnRuleForm::References(_) => {
            Ok(())
        }
        ColumnRuleForm::Unique => {
            let places = vec![in alloc; place]?;
            parts.unique.push(List::of(places))?;
            Ok(())
        }
        ColumnRuleForm::Check(e) => push_expr(alloc, resolver_scope, e.get(), &mut parts.checks),
    }
}

fn push_rule(
    alloc: Global,
    resolver_scope: ResolverScope,
    columns: &Columns,
    form: &TableRuleForm,
    parts: &mut TableParts,
) -> Result<(), AllocError>
    ensures columns { IfOk result (λ _. parts.new.columns.items ≡ parts.old.columns.items) }
    ensures unique { IfOk result (λ _. parts.new.unique.items ≡ parts.old.unique.items ++ rule_unique columns.now form.now) }
    ensures checks { IfOk result (λ _. parts.new.checks.items ≡ parts.old.checks.items ++ rule_check (seen_at resolver_scope.entry) form.now) }
{
    match form {
        TableRuleForm::PrimaryKey(_) | TableRuleForm::ForeignKey { .. } => Ok(()),
        TableRuleForm::Unique(names) => {
            let places = places_of(alloc, Some(columns), names)?;
            parts.unique.push(places)?;
            Ok(())
        }
        TableRuleForm::Check(e) => push_expr(alloc, resolver_scope, e.get(), &mut parts.checks),
    }
}
