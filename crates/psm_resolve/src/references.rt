//! FOREIGN KEY constraints (ISO/IEC 9075:1992, 11.8): tables by their numbers, and columns by their places.
ghost use Rattle.std.specs.Prelude.{◌≡◌, ◌++◌, ◌∷◌, [], slice_get, IfOk};
ghost use Rattle.psm_rules.specs.FileFaults.{table_elements};
ghost use Rattle.psm_resolve_expr.specs.ResolverScope.{table_at};
ghost use Rattle.psm_resolve_expr.specs.Seen.{seen_at};
ghost use Rattle.psm_resolve.specs.Files.{foreign_keys, in_file, key_in, key_to, next_place, own_reference, own_references, references_from, references_in, references_of, rule_reference, target_of};

use psm_check_expr::Columns;
use psm_declare::ResolveContext;
use psm_list::List;
use psm_resolve_expr::{ResolverScope, Scopes, table_columns, table_number};
use psm_resolved::ResolvedTable;
use psm_symbols::{columns_of, next_number, places_of};
use psm_table::ForeignKey;
use psm_tree::{ColumnRule, ColumnRuleForm, Element, References, TableRuleForm, TableTree};
use std::alloc::{AllocError, Global};

/// The constraints of the tables of a file, with those tables as they are resolved.
pub(crate) fn foreign_keys(
    resolver: ResolveContext,
    resolved: &[ResolvedTable],
    tables: &[TableTree],
) -> Result<List<ForeignKey>, AllocError>
    ensures { IfOk result (λ keys. keys ≡ foreign_keys resolved.now (in_file resolver.entry.symbols.now) 0 tables.now) }
{
    let scopes = Scopes::new(resolver.alloc);
    keys_of_tables(resolver.alloc, resolver.control(&scopes), resolved, tables)
}

// Tables are numbered from 0.
fn keys_of_tables(
    alloc: Global,
    resolver_scope: ResolverScope,
    resolved: &[ResolvedTable],
    tables: &[TableTree],
) -> Result<List<ForeignKey>, AllocError>
    ensures { IfOk result (λ keys. keys ≡ foreign_keys resolved.now (seen_at resolver_scope.entry) 0 tables.now) }
{
    let mut keys = Vec::new(alloc);
    let mut number = 0;
    for table in tables {
        push_table(alloc, resolver_scope, resolved, number, table, &mut keys)?;
        number = next_number(number)?;
    }
    Ok(List::of(keys))
}

fn push_table(
    alloc: Global,
    resolver_scope: ResolverScope,
    resolved: &[ResolvedTable],
    from: u32,
    table: &TableTree,
    keys: &mut Vec<ForeignKey>,
) -> Result<(), AllocError>
    ensures { IfOk result (λ _. keys.new.items ≡ keys.old.items ++ references_of resolved.now (seen_at resolver_scope.entry) from table.now) }
{
    let columns = columns_of(alloc, table)?;
    push_elements(alloc, resolver_scope, resolved, from, &columns, table, keys)
}

fn push_elements(
    alloc: Global,
    resolver_scope: ResolverScope,
    resolved: &[ResolvedTable],
    from: u32,
    columns: &Columns,
    table: &TableTree,
    keys: &mut Vec<ForeignKey>,
) -> Result<(), AllocError>
    ensures { IfOk result (λ _. keys.new.items ≡ keys.old.items ++ references_from resolved.now (seen_at resolver_scope.entry) from columns.now 0 (table_elements table.now)) }
{
    let first = &table.elements.first;
    let mut place = push_element(
        alloc,
        resolver_scope,
        resolved,
        from,
        columns,
        0,
        first,
        keys,
    )?;
    for element in table.elements.rest.items() {
        place = push_element(
            alloc,
            resolver_scope,
            resolved,
            from,
            columns,
            place,
            element,
            keys,
        )?;
    }
    Ok(())
}

// Puts those of an element after others, and gives the place after it.
fn push_element(
    alloc: Global,
    resolver_scope: ResolverScope,
    resolved: &[ResolvedTable],
    from: u32,
    columns: &Columns,
    place: u32,
    element: &Element,
    keys: &mut Vec<ForeignKey>,
) -> Result<u32, AllocError>
    ensures next { IfOk result (λ n. n ≡ next_place place element.now) }
    ensures keys { IfOk result (λ _. keys.new.items ≡ keys.old.items ++ references_in resolved.now (seen_at resolver_scope.entry) from columns.now place element.now) }
{
    match element {
        Element::Column { rules, .. } => {
            push_own_rules(
                alloc,
                resolver_scope,
                resolved,
                from,
                place,
                rules.items(),
                keys,
            )?;
            next_number(place)
        }
        Element::Rule(rule) => {
            push_rule(
                alloc,
                resolver_scope,
                resolved,
                from,
                columns,
                &rule.form,
                keys,
            )?;
            Ok(place)
        }
    }
}

// ---- rules

fn push_own_rules(
    alloc: Global,
    resolver_scope: ResolverScope,
    resolved: &[ResolvedTable],
    from: u32,
    place: u32,
    rules: &[ColumnRule],
    keys: &mut Vec<ForeignKey>,
) -> Result<(), AllocError>
    ensures { IfOk result (λ _. keys.new.items ≡ keys.old.items ++ own_references resolved.now (seen_at resolver_scope.entry) from place rules.now) }
{
    for rule in rules {
        push_own_rule(
            alloc,
            resolver_scope,
            resolved,
            from,
            place,
            &rule.form,
            keys,
        )?;
    }
    Ok(())
}

fn push_own_rule(
    alloc: Global,
    resolver_scope: ResolverScope,
    resolved: &[ResolvedTable],
    from: u32,
    place: u32,
    form: &ColumnRuleForm,
    keys: &mut Vec<ForeignKey>,
) -> Result<(), AllocError>
    ensures { IfOk result (λ _. keys.new.items ≡ keys.old.items ++ own_reference resolved.now (seen_at resolver_scope.entry) from place form.now) }
{
    match form {
        ColumnRuleForm::NotNull
        | ColumnRuleForm::PrimaryKey
        | ColumnRuleForm::Unique
        | ColumnRuleForm::Check(_) => Ok(()),
        ColumnRuleForm::References(references) => {
            let places = vec![in alloc; place]?;
            let columns = List::of(places);
            push_key(
                alloc,
                resolver_scope,
                resolved,
                from,
                columns,
                references,
                keys,
            )
        }
    }
}

fn push_rule(
    alloc: Global,
    resolver_scope: ResolverScope,
    resolved: &[ResolvedTable],
    from: u32,
    columns: &Columns,
    form: &TableRuleForm,
    keys: &mut Vec<ForeignKey>,
) -> Result<(), AllocError>
    ensures { IfOk result (λ _. keys.new.items ≡ keys.old.items ++ rule_reference resolved.now (seen_at resolver_scope.entry) from columns.now form.now) }
{
    match form {
        TableRuleForm::PrimaryKey(_) | TableRuleForm::Unique(_) | TableRuleForm::Check(_) => Ok(()),
        TableRuleForm::ForeignKey {
            columns: names,
            references,
        } => {
            let places = places_of(alloc, Some(columns), names)?;
            push_key(
                alloc,
                resolver_scope,
                resolved,
                from,
                places,
                references,
                keys,
            )
        }
    }
}

// ---- a constraint

fn push_key(
    alloc: Global,
    resolver_scope: ResolverScope,
    resolved: &[ResolvedTable],
    from: u32,
    columns: List<u32>,
    references: &References,
    keys: &mut Vec<ForeignKey>,
) -> Result<(), AllocError>
    ensures { IfOk result (λ _. keys.new.items ≡ keys.old.items ++ key_to resolved.now (seen_at resolver_scope.entry) from columns references.now ∷ []) }
{
    let target = target_of(alloc, resolver_scope, resolved, references)?;
    let to = table_number(resolver_scope, &references.table.name);
    keys.push(ForeignKey {
        from,
        columns,
        to,
        target,
    })?;
    Ok(())
}

// The places of the columns that are referred to.
fn target_of(
    alloc: Global,
    resolver_scope: ResolverScope,
    resolved: &[ResolvedTable],
    references: &References,
) -> Result<List<u32>, AllocError>
    ensures { IfOk result (λ places. places ≡ target_of resolved.now (table_at (seen_at resolver_scope.entry) references.now.table.name) references.now.columns) }
{
    let table = &references.table.name;
    match &references.columns {
        None => key_of_table(alloc, resolved, table_number(resolver_scope, table)),
        Some(names) => places_of(alloc, table_columns(resolver_scope, table), names),
    }
}

fn key_of_table(
    alloc: Global,
    resolved: &[ResolvedTable],
    number: u32,
) -> Result<List<u32>, AllocError>
    ensures { IfOk result (λ key. key ≡ key_in (slice_get resolved.now number)) }
{
    match resolved.get(number as usize) {
        None => Ok(List::of(Vec::new(alloc))),
        Some(table) => {
            let key = Vec::from_slice(alloc, table.definition.key.items())?;
            Ok(List::of(key))
        }
    }
}
