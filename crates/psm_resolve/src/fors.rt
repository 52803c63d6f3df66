//! The head of FOR: its query, its cursor, and a variable for each item.
ghost use Rattle.std.specs.Prelude.{◌≡◌, ◌++◌, ◌∷◌, [], drop, map, not, option_map, Some, None, IfOk, IsTrue};
ghost use Rattle.std.specs.Option.{option_copied};
ghost use Rattle.psm_scope.specs.Rows.{columns_known, meaning_of};
ghost use Rattle.psm_scope.specs.KeptScopes.{can_declare_here};
ghost use Rattle.psm_rules.specs.BlockFaults.{last_name};
ghost use Rattle.psm_rules.specs.StatementFaults.{several};
ghost use Rattle.psm_tree.specs.declared.expr.Expr.{out-Expr};
ghost use Rattle.psm_tree.specs.declared.expr.Pick.{out-Pick};
ghost use Rattle.psm_tree.specs.declared.expr.Select.{out-Select};
ghost use Rattle.psm_resolve_expr.specs.Exprs.{resolve_expr, type_known};
ghost use Rattle.psm_resolve_expr.specs.Seen.{seen_at};
ghost use Rattle.psm_declare.specs.Numbering.{next_slot};
ghost use Rattle.psm_declare.specs.Seen.{control};
ghost use Rattle.psm_resolve.specs.Seen.{column_seen, item_seen};
ghost use Rattle.psm_resolve.specs.Blocks.{column_items, column_meant, cursor_name, for_items, head_of, is_insensitive, item_column, item_of, item_slots, item_type, items_in, items_of_pick, own_name, numbered_for_cursor, numbered_head, numbered_item, numbered_items, wide_type};

use psm_check_expr::{Columns, row_of};
use psm_declare::{Numbering, ResolveContext, declare_cursor, declare_variable, ordered_query};
use psm_list::{Boxed, List};
use psm_resolve_expr::{ResolverScope, Scopes, name_in, on_row, resolve_expr, table_columns};
use psm_resolved::{ResolvedCursor, ResolvedFor, ResolvedQuery};
use psm_rules::{Family, Shape, family_of};
use psm_scope::{Meant, ScopeKind};
use psm_symbols::last_name;
use psm_text::Name;
use psm_tree::{Expr, ForCursor, ForHead, Identifier, Pick, Select, Target};
use psm_value::SqlType;
use std::alloc::{AllocError, Global};

/// The head of FOR. Goes into the scope of its statements.
#[tactic(auto, using(crate::proofs::Outside::popped))]
pub(crate) fn enter_for<'w, 'a>(
    resolver: ResolveContext<'w, 'a>,
    scopes: &mut Scopes<'a>,
    numbering: &mut Numbering<'a>,
    label: Option<&'a Name>,
    head: &'a ForHead,
) -> Result<Boxed<ResolvedFor>, AllocError>
    ensures resolved { IfOk result (λ h. h ≡ head_of (control resolver.entry scopes.old) head.now numbering.old) }
    ensures scopes { IfOk result (λ _. scopes.new ≡ (numbered_head (control resolver.entry scopes.old) (option_copied label.entry) head.now numbering.old).0) }
    ensures numbering { IfOk result (λ _. numbering.new ≡ (numbered_head (control resolver.entry scopes.old) (option_copied label.entry) head.now numbering.old).1) }
    ensures outer { IfOk result (λ _. drop 1 scopes.new ≡ scopes.old) }
{
    let query = ordered_query(resolver.alloc, resolver.control(scopes), &head.query)?;
    let items = for_items(resolver, scopes, head.query.query.get())?;
    scopes.push(ScopeKind::For(label, &head.name.name))?;
    let number = declare_for_cursor(scopes, numbering, &head.cursor)?;
    let slots = declare_items(resolver.alloc, scopes, numbering, items.as_slice())?;
    let resolved = head_with(resolver.alloc, head, number, query, slots)?;
    Ok(resolved)
}

fn head_with(
    alloc: Global,
    head: &ForHead,
    number: u32,
    query: Boxed<ResolvedQuery>,
    slots: List<u32>,
) -> Result<Boxed<ResolvedFor>, AllocError>
    ensures { IfOk result (λ h. h ≡ record { cursor = record { number = number; name = cursor_name head.now.name head.now.cursor; insensitive = is_insensitive head.now.cursor; updatable = not (is_insensitive head.now.cursor); query = query }; slots = slots }) }
{
    let name = cursor_name(head).copy(alloc)?;
    let insensitive = is_insensitive(&head.cursor);
    let cursor = ResolvedCursor {
        number,
        name,
        insensitive,
        updatable: !insensitive,
        query,
    };
    Boxed::new(alloc, ResolvedFor { cursor, slots })
}

// ---- the cursor

fn cursor_name(head: &ForHead) -> &Name
    ensures { result.now ≡ cursor_name head.now.name head.now.cursor }
{
    match &head.cursor {
        None => &head.name.name,
        Some(cursor) => &cursor.name.name,
    }
}

fn is_insensitive(cursor: &Option<ForCursor>) -> bool
    ensures { result ≡ is_insensitive cursor.now }
{
    match cursor {
        None => false,
        Some(cursor) => cursor.insensitive,
    }
}

// The number of the cursor, which can be named where it has a name.
fn declare_for_cursor<'a>(
    scopes: &mut Scopes<'a>,
    numbering: &mut Numbering<'a>,
    cursor: &'a Option<ForCursor>,
) -> Result<u32, AllocError>
    requires { IsTrue (can_declare_here scopes.old) }
    ensures number { IfOk result (λ number. number ≡ numbering.old.cursors) }
    ensures scopes { IfOk result (λ _. scopes.new ≡ (numbered_for_cursor (scopes.old, numbering.old) cursor.now).0) }
    ensures numbering { IfOk result (λ _. numbering.new ≡ (numbered_for_cursor (scopes.old, numbering.old) cursor.now).1) }
    ensures open { IfOk result (λ _. IsTrue (can_declare_here scopes.new)) }
{
    let number = numbering.cursor()?;
    match cursor {
        None => Ok(number),
        Some(cursor) => {
            declare_cursor(scopes, &cursor.name.name, number)?;
            Ok(number)
        }
    }
}

// ---- the items

/// An item: the name of its variable, where it has one, and the type.
#[derive(Clone, Copy)]
pub(crate) struct ForItem<'a> {
    pub(crate) name: Option<&'a Name>,
    pub(crate) kind: SqlType,
}

/// A column that an item names.
#[derive(Clone, Copy)]
pub(crate) struct NamedColumn<'a> {
    pub(crate) name: &'a Name,
    pub(crate) kind: Option<SqlType>,
}

// The items of the query, on the rows of its table.
fn for_items<'w, 'a>(
    resolver: ResolveContext<'w, 'a>,
    scopes: &Scopes<'a>,
    select: &'a Select,
) -> Result<Vec<ForItem<'a>>, AllocError>
    ensures { IfOk result (λ items. map item_seen items.items ≡ for_items (control resolver.entry scopes.now) select.now) }
{
    let resolver_scope = resolver.control(scopes);
    let columns = table_columns(resolver_scope, &select.table.name);
    let inside = on_row(resolver_scope, row_of(select, columns));
    items_in(resolver.alloc, inside, columns, select)
}

fn items_in<'a>(
    alloc: Global,
    resolver_scope: ResolverScope,
    columns: Option<&Columns<'a>>,
    select: &'a Select,
) -> Result<Vec<ForItem<'a>>, AllocError>
    ensures { IfOk result (λ items. map item_seen items.items ≡ items_in (seen_at resolver_scope.entry) (columns_known (option_copied columns.entry)) (several (out-Select select.now).picks)) }
{
    let picks = &select.picks;
    let mut items = Vec::new(alloc);
    push_items(
        alloc,
        resolver_scope,
        columns,
        picks.first.get(),
        &mut items,
    )?;
    for pick in picks.rest.items() {
        push_items(alloc, resolver_scope, columns, pick.get(), &mut items)?;
    }
    Ok(items)
}

#[tactic(auto, using(crate::proofs::Layers::pick_layers))]
fn push_items<'a>(
    alloc: Global,
    resolver_scope: ResolverScope,
    columns: Option<&Columns<'a>>,
    pick: &'a Pick,
    items: &mut Vec<ForItem<'a>>,
) -> Result<(), AllocError>
    ensures { IfOk result (λ _. map item_seen items.new.items ≡ map item_seen items.old.items ++ items_of_pick (seen_at resolver_scope.entry) (columns_known (option_copied columns.entry)) (out-Pick pick.now)) }
{
    match pick {
        Pick::All { .. } => push_columns(columns, items),
        Pick::Expr { expr, alias } => {
            let item = item_of(alloc, resolver_scope, expr.get(), alias)?;
            items.push(item)?;
            Ok(())
        }
        Pick::CountRows { .. } | Pick::Aggregate { .. } => Ok(()),
    }
}

fn push_columns<'a>(
    columns: Option<&Columns<'a>>,
    items: &mut Vec<ForItem<'a>>,
) -> Result<(), AllocError>
    ensures { IfOk result (λ _. map item_seen items.new.items ≡ map item_seen items.old.items ++ column_items (columns_known (option_copied columns.entry))) }
{
    match columns {
        None => Ok(()),
        Some(columns) => push_each_column(columns, items),
    }
}

fn push_each_column<'a>(
    columns: &Columns<'a>,
    items: &mut Vec<ForItem<'a>>,
) -> Result<(), AllocError>
    ensures { IfOk result (λ _. map item_seen items.new.items ≡ map item_seen items.old.items ++ column_items columns.now) }
{
    for place in 0..columns.len() {
        push_column(columns.name(place), *columns.at(place), items)?;
    }
    Ok(())
}

fn push_column<'a>(
    name: &'a Name,
    kind: Option<SqlType>,
    items: &mut Vec<ForItem<'a>>,
) -> Result<(), AllocError>
    ensures { IfOk result (λ _. map item_seen items.new.items ≡ map item_seen items.old.items ++ (Some name.now, type_known kind) ∷ []) }
{
    let item = ForItem {
        name: Some(name),
        kind: known(kind),
    };
    items.push(item)?;
    Ok(())
}

fn item_of<'a>(
    alloc: Global,
    resolver_scope: ResolverScope,
    e: &'a Expr,
    alias: &'a Option<Identifier>,
) -> Result<ForItem<'a>, AllocError>
    ensures { IfOk result (λ item. item_seen item ≡ item_of (seen_at resolver_scope.entry) e.now alias.now) }
{
    let column = item_column(resolver_scope, e);
    let kind = item_type(alloc, resolver_scope, e, column)?;
    Ok(ForItem {
        name: own_name(alias, column),
        kind,
    })
}

// The column that an item is, where it is a name by itself.
#[tactic(auto, using(crate::proofs::Layers::expr_layers))]
fn item_column<'a>(resolver_scope: ResolverScope, e: &'a Expr) -> Option<NamedColumn<'a>>
    ensures { option_map column_seen result ≡ item_column (seen_at resolver_scope.entry) (out-Expr e.now) }
{
    match e {
        Expr::Name(target) => column_meant(name_in(resolver_scope, target), target),
        _ => None,
    }
}

fn column_meant<'a>(meant: Option<Meant>, target: &'a Target) -> Option<NamedColumn<'a>>
    ensures { option_map column_seen result ≡ column_meant target.now (option_map meaning_of meant) }
{
    match meant {
        Some(Meant::Column(_, kind)) => Some(NamedColumn {
            name: last_name(target),
            kind,
        }),
        Some(Meant::Variable(_)) | None => None,
    }
}

// The name of an item: its own, or that of its column.
fn own_name<'a>(alias: &'a Option<Identifier>, column: Option<NamedColumn<'a>>) -> Option<&'a Name>
    ensures { option_copied result ≡ own_name alias.now (option_map column_seen column.entry) }
{
    match alias {
        Some(alias) => Some(&alias.name),
        None => match column {
            None => None,
            Some(column) => Some(column.name),
        },
    }
}

// A column has the column's type.
fn item_type(
    alloc: Global,
    resolver_scope: ResolverScope,
    e: &Expr,
    column: Option<NamedColumn>,
) -> Result<SqlType, AllocError>
    ensures { IfOk result (λ kind. kind ≡ item_type (option_map column_seen column.entry) (resolve_expr e.now (seen_at resolver_scope.entry)).shape) }
{
    match column {
        Some(column) => Ok(known(column.kind)),
        None => {
            let resolved = resolve_expr(alloc, e, resolver_scope)?;
            Ok(wide_type(resolved.shape))
        }
    }
}

fn known(kind: Option<SqlType>) -> SqlType
    ensures { result ≡ type_known kind }
{
    match kind {
        None => SqlType::Integer,
        Some(kind) => kind,
    }
}

// Another number has NUMERIC(18, s) and another text VARCHAR(4000).
fn wide_type(shape: Shape) -> SqlType
    ensures { result ≡ wide_type shape }
{
    match shape {
        Shape::Value(t) => match family_of(t.kind) {
            Family::Numbers => SqlType::Numeric { p: 18, s: t.scale },
            Family::Texts => SqlType::VarChar { n: 4000 },
        },
        Shape::Untyped | Shape::Condition => SqlType::Integer,
    }
}

// ---- the variables

// The slots of the items, whose variables are declared where they have names.
fn declare_items<'a>(
    alloc: Global,
    scopes: &mut Scopes<'a>,
    numbering: &mut Numbering<'a>,
    items: &[ForItem<'a>],
) -> Result<List<u32>, AllocError>
    requires { IsTrue (can_declare_here scopes.old) }
    ensures slots { IfOk result (λ slots. slots ≡ item_slots (next_slot numbering.old) (map item_seen items.now)) }
    ensures scopes { IfOk result (λ _. scopes.new ≡ (numbered_items (scopes.old, numbering.old) (map item_seen items.now)).0) }
    ensures numbering { IfOk result (λ _. numbering.new ≡ (numbered_items (scopes.old, numbering.old) (map item_seen items.now)).1) }
{
    let mut slots = Vec::new(alloc);
    for item in items {
        slots.push(declare_item(scopes, numbering, *item)?)?;
    }
    Ok(List::of(slots))
}

fn declare_item<'a>(
    scopes: &mut Scopes<'a>,
    numbering: &mut Numbering<'a>,
    item: ForItem<'a>,
) -> Result<u32, AllocError>
    requires { IsTrue (can_declare_here scopes.old) }
    ensures slot { IfOk result (λ slot. slot ≡ next_slot numbering.old) }
    ensures scopes { IfOk result (λ _. scopes.new ≡ (numbered_item (scopes.old, numbering.old) (item_seen item.entry)).0) }
    ensures numbering { IfOk result (λ _. numbering.new ≡ (numbered_item (scopes.old, numbering.old) (item_seen item.entry)).1) }
    ensures open { IfOk result (λ _. IsTrue (can_declare_here scopes.new)) }
{
    match item.name {
        None => numbering.slot(item.kind),
        Some(name) => declare_variable(scopes, numbering, name, item.kind),
    }
}
