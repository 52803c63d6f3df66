//! FOR: its query, and the variables that it declares.
ghost use Rattle.std.specs.Prelude.{◌≡◌, ◌∷◌, IfOk, IsTrue, map, not, option_map, true};
ghost use Rattle.std.specs.Option.{option_copied};
ghost use Rattle.psm_scope.specs.Rows.{columns_known, meaning_of};
ghost use Rattle.psm_scope.specs.KeptScopes.{can_declare_here};
ghost use Rattle.psm_tree.specs.declared.expr.Expr.{out-Expr};
ghost use Rattle.psm_tree.specs.declared.expr.Pick.{out-Pick};
ghost use Rattle.psm_tree.specs.declared.expr.Select.{out-Select};
ghost use Rattle.psm_rules.specs.declared.rule.Rule.TheVariants as rule;
ghost use Rattle.psm_rules.specs.Faults.{breaks_if, first_of};
ghost use Rattle.psm_rules.specs.ExprFaults.{check_pick, check_query};
ghost use Rattle.psm_rules.specs.StatementFaults.{several};
ghost use Rattle.psm_rules.specs.BlockFaults.{column_named, cursor_on, for_item, for_items, for_query_fault, for_variables, checked_query, head_fault, head_scope, item_column, item_of_for, item_type, items_in, last_name, named_fault, order_fault, own_name, pick_column, unless_broken, wide_type, with_columns, with_item, with_named};
ghost use Rattle.psm_check_stmt.specs.ForItems.{column_of, item_of, variables_here, with_for_cursor, with_variables_here};
ghost use Rattle.psm_check_stmt.specs.InRoutine.{context};
ghost use Rattle.psm_check_expr.specs.Seen.{pick_of, seen_in_checker_scope};

use crate::cursors::{cursor_on, order_fault};
use crate::declaring::{declare_cursor, declare_variable};
use crate::statements::Context;
use psm_check_expr::{
    CheckedCursor, CheckerScope, Columns, PickChecked, QueryChecked, Scopes, check_query,
    first_set, misplaced_set, name_in, on_row, row_of, table_fault, test_fault,
};
use psm_list::List;
use psm_rules::{
    Checked, Family, Fault, Picked, Rule, Shape, as_value, breaks, earlier, family_of,
};
use psm_scope::{Meant, ScopeKind};
use psm_symbols::last_name;
use psm_text::Name;
use psm_tree::{Expr, ForCursor, ForHead, Identifier, Pick, Select, Target};
use psm_value::SqlType;
use std::alloc::{AllocError, Global};

/// A column that an item names.
#[derive(Clone, Copy)]
struct NamedColumn<'a> {
    name: &'a Name,
    kind: Option<SqlType>,
}

/// The first fault of FOR's head. Goes into the scope of its statements.
#[tactic(auto, using(psm_check_expr::proofs::Equations::checked_columns))]
pub(crate) fn for_fault<'w, 'a>(
    c: Context<'w, 'a>,
    scopes: &mut Scopes<'a>,
    label: Option<&'a Name>,
    head: &'a ForHead,
) -> Result<Option<Fault>, AllocError>
    ensures fault { IfOk result (λ f. f ≡ head_fault (context c.entry scopes.old).checker_scope head.now) }
    ensures scopes { IfOk result (λ _. scopes.new ≡ head_scope (context c.entry scopes.old).checker_scope (option_copied label.entry) head.now ∷ scopes.old) }
{
    let checked = head_checked(c, scopes, head)?;
    let columns = c.symbols.columns(&head.query.query.get().table.name);
    scopes.push(ScopeKind::For(label, &head.name.name))?;
    let own = items_fault(scopes, checked.items.items(), columns)?;
    declare_for_cursor(scopes, &head.cursor, checked.cursor)?;
    Ok(earlier(earlier(own, checked.others), checked.order))
}

/// What is found in FOR's head.
#[derive(Drop)]
struct HeadChecked<'a> {
    items: List<ForItem<'a>>,
    cursor: Option<CheckedCursor<'a>>,
    /// The faults of the query beside those of the items.
    others: Option<Fault>,
    /// An order of other columns than those of the key.
    order: Option<Fault>,
}

#[tactic(auto, using(psm_check_expr::proofs::Equations::checked_table))]
fn head_checked<'w, 'a>(
    c: Context<'w, 'a>,
    scopes: &Scopes<'a>,
    head: &'a ForHead,
) -> Result<HeadChecked<'a>, AllocError>
    ensures items { IfOk result (λ h. map item_of h.items ≡ items_in (context c.entry scopes.now).checker_scope head.now.query.query) }
    ensures cursor { IfOk result (λ h. h.cursor ≡ option_map (λ f. cursor_on (checked_query (context c.entry scopes.now).checker_scope head.now.query) (not f.insensitive) true) head.now.cursor) }
    ensures others { IfOk result (λ h. h.others ≡ for_query_fault (checked_query (context c.entry scopes.now).checker_scope head.now.query)) }
    ensures order { IfOk result (λ h. h.order ≡ order_fault (context c.entry scopes.now).checker_scope.symbols (checked_query (context c.entry scopes.now).checker_scope head.now.query).table head.now.query.order) }
{
    let select = head.query.query.get();
    let query = check_query(c.alloc, select, c.checker_scope(scopes))?;
    let items = for_items(c, scopes, select, &query)?;
    let cursor = for_cursor(c.alloc, &select.table, &query, &head.cursor)?;
    Ok(HeadChecked {
        items,
        cursor,
        others: query_fault(&query),
        order: order_fault(c.symbols, &select.table, &head.query.order),
    })
}

// The faults beside those of the items: no set function stands in FOR.
fn query_fault(query: &QueryChecked) -> Option<Fault>
    ensures { result ≡ for_query_fault query.now }
{
    let sets = misplaced_set(true, first_set(query.picks.as_slice()));
    let table = table_fault(query.table, query.columns);
    earlier(earlier(sets, table), test_fault(query.test))
}

// ---- the cursor

fn for_cursor<'a>(
    alloc: Global,
    table: &'a Identifier,
    query: &QueryChecked,
    cursor: &Option<ForCursor>,
) -> Result<Option<CheckedCursor<'a>>, AllocError>
    requires { query.now.table ≡ table.now }
    ensures { IfOk result (λ k. k ≡ option_map (λ f. cursor_on query.now (not f.insensitive) true) cursor.now) }
{
    match cursor {
        None => Ok(None),
        Some(cursor) => {
            let updatable = !cursor.insensitive;
            let known = cursor_on(alloc, table, query, updatable, true)?;
            Ok(Some(known))
        }
    }
}

fn declare_for_cursor<'a>(
    scopes: &mut Scopes<'a>,
    cursor: &'a Option<ForCursor>,
    known: Option<CheckedCursor<'a>>,
) -> Result<(), AllocError>
    requires { IsTrue (can_declare_here scopes.old) }
    ensures { IfOk result (λ _. scopes.new ≡ with_for_cursor scopes.old cursor.now known.entry) }
{
    match (cursor, known) {
        (Some(cursor), Some(known)) => {
            declare_cursor(scopes, &cursor.name.name, known)?;
            Ok(())
        }
        _ => Ok(()),
    }
}

// ---- the items

/// An item of FOR, with the column that it names.
#[derive(Clone, Copy)]
struct ForItem<'a> {
    pick: PickChecked<'a>,
    column: Option<NamedColumn<'a>>,
}

// The items of the query, on the rows of its table.
#[tactic(auto, using(psm_check_expr::proofs::Equations::checked_columns))]
fn for_items<'a>(
    c: Context<'_, 'a>,
    scopes: &Scopes<'a>,
    select: &'a Select,
    query: &QueryChecked<'a, '_, 'a>,
) -> Result<List<ForItem<'a>>, AllocError>
    requires { query.now ≡ check_query select.now (context c scopes.now).checker_scope }
    ensures { IfOk result (λ items. map item_of items ≡ items_in (context c.entry scopes.now).checker_scope select.now) }
{
    let row = row_of(select, query.columns);
    let checker_scope = on_row(c.checker_scope(scopes), row);
    items_of_picks(c.alloc, query.picks.as_slice(), select, checker_scope)
}

fn items_of_picks<'a>(
    alloc: Global,
    picks: &[PickChecked<'a>],
    select: &'a Select,
    checker_scope: CheckerScope,
) -> Result<List<ForItem<'a>>, AllocError>
    requires { map pick_of picks.now ≡ map (λ p. check_pick p (seen_in_checker_scope checker_scope)) (several (out-Select select.now).picks) }
    ensures { IfOk result (λ items. map item_of items ≡ map (for_item (seen_in_checker_scope checker_scope.entry)) (several (out-Select select.now).picks)) }
{
    let trees = &select.picks;
    let others = trees.rest.items();
    let mut items = Vec::new(alloc);
    items.push(for_item(picks[0], checker_scope, trees.first.get()))?;
    for (number, tree) in others.iter().enumerate() {
        items.push(for_item(picks[number + 1], checker_scope, tree.get()))?;
    }
    Ok(List::of(items))
}

fn for_item<'a>(pick: PickChecked<'a>, checker_scope: CheckerScope, tree: &'a Pick) -> ForItem<'a>
    requires { pick_of pick ≡ check_pick tree.now (seen_in_checker_scope checker_scope) }
    ensures { item_of result ≡ for_item (seen_in_checker_scope checker_scope.entry) tree.now }
{
    ForItem {
        pick,
        column: pick_column(checker_scope, tree),
    }
}

// The column that an item names, if it is a name by itself.
#[tactic(auto, using(crate::proofs::ForItems::pick_layers))]
fn pick_column<'a>(checker_scope: CheckerScope, pick: &'a Pick) -> Option<NamedColumn<'a>>
    ensures { option_map column_of result ≡ pick_column (seen_in_checker_scope checker_scope.entry) (out-Pick pick.now) }
{
    match pick {
        Pick::Expr { expr, .. } => item_column(checker_scope, expr.get()),
        Pick::All { .. } | Pick::CountRows { .. } | Pick::Aggregate { .. } => None,
    }
}

#[tactic(auto, using(crate::proofs::ForItems::expr_layers))]
fn item_column<'a>(checker_scope: CheckerScope, e: &'a Expr) -> Option<NamedColumn<'a>>
    ensures { option_map column_of result ≡ item_column (seen_in_checker_scope checker_scope.entry) (out-Expr e.now) }
{
    match e {
        Expr::Name(target) => column_named(name_in(checker_scope, target), target),
        _ => None,
    }
}

fn column_named<'a>(meant: Option<Meant>, target: &'a Target) -> Option<NamedColumn<'a>>
    ensures { option_map column_of result ≡ column_named target.now (option_map meaning_of meant) }
{
    match meant {
        Some(Meant::Column(_, kind)) => Some(NamedColumn {
            name: last_name(target),
            kind,
        }),
        Some(Meant::Variable(_)) | None => None,
    }
}

// ---- the variables

// The faults of the items, whose variables are declared.
fn items_fault<'a>(
    scopes: &mut Scopes<'a>,
    items: &[ForItem<'a>],
    columns: Option<&Columns<'a>>,
) -> Result<Option<Fault>, AllocError>
    requires { IsTrue (can_declare_here scopes.old) }
    ensures fault { IfOk result (λ f. f ≡ first_of (for_items (columns_known (option_copied columns.entry)) (variables_here scopes.old) (map item_of items.now))) }
    ensures scopes { IfOk result (λ _. scopes.new ≡ with_variables_here scopes.old (for_variables (columns_known (option_copied columns.entry)) (variables_here scopes.old) (map item_of items.now))) }
    ensures open { IfOk result (λ _. IsTrue (can_declare_here scopes.new)) }
{
    let mut fault = None;
    for item in items {
        let own = item_fault(scopes, *item, columns)?;
        fault = earlier(fault, own);
    }
    Ok(fault)
}

fn item_fault<'a>(
    scopes: &mut Scopes<'a>,
    item: ForItem<'a>,
    columns: Option<&Columns<'a>>,
) -> Result<Option<Fault>, AllocError>
    requires { IsTrue (can_declare_here scopes.old) }
    ensures fault { IfOk result (λ f. f ≡ item_of_for (variables_here scopes.old) (item_of item.entry)) }
    ensures scopes { IfOk result (λ _. scopes.new ≡ with_variables_here scopes.old (with_item (columns_known (option_copied columns.entry)) (variables_here scopes.old) (item_of item.entry))) }
    ensures open { IfOk result (λ _. IsTrue (can_declare_here scopes.new)) }
{
    match item.pick.form {
        Picked::All => {
            declare_columns(scopes, columns)?;
            Ok(None)
        }
        Picked::Plain | Picked::Set => {
            let checked = item.pick.checked;
            let kind = item_type(item.column, as_value(checked).shape);
            named_item_fault(
                scopes,
                own_name(item.pick.alias, item.column),
                kind,
                checked,
            )
        }
    }
}

// An item that has a name, or none.
fn named_item_fault<'a>(
    scopes: &mut Scopes<'a>,
    name: Option<&'a Name>,
    kind: Option<SqlType>,
    checked: Checked,
) -> Result<Option<Fault>, AllocError>
    requires { IsTrue (can_declare_here scopes.old) }
    ensures fault { IfOk result (λ f. f ≡ unless_broken (named_fault (variables_here scopes.old) checked.place (option_copied name.entry)) checked) }
    ensures scopes { IfOk result (λ _. scopes.new ≡ with_variables_here scopes.old (with_named (variables_here scopes.old) (option_copied name.entry) kind)) }
    ensures open { IfOk result (λ _. IsTrue (can_declare_here scopes.new)) }
{
    match name {
        None => Ok(new_item_fault(false, checked)),
        Some(name) => {
            let is_new = declare_variable(scopes, name, kind)?;
            Ok(new_item_fault(is_new, checked))
        }
    }
}

// An item needs a name that no item before it has; that goes before the sort of the item.
fn new_item_fault(is_new: bool, checked: Checked) -> Option<Fault>
    ensures { result ≡ unless_broken (breaks_if (not is_new) rule.ItemNeedsName checked.place) checked }
{
    if is_new {
        as_value(checked).fault
    } else {
        earlier(breaks(Rule::ItemNeedsName, checked.place), checked.fault)
    }
}

fn declare_columns<'a>(
    scopes: &mut Scopes<'a>,
    columns: Option<&Columns<'a>>,
) -> Result<(), AllocError>
    requires { IsTrue (can_declare_here scopes.old) }
    ensures scopes { IfOk result (λ _. scopes.new ≡ with_variables_here scopes.old (with_columns (variables_here scopes.old) (columns_known (option_copied columns.entry)))) }
    ensures open { IfOk result (λ _. IsTrue (can_declare_here scopes.new)) }
{
    match columns {
        None => Ok(()),
        Some(columns) => declare_all_columns(scopes, columns),
    }
}

fn declare_all_columns<'a>(scopes: &mut Scopes<'a>, columns: &Columns<'a>) -> Result<(), AllocError>
    requires { IsTrue (can_declare_here scopes.old) }
    ensures scopes { IfOk result (λ _. scopes.new ≡ with_variables_here scopes.old (with_columns (variables_here scopes.old) columns.now)) }
    ensures open { IfOk result (λ _. IsTrue (can_declare_here scopes.new)) }
{
    for number in 0..columns.len() {
        declare_variable(scopes, columns.name(number), *columns.at(number))?;
    }
    Ok(())
}

// The name of an item: its alias, or else that of its column.
fn own_name<'a>(alias: Option<&'a Name>, column: Option<NamedColumn<'a>>) -> Option<&'a Name>
    ensures { option_copied result ≡ own_name (option_copied alias.entry) (option_map column_of column.entry) }
{
    match alias {
        Some(alias) => Some(alias),
        None => match column {
            None => None,
            Some(column) => Some(column.name),
        },
    }
}

// A column has the column's type.
fn item_type(column: Option<NamedColumn>, shape: Option<Shape>) -> Option<SqlType>
    ensures { result ≡ item_type (option_map column_of column.entry) shape }
{
    match column {
        Some(column) => column.kind,
        None => wide_type(shape),
    }
}

// Another number has NUMERIC(18, s) and another text VARCHAR(4000).
fn wide_type(shape: Option<Shape>) -> Option<SqlType>
    ensures { result ≡ wide_type shape }
{
    match shape {
        Some(Shape::Value(t)) => match family_of(t.kind) {
            Family::Numbers => Some(SqlType::Numeric { p: 18, s: t.scale }),
            Family::Texts => Some(SqlType::VarChar { n: 4000 }),
        },
        Some(Shape::Untyped) | Some(Shape::Condition) | None => None,
    }
}
