//! Cursors, and the order of a query.
ghost use Rattle.std.specs.Prelude.{◌≡◌, ◌∷◌, [], IfOk, Some, false, map, true};
ghost use Rattle.std.specs.Option.{option_copied};
ghost use Rattle.psm_rules.specs.BlockFaults.{cursor_fault, cursor_on, checked_query, is_key_order, is_updatable, order_fault, same_names};
ghost use Rattle.psm_rules.specs.ExprFaults.{first_set, misplaced_set, query_fault};
ghost use Rattle.psm_rules.specs.Faults.{first_of};
ghost use Rattle.psm_rules.specs.StatementFaults.{family_due, fetch_fault, fetch_items, fetched_into, mixed_at, opened_fault, positioned_fault, several, target_type};
ghost use Rattle.psm_check_expr.specs.Keys.{key_names};
ghost use Rattle.psm_check_expr.specs.Seen.{seen_in_checker_scope};

use crate::sources::{family_due, mixed_at, target_type};
use psm_check_expr::{
    CheckedCursor, CheckerScope, Key, QueryChecked, Scopes, SymbolTable, check_query, first_set,
    misplaced_set, same_name,
};
use psm_list::{List, OneOrMore};
use psm_rules::{Fault, Rule, Shape, breaks, breaks_if, earlier};
use psm_symbols::is_one_way;
use psm_tree::{CursorDeclaration, Identifier, Order, OrderColumn, Target, Targets, Updatability};
use std::alloc::{AllocError, Global};

// ---- the order of a query: exactly the key, all upwards or all downwards

/// An order of other columns than those of the key.
pub(crate) fn order_fault(
    symbols: &SymbolTable,
    table: &Identifier,
    order: &Option<Order>,
) -> Option<Fault>
    ensures { result ≡ order_fault symbols.now table.now order.now }
{
    match order {
        None => None,
        Some(order) => match symbols.keys.get(&table.name) {
            None => None,
            Some(key) => breaks_if(!is_key_order(key, order), Rule::OrderIsNotKey, order.place),
        },
    }
}

fn is_key_order(key: Key, order: &Order) -> bool
    ensures { result ≡ is_key_order (key_names key.entry) (several order.now.columns) }
{
    has_columns(key, &order.columns) && is_one_way(&order.columns)
}

fn has_columns(key: Key, columns: &OneOrMore<OrderColumn>) -> bool
    ensures { result ≡ same_names (key_names key.entry) (map (λ c. c.column.name) (several columns.now)) }
{
    let first = &columns.first.column.name;
    let rest = columns.rest.items();
    match key {
        Key::None => false,
        Key::Column(column) => same_name(&column.name, first) && rest.is_empty(),
        Key::Rule(names) => {
            same_name(&names.first.name, first) && same_names(names.rest.items(), rest)
        }
    }
}

#[tactic(auto, using(crate::proofs::Orders::names_differ))]
fn same_names(names: &[Identifier], columns: &[OrderColumn]) -> bool
    ensures { result ≡ same_names (map (λ n. n.name) names.now) (map (λ c. c.column.name) columns.now) }
{
    if names.len() != columns.len() {
        return false;
    }
    for number in 0..names.len() {
        if !same_name(&names[number].name, &columns[number].column.name) {
            return false;
        }
    }
    true
}

// ---- declarations

// The first fault of a cursor's declaration: no set function stands in one.
fn cursor_fault(symbols: &SymbolTable, query: &QueryChecked, order: &Option<Order>) -> Option<Fault>
    ensures { result ≡ first_of (query_fault query.now ∷ misplaced_set true (first_set query.now.picks) ∷ order_fault symbols.now query.now.table order.now ∷ []) }
{
    let sets = misplaced_set(true, first_set(query.picks.as_slice()));
    let order = order_fault(symbols, query.table, order);
    earlier(earlier(query.fault(), sets), order)
}

fn is_updatable(declared: &CursorDeclaration) -> bool
    ensures { result ≡ is_updatable declared.now.insensitive declared.now.updatability }
{
    match declared.updatability {
        None | Some(Updatability::Update) => !declared.insensitive,
        Some(Updatability::ReadOnly) => false,
    }
}

/// The cursor of a query.
pub(crate) fn cursor_on<'a>(
    alloc: Global,
    table: &'a Identifier,
    query: &QueryChecked,
    updatable: bool,
    of_for: bool,
) -> Result<CheckedCursor<'a>, AllocError>
    requires { query.now.table ≡ table.now }
    ensures { IfOk result (λ c. c ≡ cursor_on query.now updatable of_for) }
{
    let items = match query.items(alloc)? {
        None => None,
        Some(items) => {
            let mut shapes = Vec::new(alloc);
            for item in items.items() {
                shapes.push(item.shape)?;
            }
            Some(List::of(shapes))
        }
    };
    Ok(CheckedCursor {
        table: &table.name,
        updatable,
        of_for,
        items,
    })
}

/// The first fault of a cursor's declaration, and the cursor.
#[tactic(auto, using(psm_check_expr::proofs::Equations::checked_table))]
pub(crate) fn declared_cursor<'a>(
    alloc: Global,
    declared: &'a CursorDeclaration,
    checker_scope: CheckerScope,
) -> Result<(Option<Fault>, CheckedCursor<'a>), AllocError>
    ensures fault { IfOk result (λ p. p.0 ≡ cursor_fault (seen_in_checker_scope checker_scope.entry) declared.now) }
    ensures cursor { IfOk result (λ p. p.1 ≡ cursor_on (checked_query (seen_in_checker_scope checker_scope.entry) declared.now.query) (is_updatable declared.now.insensitive declared.now.updatability) false) }
{
    let query = check_query(alloc, declared.query.query.get(), checker_scope)?;
    let fault = cursor_fault(checker_scope.symbols, &query, &declared.query.order);
    let table = &declared.query.query.get().table;
    let cursor = cursor_on(alloc, table, &query, is_updatable(declared), false)?;
    Ok((fault, cursor))
}

// ---- statements

/// A cursor that OPEN, FETCH or CLOSE names.
pub(crate) fn opened_fault(name: &Identifier, cursor: Option<&CheckedCursor>) -> Option<Fault>
    ensures { result ≡ opened_fault name.now (option_copied cursor.entry) }
{
    match cursor {
        None => breaks(Rule::UnknownCursor, name.place),
        Some(cursor) => breaks_if(cursor.of_for, Rule::CursorOfFor, name.place),
    }
}

/// A positioned statement needs a plain cursor over its table that isn't FOR READ ONLY.
pub(crate) fn positioned_fault(
    table: &Identifier,
    name: &Identifier,
    cursor: Option<&CheckedCursor>,
) -> Option<Fault>
    ensures { result ≡ positioned_fault table.now name.now (option_copied cursor.entry) }
{
    match cursor {
        None => breaks(Rule::UnknownCursor, name.place),
        Some(cursor) => {
            let fits = cursor.updatable && same_name(&table.name, cursor.table);
            breaks_if(!fits, Rule::CursorNotUpdatable, name.place)
        }
    }
}

/// The items of a cursor that don't go into the targets of FETCH.
pub(crate) fn fetch_fault(
    scopes: &Scopes,
    targets: &Targets,
    cursor: Option<&CheckedCursor>,
) -> Option<Fault>
    ensures { result ≡ fetch_fault scopes.now targets.now (option_copied cursor.entry) }
{
    match cursor {
        None => None,
        Some(cursor) => {
            if cursor.of_for {
                return None;
            }
            match &cursor.items {
                None => None,
                Some(shapes) => fetched_fault(scopes, targets, shapes.items()),
            }
        }
    }
}

fn fetched_fault(scopes: &Scopes, targets: &Targets, shapes: &[Option<Shape>]) -> Option<Fault>
    ensures { result ≡ fetch_items scopes.now targets.now (Some shapes.now) }
{
    let others = targets.rest.items();
    match shapes.split_first() {
        None => breaks(Rule::CountsDiffer, targets.first.place()),
        Some((first, rest)) => {
            if rest.len() == others.len() {
                let fault = fetched_into(scopes, &targets.first, *first);
                earlier(fault, all_fetched_into(scopes, others, rest))
            } else {
                breaks(Rule::CountsDiffer, targets.first.place())
            }
        }
    }
}

// Where an item doesn't go into its target the fault is at the target.
fn fetched_into(scopes: &Scopes, target: &Target, shape: Option<Shape>) -> Option<Fault>
    ensures { result ≡ mixed_at target.now.first.place (family_due (target_type scopes.now target.now)) shape }
{
    mixed_at(
        target.place(),
        family_due(target_type(scopes, target)),
        shape,
    )
}

#[tactic(auto, using(crate::proofs::Pairs::no_fetched))]
fn all_fetched_into(scopes: &Scopes, targets: &[Target], shapes: &[Option<Shape>]) -> Option<Fault>
    ensures { result ≡ first_of (fetched_into scopes.now targets.now shapes.now) }
{
    let mut fault = None;
    for number in 0..targets.len().min(shapes.len()) {
        fault = earlier(
            fault,
            fetched_into(scopes, &targets[number], shapes[number]),
        );
    }
    fault
}
