//! SELECT, and the order of its rows.
ghost use Rattle.std.specs.Prelude.{◌≡◌, map, IfOk};
ghost use Rattle.psm_rules.specs.BlockFaults.{is_key_order, same_names};
ghost use Rattle.psm_rules.specs.StatementFaults.{several};
ghost use Rattle.psm_check_script.specs.Commands.{selected};
ghost use Rattle.psm_check_script.specs.ScriptFaults.{order_fault, select_fault};

use crate::known::{Known, TableKey};
use psm_check_expr::{Scopes, check_query, same_name};
use psm_declare::ordered_query;
use psm_list::{Boxed, OneOrMore};
use psm_resolve_expr::Scopes as NumberedScopes;
use psm_resolved::ResolvedQuery;
use psm_rules::{Fault, Rule, breaks_if, earlier};
use psm_symbols::is_one_way;
use psm_text::Name;
use psm_tree::{Identifier, Order, OrderColumn, OrderedQuery};
use std::alloc::{AllocError, Global};

// ---- the first fault

/// The first fault of a SELECT.
#[tactic(auto, using(psm_check_expr::proofs::Equations::checked_table))]
pub(crate) fn select_fault(
    alloc: Global,
    known: &Known,
    query: &OrderedQuery,
) -> Result<Option<Fault>, AllocError>
    ensures { IfOk result (λ f. f ≡ select_fault known.now query.now) }
{
    let scopes = Scopes::new(alloc);
    let found = check_query(alloc, query.query.get(), known.checker_scope(&scopes))?;
    let order = order_fault(known, found.table, &query.order);
    Ok(earlier(found.fault(), order))
}

// An order of other columns than those of the key.
fn order_fault(known: &Known, table: &Identifier, order: &Option<Order>) -> Option<Fault>
    ensures { result ≡ order_fault known.now table.now order.now }
{
    match order {
        None => None,
        Some(order) => match known.key(&table.name) {
            None => None,
            Some(key) => breaks_if(!is_key_order(key, order), Rule::OrderIsNotKey, order.place),
        },
    }
}

fn is_key_order(key: &TableKey, order: &Order) -> bool
    ensures { result ≡ is_key_order key.now (several order.now.columns) }
{
    has_columns(key.names.as_slice(), &order.columns) && is_one_way(&order.columns)
}

fn has_columns(names: &[&Name], columns: &OneOrMore<OrderColumn>) -> bool
    ensures { result ≡ same_names (map (λ n. n.now) names.now) (map (λ c. c.column.name) (several columns.now)) }
{
    match names.split_first() {
        None => false,
        Some((first, rest)) => {
            same_name(first, &columns.first.column.name) && same_names(rest, columns.rest.items())
        }
    }
}

#[tactic(auto, using(crate::proofs::Orders::names_differ))]
fn same_names(names: &[&Name], columns: &[OrderColumn]) -> bool
    ensures { result ≡ same_names (map (λ n. n.now) names.now) (map (λ c. c.column.name) columns.now) }
{
    if names.len() != columns.len() {
        return false;
    }
    for number in 0..names.len() {
        if !same_name(names[number], &columns[number].column.name) {
            return false;
        }
    }
    true
}

// ---- the resolved query

/// The resolved query of a SELECT, with the way that it goes over the keys.
pub(crate) fn select(
    alloc: Global,
    known: &Known,
    query: &OrderedQuery,
) -> Result<Boxed<ResolvedQuery>, AllocError>
    ensures { IfOk result (λ q. q ≡ selected known.now query.now) }
{
    let scopes = NumberedScopes::new(alloc);
    ordered_query(alloc, known.resolver_scope(&scopes), query)
}
