//! Resolved expressions and queries.
ghost use Rattle.std.specs.Prelude.{◌≡◌, ◌∷◌, ◌++◌, [], IfOk, map, option_map};
ghost use Rattle.psm_list.specs.Several.{several_map};
ghost use Rattle.psm_resolve_expr.specs.Exprs.{all_at, any_at, at, operator_chain_of, resolve_chain_link, chain_link_of, resolve_expr, resolve_pick, resolve_query, resolve_when};
ghost use Rattle.psm_resolve_expr.specs.Resolved.{operated};
ghost use Rattle.psm_resolve_expr.specs.Parts.{arguments_of, branch_of, branches_of, none_picked, operands_of, with_pick, with_picks};
ghost use Rattle.psm_resolve_expr.specs.Seen.{seen_at};

use crate::forms;
use crate::parts::{Arguments, Branch, Branches, Operands, push_operand, when_then};
use crate::picks::Picks;
use crate::resolved::{Resolved, ShapedQuery};
use crate::resolver_scope::{ResolverScope, on_row, table_columns, table_number};
use psm_check_expr::row_of;
use psm_list::{Boxed, List, OneOrMore};
use psm_resolved::{ResolvedExpr, ResolvedOperation};
use psm_rules::{Shape, joined};
use psm_tree::{ChainLink, Expr, Pick, Select, When};
use std::alloc::{AllocError, Global};

/// The resolved expression that stands for an expression at a place, and the shape of its value. Fails only without memory.
#[cycle(expression)]
#[tactic(auto, using(crate::proofs::Equations::resolved_equations))]
pub fn resolve_expr(
    alloc: Global,
    e: &Expr,
    resolver_scope: ResolverScope,
) -> Result<Resolved, AllocError>
    ensures { IfOk result (λ m. m ≡ resolve_expr e.now (seen_at resolver_scope.entry)) }
{
    match e {
        Expr::Null { .. } => forms::null(alloc),
        Expr::Number { value, .. } => forms::number(alloc, *value),
        Expr::Text { value, .. } => forms::text(alloc, value),
        Expr::Name(target) => forms::name(alloc, resolver_scope, target),
        Expr::LogicalOperator {
            logical_operator,
            operands,
        } => {
            let operands = resolve_operands(alloc, operands, resolver_scope)?;
            forms::logical_operator(alloc, *logical_operator, operands)
        }
        Expr::Not { condition, .. } => {
            let negated = resolve_expr(alloc, condition.get(), resolver_scope)?;
            forms::not(alloc, negated)
        }
        Expr::Compare {
            operator,
            left,
            right,
        } => {
            let left = resolve_expr(alloc, left.get(), resolver_scope)?;
            let right = resolve_expr(alloc, right.get(), resolver_scope)?;
            forms::compare(alloc, *operator, left, right)
        }
        Expr::IsNull { negated, value } => {
            let value = resolve_expr(alloc, value.get(), resolver_scope)?;
            forms::is_null(alloc, *negated, value)
        }
        Expr::Between {
            negated,
            value,
            low,
            high,
        } => {
            let value = resolve_expr(alloc, value.get(), resolver_scope)?;
            let low = resolve_expr(alloc, low.get(), resolver_scope)?;
            let high = resolve_expr(alloc, high.get(), resolver_scope)?;
            forms::between(alloc, *negated, value, low, high)
        }
        Expr::In {
            negated,
            value,
            list,
        } => {
            let value = resolve_expr(alloc, value.get(), resolver_scope)?;
            let list = resolve_operands(alloc, list, resolver_scope)?;
            forms::among(alloc, *negated, value, list)
        }
        Expr::Like {
            negated,
            value,
            pattern,
            escape,
        } => {
            let value = resolve_expr(alloc, value.get(), resolver_scope)?;
            let pattern = resolve_expr(alloc, pattern.get(), resolver_scope)?;
            let escape = resolve_optional(alloc, escape, resolver_scope)?;
            forms::like(alloc, *negated, value, pattern, escape)
        }
        Expr::OperatorChain { first, chain_links } => {
            let first = resolve_expr(alloc, first.get(), resolver_scope)?;
            resolve_operator_chain(alloc, chain_links, resolver_scope, first)
        }
        Expr::Signed { sign, operand, .. } => {
            let operand = resolve_expr(alloc, operand.get(), resolver_scope)?;
            forms::signed(alloc, *sign, operand)
        }
        Expr::Call {
            function,
            arguments,
        } => {
            let arguments = resolve_arguments(alloc, arguments, resolver_scope)?;
            forms::called(alloc, resolver_scope, function, arguments)
        }
        Expr::Parenthesized { expr, .. } => resolve_expr(alloc, expr.get(), resolver_scope),
        Expr::Subquery { query, .. } => {
            let query = resolve_query(alloc, query.get(), resolver_scope)?;
            forms::scalar(alloc, query)
        }
        Expr::Exists { query, .. } => {
            let query = resolve_query(alloc, query.get(), resolver_scope)?;
            forms::exists(alloc, query)
        }
        Expr::Case {
            operand,
            whens,
            otherwise,
            ..
        } => {
            let operand = resolve_optional(alloc, operand, resolver_scope)?;
            let branches = resolve_branches(alloc, whens, resolver_scope)?;
            let otherwise = resolve_optional(alloc, otherwise, resolver_scope)?;
            forms::case(alloc, operand, branches, otherwise)
        }
        Expr::Cast { source, to, .. } => {
            let source = resolve_expr(alloc, source.get(), resolver_scope)?;
            forms::cast(alloc, source, to)
        }
        Expr::Coalesce { values, .. } => {
            let values = resolve_operands(alloc, values, resolver_scope)?;
            forms::coalesce(alloc, values)
        }
        Expr::NullIf { left, right, .. } => {
            let left = resolve_expr(alloc, left.get(), resolver_scope)?;
            let right = resolve_expr(alloc, right.get(), resolver_scope)?;
            forms::null_if(alloc, left, right)
        }
        Expr::Function {
            function,
            argument,
            ..
        } => {
            let argument = resolve_expr(alloc, argument.get(), resolver_scope)?;
            forms::text_function(alloc, *function, argument)
        }
        Expr::Position { part, whole, .. } => {
            let part = resolve_expr(alloc, part.get(), resolver_scope)?;
            let whole = resolve_expr(alloc, whole.get(), resolver_scope)?;
            forms::position(alloc, part, whole)
        }
        Expr::Substring {
            text,
            from,
            length,
            ..
        } => {
            let text = resolve_expr(alloc, text.get(), resolver_scope)?;
            let from = resolve_expr(alloc, from.get(), resolver_scope)?;
            let length = resolve_optional(alloc, length, resolver_scope)?;
            forms::substring(alloc, text, from, length)
        }
        Expr::Trim { side, text, .. } => {
            let text = resolve_expr(alloc, text.get(), resolver_scope)?;
            forms::trim(alloc, *side, text)
        }
    }
}

#[cycle(expression)]
fn resolve_optional(
    alloc: Global,
    e: &Option<Boxed<Expr>>,
    resolver_scope: ResolverScope,
) -> Result<Option<Resolved>, AllocError>
    ensures { IfOk result (λ m. m ≡ any_at (seen_at resolver_scope.entry) (option_map resolve_expr e.now)) }
{
    match e {
        None => Ok(None),
        Some(e) => {
            let resolved = resolve_expr(alloc, e.get(), resolver_scope)?;
            Ok(Some(resolved))
        }
    }
}

// ---- lists of expressions

// Puts an expression after others; the shape is its own.
#[cycle(expression)]
fn resolve_push(
    alloc: Global,
    e: &Expr,
    resolver_scope: ResolverScope,
    exprs: &mut Vec<Boxed<ResolvedExpr>>,
) -> Result<Shape, AllocError>
    ensures exprs { IfOk result (λ _. exprs.new.items ≡ exprs.old.items ++ (resolve_expr e.now (seen_at resolver_scope.entry)).expr ∷ []) }
    ensures shape { IfOk result (λ s. s ≡ (resolve_expr e.now (seen_at resolver_scope.entry)).shape) }
{
    let resolved = resolve_expr(alloc, e, resolver_scope)?;
    exprs.push(resolved.expr)?;
    Ok(resolved.shape)
}

#[cycle(expression)]
fn resolve_operands(
    alloc: Global,
    list: &OneOrMore<Boxed<Expr>>,
    resolver_scope: ResolverScope,
) -> Result<Operands, AllocError>
    ensures { IfOk result (λ o. o ≡ operands_of (at (seen_at resolver_scope.entry) (several_map resolve_expr list.now))) }
{
    let first = resolve_expr(alloc, list.first.get(), resolver_scope)?;
    let mut result = joined(None, first.shape);
    let mut rest = Vec::new(alloc);
    for e in list.rest.items() {
        let shape = resolve_push(alloc, e.get(), resolver_scope, &mut rest)?;
        result = joined(result, shape);
    }
    Ok(Operands {
        exprs: OneOrMore::of(first.expr, List::of(rest)),
        result,
    })
}

#[cycle(expression)]
fn resolve_arguments(
    alloc: Global,
    list: &List<Boxed<Expr>>,
    resolver_scope: ResolverScope,
) -> Result<Arguments, AllocError>
    ensures { IfOk result (λ a. a ≡ arguments_of (all_at (seen_at resolver_scope.entry) (map resolve_expr list.now))) }
{
    let mut exprs = Vec::new(alloc);
    let mut kinds = Vec::new(alloc);
    for e in list.items() {
        let shape = resolve_push(alloc, e.get(), resolver_scope, &mut exprs)?;
        kinds.push(shape.kind())?;
    }
    Ok(Arguments {
        exprs: List::of(exprs),
        kinds: List::of(kinds),
    })
}

// ---- chains

#[cycle(expression)]
fn resolve_operator_chain(
    alloc: Global,
    chain_links: &List<ChainLink>,
    resolver_scope: ResolverScope,
    first: Resolved,
) -> Result<Resolved, AllocError>
    ensures { IfOk result (λ m. m ≡ operator_chain_of first (all_at (seen_at resolver_scope.entry) (map resolve_chain_link chain_links.now))) }
{
    let mut shape = first.shape;
    let mut resolved = Vec::new(alloc);
    for chain_link in chain_links.items() {
        shape = push_chain_link(alloc, chain_link, resolver_scope, shape, &mut resolved)?;
    }
    forms::operator_chain(alloc, first.expr, List::of(resolved), shape)
}

// Puts a link after others; the shape is that of the chain with it.
#[cycle(expression)]
#[tactic(auto, using(crate::proofs::Equations::resolved_chain_link))]
fn push_chain_link(
    alloc: Global,
    chain_link: &ChainLink,
    resolver_scope: ResolverScope,
    left: Shape,
    chain_links: &mut Vec<ResolvedOperation>,
) -> Result<Shape, AllocError>
    ensures chain_links { IfOk result (λ _. chain_links.new.items ≡ chain_links.old.items ++ chain_link_of (resolve_chain_link chain_link.now (seen_at resolver_scope.entry)) ∷ []) }
    ensures shape { IfOk result (λ s. s ≡ operated (resolve_chain_link chain_link.now (seen_at resolver_scope.entry)).0 left (resolve_chain_link chain_link.now (seen_at resolver_scope.entry)).1.shape) }
{
    let operand = resolve_expr(alloc, chain_link.operand.get(), resolver_scope)?;
    push_operand(chain_links, chain_link.operator, left, operand)
}

// ---- CASE

#[cycle(expression)]
fn resolve_branches(
    alloc: Global,
    whens: &OneOrMore<Boxed<When>>,
    resolver_scope: ResolverScope,
) -> Result<Branches, AllocError>
    ensures { IfOk result (λ b. b ≡ branches_of (at (seen_at resolver_scope.entry) (several_map resolve_when whens.now))) }
{
    let first = resolve_branch(alloc, whens.first.get(), resolver_scope)?;
    let mut result = joined(None, first.shape);
    let mut rest = Vec::new(alloc);
    for when in whens.rest.items() {
        let branch = resolve_branch(alloc, when.get(), resolver_scope)?;
        result = joined(result, branch.shape);
        rest.push(branch.when)?;
    }
    Ok(Branches {
        whens: OneOrMore::of(first.when, List::of(rest)),
        result,
    })
}

#[cycle(expression)]
#[tactic(auto, using(crate::proofs::Equations::resolved_when))]
fn resolve_branch(
    alloc: Global,
    when: &When,
    resolver_scope: ResolverScope,
) -> Result<Branch, AllocError>
    ensures { IfOk result (λ b. b ≡ branch_of (resolve_when when.now (seen_at resolver_scope.entry))) }
{
    let test = resolve_expr(alloc, when.test.get(), resolver_scope)?;
    let result = resolve_expr(alloc, when.result.get(), resolver_scope)?;
    when_then(alloc, test, result)
}

// ---- queries

/// The resolved query that stands for a query at a place, and the shapes of its items (ISO/IEC 9075:1992, 7.9). Fails only
/// without memory.
#[cycle(expression)]
#[tactic(auto, using(crate::proofs::Equations::resolved_query))]
pub fn resolve_query(
    alloc: Global,
    query: &Select,
    resolver_scope: ResolverScope,
) -> Result<ShapedQuery, AllocError>
    ensures { IfOk result (λ q. q ≡ resolve_query query.now (seen_at resolver_scope.entry)) }
{
    let columns = table_columns(resolver_scope, &query.table.name);
    let inside = on_row(resolver_scope, row_of(query, columns));
    let picks = resolve_picks(alloc, &query.picks, inside)?;
    let test = resolve_optional(alloc, &query.condition, inside)?;
    let table = table_number(resolver_scope, &query.table.name);
    picks.into_query(alloc, table, test)
}

#[cycle(expression)]
fn resolve_picks(
    alloc: Global,
    list: &OneOrMore<Boxed<Pick>>,
    resolver_scope: ResolverScope,
) -> Result<Picks, AllocError>
    ensures { IfOk result (λ p. p ≡ with_picks none_picked (all_at (seen_at resolver_scope.entry) (map resolve_pick (list.now.first ∷ list.now.rest)))) }
{
    let mut picks = Picks::new(alloc);
    push_pick(alloc, list.first.get(), resolver_scope, &mut picks)?;
    for pick in list.rest.items() {
        push_pick(alloc, pick.get(), resolver_scope, &mut picks)?;
    }
    Ok(picks)
}

#[cycle(expression)]
#[tactic(auto, using(crate::proofs::Equations::pick_equations))]
fn push_pick(
    alloc: Global,
    pick: &Pick,
    resolver_scope: ResolverScope,
    picks: &mut Picks,
) -> Result<(), AllocError>
    ensures { IfOk result (λ _. picks.new ≡ with_pick picks.old (resolve_pick pick.now (seen_at resolver_scope.entry))) }
{
    match pick {
        Pick::All { .. } => picks.push_row(alloc, resolver_scope),
        Pick::Expr { expr, .. } => {
            let resolved = resolve_expr(alloc, expr.get(), resolver_scope)?;
            picks.push_value(resolved)
        }
        Pick::CountRows { .. } => picks.push_count(),
        Pick::Aggregate {
            function,
            argument,
            ..
        } => {
            let resolved = resolve_expr(alloc, argument.get(), resolver_scope)?;
            picks.push_aggregate(*function, resolved)
        }
    }
}
