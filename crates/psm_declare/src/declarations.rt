//! What a compound statement declares.
ghost use Rattle.std.specs.Prelude.{◌≡◌, ◌++◌, ◌∷◌, [], drop, IfOk, IsTrue};
ghost use Rattle.std.specs.Option.{option_copied};
ghost use Rattle.psm_value.specs.SqlType.{IsType};
ghost use Rattle.psm_scope.specs.KeptScopes.{can_declare_here};
ghost use Rattle.psm_rules.specs.BlockFaults.{is_updatable};
ghost use Rattle.psm_rules.specs.StatementFaults.{several};
ghost use Rattle.psm_rules.specs.Types.{type_of};
ghost use Rattle.psm_resolve_expr.specs.Exprs.{type_known};
ghost use Rattle.psm_resolve_expr.specs.Seen.{seen_at};
ghost use Rattle.psm_declare.specs.Numbering.{next_slot};
ghost use Rattle.psm_declare.specs.Declarations.{cursor_of, cursors_of, declaration_of, declarations_of, is_downward, opened, ordered, ordered_query, slots_from, numbered_after, numbered_by, numbered_condition, numbered_cursor, numbered_cursors, numbered_variables};
ghost use Rattle.psm_declare.specs.Seen.{control};

use crate::declaring::{declare_condition, declare_cursor, declare_variable};
use crate::exprs::optional_at;
use crate::numbering::Numbering;
use crate::resolver::ResolveContext;
use psm_check_expr::type_of;
use psm_list::{Boxed, List};
use psm_resolve_expr::{ResolverScope, Scopes, resolve_query};
use psm_resolved::{ResolvedCursor, ResolvedDeclaration, ResolvedExpr, ResolvedQuery};
use psm_scope::ScopeKind;
use psm_symbols::good_state;
use psm_text::Name;
use psm_tree::{
    CursorDeclaration, DataType, Declaration, Identifier, Names, Order, OrderedQuery, State,
    Updatability,
};
use psm_value::SqlType;
use std::alloc::{AllocError, Global};

/// What a compound statement declares beside conditions and handlers.
#[derive(Drop)]
pub struct Declared {
    pub declarations: List<Boxed<ResolvedDeclaration>>,
    pub cursors: List<Boxed<ResolvedCursor>>,
}

/// What a compound statement declares. Goes into its scope.
#[tactic(auto, using(crate::proofs::Outside::popped))]
pub fn enter_compound<'w, 'a>(
    resolver: ResolveContext<'w, 'a>,
    scopes: &mut Scopes<'a>,
    numbering: &mut Numbering<'a>,
    label: Option<&'a Name>,
    declarations: &'a List<Boxed<Declaration>>,
    cursors: &'a List<Boxed<CursorDeclaration>>,
) -> Result<Boxed<Declared>, AllocError>
    ensures declarations { IfOk result (λ d. d.declarations ≡ declarations_of resolver.entry.symbols.now (opened (option_copied label.entry) scopes.old, numbering.old) declarations.now) }
    ensures cursors { IfOk result (λ d. d.cursors ≡ cursors_of resolver.entry.symbols.now (numbered_by (opened (option_copied label.entry) scopes.old, numbering.old) declarations.now) cursors.now) }
    ensures scopes { IfOk result (λ _. scopes.new ≡ (numbered_cursors (numbered_by (opened (option_copied label.entry) scopes.old, numbering.old) declarations.now) cursors.now).0) }
    ensures numbering { IfOk result (λ _. numbering.new ≡ (numbered_cursors (numbered_by (opened (option_copied label.entry) scopes.old, numbering.old) declarations.now) cursors.now).1) }
    ensures outer { IfOk result (λ _. drop 1 scopes.new ≡ scopes.old) }
{
    scopes.push(ScopeKind::Compound(label))?;
    let declarations = declarations_of(resolver, scopes, numbering, declarations)?;
    let cursors = cursors_of(resolver, scopes, numbering, cursors)?;
    let own = Boxed::new(
        resolver.alloc,
        Declared {
            declarations,
            cursors,
        },
    )?;
    Ok(own)
}

// ---- variables and conditions

// The declarations, each of which sees those before it.
fn declarations_of<'w, 'a>(
    resolver: ResolveContext<'w, 'a>,
    scopes: &mut Scopes<'a>,
    numbering: &mut Numbering<'a>,
    declarations: &'a List<Boxed<Declaration>>,
) -> Result<List<Boxed<ResolvedDeclaration>>, AllocError>
    requires { IsTrue (can_declare_here scopes.old) }
    ensures resolved { IfOk result (λ xs. xs ≡ declarations_of resolver.entry.symbols.now (scopes.old, numbering.old) declarations.now) }
    ensures scopes { IfOk result (λ _. scopes.new ≡ (numbered_by (scopes.old, numbering.old) declarations.now).0) }
    ensures numbering { IfOk result (λ _. numbering.new ≡ (numbered_by (scopes.old, numbering.old) declarations.now).1) }
    ensures open { IfOk result (λ _. IsTrue (can_declare_here scopes.new)) }
{
    let mut resolved = Vec::new(resolver.alloc);
    for declaration in declarations.items() {
        declare(
            resolver,
            scopes,
            numbering,
            declaration.get(),
            &mut resolved,
        )?;
    }
    Ok(List::of(resolved))
}

// A declaration, which is put after others where it is one of variables.
fn declare<'w, 'a>(
    resolver: ResolveContext<'w, 'a>,
    scopes: &mut Scopes<'a>,
    numbering: &mut Numbering<'a>,
    declaration: &'a Declaration,
    resolved: &mut Vec<Boxed<ResolvedDeclaration>>,
) -> Result<(), AllocError>
    requires { IsTrue (can_declare_here scopes.old) }
    ensures resolved { IfOk result (λ _. resolved.new.items ≡ resolved.old.items ++ declaration_of resolver.entry.symbols.now (scopes.old, numbering.old) declaration.now) }
    ensures scopes { IfOk result (λ _. scopes.new ≡ (numbered_after (scopes.old, numbering.old) declaration.now).0) }
    ensures numbering { IfOk result (λ _. numbering.new ≡ (numbered_after (scopes.old, numbering.old) declaration.now).1) }
    ensures open { IfOk result (λ _. IsTrue (can_declare_here scopes.new)) }
{
    match declaration {
        Declaration::Variables {
            names,
            kind,
            default,
            ..
        } => {
            let default = optional_at(resolver.alloc, resolver.control(scopes), default)?;
            let kind = known_type(kind);
            let slots = declare_variables(resolver.alloc, scopes, numbering, names, kind)?;
            push_declaration(resolver.alloc, slots, default, resolved)
        }
        Declaration::Condition { name, state, .. } => {
            declare_named(resolver.alloc, scopes, numbering, name, state)
        }
    }
}

fn push_declaration(
    alloc: Global,
    slots: List<u32>,
    default: Option<Boxed<ResolvedExpr>>,
    resolved: &mut Vec<Boxed<ResolvedDeclaration>>,
) -> Result<(), AllocError>
    ensures { IfOk result (λ _. resolved.new.items ≡ resolved.old.items ++ record { slots = slots; default = default } ∷ []) }
{
    let declaration = Boxed::new(alloc, ResolvedDeclaration { slots, default })?;
    resolved.push(declaration)?;
    Ok(())
}

/// A type; one that is out of range is no part of an accepted file.
#[tactic(auto, using(crate::proofs::Bounds::known_within))]
pub fn known_type(kind: &DataType) -> SqlType
    ensures known { result ≡ type_known (type_of kind.now) }
    ensures within { IsType result }
{
    match type_of(kind) {
        None => SqlType::Integer,
        Some(t) => t,
    }
}

fn declare_variables<'a>(
    alloc: Global,
    scopes: &mut Scopes<'a>,
    numbering: &mut Numbering<'a>,
    names: &'a Names,
    kind: SqlType,
) -> Result<List<u32>, AllocError>
    requires { IsTrue (can_declare_here scopes.old) }
    ensures slots { IfOk result (λ slots. slots ≡ slots_from (next_slot numbering.old) (several names.now)) }
    ensures scopes { IfOk result (λ _. scopes.new ≡ (numbered_variables kind (scopes.old, numbering.old) (several names.now)).0) }
    ensures numbering { IfOk result (λ _. numbering.new ≡ (numbered_variables kind (scopes.old, numbering.old) (several names.now)).1) }
    ensures open { IfOk result (λ _. IsTrue (can_declare_here scopes.new)) }
{
    let mut slots = Vec::new(alloc);
    slots.push(declare_variable(scopes, numbering, &names.first.name, kind)?)?;
    for name in names.rest.items() {
        slots.push(declare_variable(scopes, numbering, &name.name, kind)?)?;
    }
    Ok(List::of(slots))
}

fn declare_named<'a>(
    alloc: Global,
    scopes: &mut Scopes<'a>,
    numbering: &mut Numbering<'a>,
    name: &'a Identifier,
    state: &Option<State>,
) -> Result<(), AllocError>
    requires { IsTrue (can_declare_here scopes.old) }
    ensures scopes { IfOk result (λ _. scopes.new ≡ (numbered_condition (scopes.old, numbering.old) name.now.name state.now).0) }
    ensures numbering { IfOk result (λ _. numbering.new ≡ (numbered_condition (scopes.old, numbering.old) name.now.name state.now).1) }
    ensures open { IfOk result (λ _. IsTrue (can_declare_here scopes.new)) }
{
    match state {
        None => {
            let number = numbering.condition(&name.name)?;
            declare_condition(scopes, &name.name, number, None)?;
            Ok(())
        }
        Some(state) => {
            let known = good_state(alloc, &state.text)?;
            declare_condition(scopes, &name.name, 0, known)?;
            Ok(())
        }
    }
}

// ---- cursors

// The cursors, each of which has the next number.
fn cursors_of<'w, 'a>(
    resolver: ResolveContext<'w, 'a>,
    scopes: &mut Scopes<'a>,
    numbering: &mut Numbering<'a>,
    cursors: &'a List<Boxed<CursorDeclaration>>,
) -> Result<List<Boxed<ResolvedCursor>>, AllocError>
    requires { IsTrue (can_declare_here scopes.old) }
    ensures resolved { IfOk result (λ xs. xs ≡ cursors_of resolver.entry.symbols.now (scopes.old, numbering.old) cursors.now) }
    ensures scopes { IfOk result (λ _. scopes.new ≡ (numbered_cursors (scopes.old, numbering.old) cursors.now).0) }
    ensures numbering { IfOk result (λ _. numbering.new ≡ (numbered_cursors (scopes.old, numbering.old) cursors.now).1) }
{
    let mut resolved = Vec::new(resolver.alloc);
    for cursor in cursors.items() {
        push_cursor(resolver, scopes, numbering, cursor.get(), &mut resolved)?;
    }
    Ok(List::of(resolved))
}

fn push_cursor<'w, 'a>(
    resolver: ResolveContext<'w, 'a>,
    scopes: &mut Scopes<'a>,
    numbering: &mut Numbering<'a>,
    cursor: &'a CursorDeclaration,
    resolved: &mut Vec<Boxed<ResolvedCursor>>,
) -> Result<(), AllocError>
    requires { IsTrue (can_declare_here scopes.old) }
    ensures resolved { IfOk result (λ _. resolved.new.items ≡ resolved.old.items ++ cursor_of resolver.entry.symbols.now (scopes.old, numbering.old) cursor.now ∷ []) }
    ensures scopes { IfOk result (λ _. scopes.new ≡ (numbered_cursor (scopes.old, numbering.old) cursor.now).0) }
    ensures numbering { IfOk result (λ _. numbering.new ≡ (numbered_cursor (scopes.old, numbering.old) cursor.now).1) }
    ensures open { IfOk result (λ _. IsTrue (can_declare_here scopes.new)) }
{
    let query = ordered_query(resolver.alloc, resolver.control(scopes), &cursor.query)?;
    let number = numbering.cursor()?;
    declare_cursor(scopes, &cursor.name.name, number)?;
    let cursor = cursor_with(resolver.alloc, cursor, number, query)?;
    resolved.push(cursor)?;
    Ok(())
}

fn cursor_with(
    alloc: Global,
    cursor: &CursorDeclaration,
    number: u32,
    query: Boxed<ResolvedQuery>,
) -> Result<Boxed<ResolvedCursor>, AllocError>
    ensures { IfOk result (λ c. c ≡ record { number = number; name = cursor.now.name.name; insensitive = cursor.now.insensitive; updatable = is_updatable cursor.now.insensitive cursor.now.updatability; query = query }) }
{
    let name = cursor.name.name.copy(alloc)?;
    Boxed::new(
        alloc,
        ResolvedCursor {
            number,
            name,
            insensitive: cursor.insensitive,
            updatable: is_updatable(cursor.insensitive, cursor.updatability),
            query,
        },
    )
}

fn is_updatable(insensitive: bool, updatability: Option<Updatability>) -> bool
    ensures { result ≡ is_updatable insensitive updatability }
{
    match updatability {
        Some(Updatability::ReadOnly) => false,
        None | Some(Updatability::Update) => !insensitive,
    }
}

/// A query with the way that it goes over the keys.
pub fn ordered_query(
    alloc: Global,
    resolver_scope: ResolverScope,
    query: &OrderedQuery,
) -> Result<Boxed<ResolvedQuery>, AllocError>
    ensures { IfOk result (λ q. q ≡ ordered_query (seen_at resolver_scope.entry) query.now) }
{
    let resolved = resolve_query(alloc, query.query.get(), resolver_scope)?;
    ordered(alloc, is_downward(&query.order), resolved.query)
}

fn is_downward(order: &Option<Order>) -> bool
    ensures { result ≡ is_downward order.now }
{
    match order {
        None => false,
        Some(order) => order.columns.first.descending,
    }
}

// Queries go upwards as they are made.
fn ordered(
    alloc: Global,
    downward: bool,
    query: Boxed<ResolvedQuery>,
) -> Result<Boxed<ResolvedQuery>, AllocError>
    ensures { IfOk result (λ q. q ≡ ordered downward query) }
{
    let ResolvedQuery {
        table,
        items,
        test,
        ..
    } = query.into_inner();
    Boxed::new(
        alloc,
        ResolvedQuery {
            table,
            downward,
            items,
            test,
        },
    )
}
