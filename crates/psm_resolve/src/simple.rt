//! Statements without statements in them.
ghost use Rattle.std.specs.Prelude.{◌≡◌, IfOk};
ghost use Rattle.psm_rules.specs.StatementFaults.{several};
ghost use Rattle.psm_resolved.specs.declared.statement.ResolvedSimple.TheVariants as resolved;
ghost use Rattle.psm_resolve_expr.specs.Exprs.{resolve_query};
ghost use Rattle.psm_resolve_expr.specs.Seen.{seen_at};
ghost use Rattle.psm_declare.specs.Seen.{expr_at};
ghost use Rattle.psm_resolve.specs.Statements.{cursor_of, level_of, simple_of, slot_of, slots_of};

use crate::calls::call;
use crate::conditions::{get_diagnostics, resignal, signal};
use crate::known::{cursor_of, level_of, slot_of, slots_of};
use crate::rows::{delete, insert, update};
use psm_declare::expr_at;
use psm_list::Boxed;
use psm_resolve_expr::{ResolverScope, Scopes, resolve_query};
use psm_resolved::ResolvedSimple;
use psm_tree::{Expr, Identifier, Select, Simple, Target, Targets};
use std::alloc::{AllocError, Global};

/// The resolved statement that stands for one without statements in it.
pub(crate) fn simple_of(
    alloc: Global,
    resolver_scope: ResolverScope,
    simple: &Simple,
) -> Result<Boxed<ResolvedSimple>, AllocError>
    ensures { IfOk result (λ s. s ≡ simple_of (seen_at resolver_scope.entry) simple.now) }
{
    let scopes = resolver_scope.scopes;
    match simple {
        Simple::Set { target, source, .. } => set(alloc, resolver_scope, target, source.get()),
        Simple::Call {
            procedure,
            arguments,
            ..
        } => call(alloc, resolver_scope, procedure, arguments.items()),
        Simple::Return { source, .. } => return_value(alloc, resolver_scope, source.get()),
        Simple::Leave { label, .. } => leave(alloc, scopes, label),
        Simple::Iterate { label, .. } => iterate(alloc, scopes, label),
        Simple::Signal { signalled, .. } => signal(alloc, resolver_scope, signalled.get()),
        Simple::Resignal { signalled, .. } => resignal(alloc, resolver_scope, signalled),
        Simple::GetDiagnostics {
            which,
            diagnostics,
            ..
        } => get_diagnostics(alloc, scopes, *which, diagnostics.get()),
        Simple::SelectInto { query, targets } => {
            select_into(alloc, resolver_scope, query.get(), targets.get())
        }
        Simple::Insert {
            table,
            columns,
            source,
            ..
        } => insert(alloc, resolver_scope, table, columns, source.get()),
        Simple::Update {
            table,
            assignments,
            which,
            ..
        } => update(alloc, resolver_scope, table, assignments, which),
        Simple::Delete { table, which, .. } => delete(alloc, resolver_scope, table, which),
        Simple::Open { cursor, .. } => open(alloc, scopes, cursor),
        Simple::Fetch {
            cursor,
            targets,
            ..
        } => fetch(alloc, scopes, cursor, targets.get()),
        Simple::Close { cursor, .. } => close(alloc, scopes, cursor),
    }
}

fn set(
    alloc: Global,
    resolver_scope: ResolverScope,
    target: &Target,
    source: &Expr,
) -> Result<Boxed<ResolvedSimple>, AllocError>
    ensures { IfOk result (λ s. s ≡ resolved.Set (slot_of resolver_scope.entry.scopes.now target.now) (expr_at (seen_at resolver_scope.entry) source.now)) }
{
    let source = expr_at(alloc, resolver_scope, source)?;
    let slot = slot_of(resolver_scope.scopes, target);
    Boxed::new(alloc, ResolvedSimple::Set { slot, source })
}

fn return_value(
    alloc: Global,
    resolver_scope: ResolverScope,
    source: &Expr,
) -> Result<Boxed<ResolvedSimple>, AllocError>
    ensures { IfOk result (λ s. s ≡ resolved.Return (expr_at (seen_at resolver_scope.entry) source.now)) }
{
    let source = expr_at(alloc, resolver_scope, source)?;
    Boxed::new(alloc, ResolvedSimple::Return(source))
}

fn leave(
    alloc: Global,
    scopes: &Scopes,
    label: &Identifier,
) -> Result<Boxed<ResolvedSimple>, AllocError>
    ensures { IfOk result (λ s. s ≡ resolved.Leave (level_of scopes.now label.now)) }
{
    let level = level_of(scopes, label)?;
    Boxed::new(alloc, ResolvedSimple::Leave { level })
}

fn iterate(
    alloc: Global,
    scopes: &Scopes,
    label: &Identifier,
) -> Result<Boxed<ResolvedSimple>, AllocError>
    ensures { IfOk result (λ s. s ≡ resolved.Iterate (level_of scopes.now label.now)) }
{
    let level = level_of(scopes, label)?;
    Boxed::new(alloc, ResolvedSimple::Iterate { level })
}

fn select_into(
    alloc: Global,
    resolver_scope: ResolverScope,
    query: &Select,
    targets: &Targets,
) -> Result<Boxed<ResolvedSimple>, AllocError>
    ensures { IfOk result (λ s. s ≡ resolved.SelectInto (resolve_query query.now (seen_at resolver_scope.entry)).query (slots_of resolver_scope.entry.scopes.now (several targets.now))) }
{
    let slots = slots_of(alloc, resolver_scope.scopes, targets)?;
    let query = resolve_query(alloc, query, resolver_scope)?;
    Boxed::new(
        alloc,
        ResolvedSimple::SelectInto {
            query: query.query,
            slots,
        },
    )
}

fn open(
    alloc: Global,
    scopes: &Scopes,
    cursor: &Identifier,
) -> Result<Boxed<ResolvedSimple>, AllocError>
    ensures { IfOk result (λ s. s ≡ resolved.Open (cursor_of scopes.now cursor.now)) }
{
    let cursor = cursor_of(scopes, cursor);
    Boxed::new(alloc, ResolvedSimple::Open { cursor })
}

fn fetch(
    alloc: Global,
    scopes: &Scopes,
    cursor: &Identifier,
    targets: &Targets,
) -> Result<Boxed<ResolvedSimple>, AllocError>
    ensures { IfOk result (λ s. s ≡ resolved.Fetch (cursor_of scopes.now cursor.now) (slots_of scopes.now (several targets.now))) }
{
    let slots = slots_of(alloc, scopes, targets)?;
    let cursor = cursor_of(scopes, cursor);
    Boxed::new(alloc, ResolvedSimple::Fetch { cursor, slots })
}

fn close(
    alloc: Global,
    scopes: &Scopes,
    cursor: &Identifier,
) -> Result<Boxed<ResolvedSimple>, AllocError>
    ensures { IfOk result (λ s. s ≡ resolved.Close (cursor_of scopes.now cursor.now)) }
{
    let cursor = cursor_of(scopes, cursor);
    Boxed::new(alloc, ResolvedSimple::Close { cursor })
}
