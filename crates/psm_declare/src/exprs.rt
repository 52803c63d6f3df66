//! Expressions where they stand.
ghost use Rattle.std.specs.Prelude.{◌≡◌, ◌∷◌, ◌++◌, [], option_map, IfOk};
ghost use Rattle.psm_resolve_expr.specs.Seen.{seen_at};
ghost use Rattle.psm_declare.specs.Seen.{expr_at};

use psm_list::Boxed;
use psm_resolve_expr::{ResolverScope, resolve_expr};
use psm_resolved::ResolvedExpr;
use psm_tree::Expr;
use std::alloc::{AllocError, Global};

/// An expression where it stands.
pub fn expr_at(
    alloc: Global,
    resolver_scope: ResolverScope,
    e: &Expr,
) -> Result<Boxed<ResolvedExpr>, AllocError>
    ensures { IfOk result (λ resolved. resolved ≡ expr_at (seen_at resolver_scope.entry) e.now) }
{
    let resolved = resolve_expr(alloc, e, resolver_scope)?;
    Ok(resolved.expr)
}

/// Puts an expression after others.
pub fn push_expr(
    alloc: Global,
    resolver_scope: ResolverScope,
    e: &Expr,
    exprs: &mut Vec<Boxed<ResolvedExpr>>,
) -> Result<(), AllocError>
    ensures { IfOk result (λ _. exprs.new.items ≡ exprs.old.items ++ expr_at (seen_at resolver_scope.entry) e.now ∷ []) }
{
    let resolved = resolve_expr(alloc, e, resolver_scope)?;
    exprs.push(resolved.expr)?;
    Ok(())
}

/// An expression that may be absent.
pub fn optional_at(
    alloc: Global,
    resolver_scope: ResolverScope,
    e: &Option<Boxed<Expr>>,
) -> Result<Option<Boxed<ResolvedExpr>>, AllocError>
    ensures { IfOk result (λ resolved. resolved ≡ option_map (expr_at (seen_at resolver_scope.entry)) e.now) }
{
    match e {
        None => Ok(None),
        Some(e) => {
            let resolved = expr_at(alloc, resolver_scope, e.get())?;
            Ok(Some(resolved))
        }
    }
}
