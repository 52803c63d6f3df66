//! What is made of an expression, and of a query.
ghost use Rattle.std.specs.Prelude.{◌≡◌, IfOk};
ghost use Rattle.psm_resolve_expr.specs.Exprs.{optional_in};

use psm_list::{Boxed, List};
use psm_resolved::{ResolvedExpr, ResolvedQuery};
use psm_rules::Shape;
use std::alloc::{AllocError, Global};

/// A resolved expression, and the shape of its value.
#[derive(Drop)]
pub struct Resolved {
    pub expr: Boxed<ResolvedExpr>,
    pub shape: Shape,
}

/// A resolved query, and the shapes of its items, each column of `*` by itself.
#[derive(Drop)]
pub struct ShapedQuery {
    pub query: Boxed<ResolvedQuery>,
    pub shapes: List<Shape>,
}

/// An expression of that shape.
pub(crate) fn boxed(alloc: Global, expr: ResolvedExpr, shape: Shape) -> Result<Resolved, AllocError>
    ensures { IfOk result (λ m. m ≡ record { expr = expr; shape = shape }) }
{
    let expr = Boxed::new(alloc, expr)?;
    Ok(Resolved { expr, shape })
}

/// The expression of a part that may be absent.
pub(crate) fn optional_in(resolved: Option<Resolved>) -> Option<Boxed<ResolvedExpr>>
    ensures { result ≡ optional_in resolved }
{
    match resolved {
        None => None,
        Some(resolved) => Some(resolved.expr),
    }
}
