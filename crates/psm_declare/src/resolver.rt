//! Where a routine is read.
ghost use Rattle.std.specs.Prelude.{◌≡◌};
ghost use Rattle.psm_resolve_expr.specs.Seen.{seen_at};
ghost use Rattle.psm_declare.specs.Seen.{control};

use psm_check_expr::SymbolTable;
use psm_resolve_expr::{ResolverScope, Scopes};
use std::alloc::Global;

/// What the file of a routine declares, and the allocator.
#[derive(Clone, Copy)]
pub struct ResolveContext<'w, 'a> {
    pub alloc: Global,
    pub symbols: &'w SymbolTable<'a>,
}

impl<'w, 'a> ResolveContext<'w, 'a> {
    /// What a control expression sees in some scopes.
    pub fn control(self, scopes: &'w Scopes<'a>) -> ResolverScope<'w, 'a>
        ensures { seen_at result ≡ control self.entry scopes.now }
    {
        ResolverScope {
            symbols: self.symbols,
            scopes,
            row: None,
        }
    }
}
