//! What is seen at a place, and what names mean there.
ghost use Rattle.std.specs.Prelude.{◌≡◌, option_map};
ghost use Rattle.std.specs.Option.{option_copied};
ghost use Rattle.psm_scope.specs.Rows.{columns_known, meaning_of, row_table};
ghost use Rattle.psm_resolve_expr.specs.ResolverScope.{name_in, on_row, table_at};
ghost use Rattle.psm_resolve_expr.specs.Exprs.{columns_in, number_of};
ghost use Rattle.psm_resolve_expr.specs.Seen.{seen_at};

use psm_check_expr::{Columns, SymbolTable, spelling};
use psm_scope::{Meant, RowTable};
use psm_text::Name;
use psm_tree::Target;

/// The scopes around a statement, in which a cursor is known by its number.
pub type Scopes<'a> = psm_scope::Scopes<'a, u32>;

/// What is seen at a place: in a control expression there is no row.
#[derive(Clone, Copy)]
pub struct ResolverScope<'v, 'a> {
    pub symbols: &'v SymbolTable<'a>,
    pub scopes: &'v Scopes<'a>,
    pub row: Option<RowTable<'v, 'a>>,
}

/// The same on the rows of a table.
pub fn on_row<'v, 'a>(
    resolver_scope: ResolverScope<'v, 'a>,
    row: RowTable<'v, 'a>,
) -> ResolverScope<'v, 'a>
    ensures { seen_at result ≡ on_row (seen_at resolver_scope.entry) (row_table row.entry) }
{
    ResolverScope {
        symbols: resolver_scope.symbols,
        scopes: resolver_scope.scopes,
        row: Some(row),
    }
}

// ---- columns and variables

/// What a name means, if it means anything: on a row the table's columns come first.
pub fn name_in(resolver_scope: ResolverScope, target: &Target) -> Option<Meant>
    ensures { option_map meaning_of result ≡ name_in (seen_at resolver_scope.entry) target.now }
{
    let second = spelling(&target.second);
    match resolver_scope.row {
        None => resolver_scope
            .scopes
            .meant_alone(&target.first.name, second),
        Some(row) => resolver_scope
            .scopes
            .meant_on_row(&target.first.name, second, row),
    }
}

// ---- tables

/// The number of a table.
pub fn table_number(resolver_scope: ResolverScope, table: &Name) -> u32
    ensures { result ≡ number_of (table_at (seen_at resolver_scope.entry) table.now) }
{
    let symbols = resolver_scope.symbols;
    match symbols.tables.index(table) {
        None => 0,
        Some(number) => number,
    }
}

/// The columns of a table.
pub fn table_columns<'v, 'a>(
    resolver_scope: ResolverScope<'v, 'a>,
    table: &Name,
) -> Option<&'v Columns<'a>>
    ensures { columns_known (option_copied result) ≡ columns_in (table_at (seen_at resolver_scope.entry) table.now) }
{
    let symbols = resolver_scope.symbols;
    symbols.columns(table)
}
