//! What the checker sees at a place.
ghost use Rattle.std.specs.Prelude.{◌≡◌, option_map};
ghost use Rattle.std.specs.Option.{option_copied};
ghost use Rattle.psm_scope.specs.Scopes.{is_spelled};
ghost use Rattle.psm_scope.specs.Rows.{meaning_of, row_table};
ghost use Rattle.psm_rules.specs.ExprFaults.{name_in, spelling};
ghost use Rattle.psm_rules.specs.CheckerScope.{on_row};
ghost use Rattle.psm_check_expr.specs.Seen.{seen_in_checker_scope};

use crate::known::Scopes;
use crate::symbols::SymbolTable;
use psm_scope::{Meant, RowTable};
use psm_text::Name;
use psm_tree::{Identifier, Target};

/// What is seen at a place: the file, the scopes around the statement, and the row in a row expression. In a control expression
/// there is none.
#[derive(Clone, Copy)]
pub struct CheckerScope<'v, 'a> {
    pub symbols: &'v SymbolTable<'a>,
    pub scopes: &'v Scopes<'a>,
    pub row: Option<RowTable<'v, 'a>>,
}

/// What is seen at the same place on the rows of a table.
pub fn on_row<'v, 'a>(
    checker_scope: CheckerScope<'v, 'a>,
    row: RowTable<'v, 'a>,
) -> CheckerScope<'v, 'a>
    ensures { seen_in_checker_scope result ≡ on_row (seen_in_checker_scope checker_scope.entry) (row_table row.entry) }
{
    CheckerScope {
        symbols: checker_scope.symbols,
        scopes: checker_scope.scopes,
        row: Some(row),
    }
}

/// What a name means, if it means anything: on a row the table's columns come first.
pub fn name_in(checker_scope: CheckerScope, target: &Target) -> Option<Meant>
    ensures { option_map meaning_of result ≡ name_in (seen_in_checker_scope checker_scope.entry) (option_map row_table checker_scope.entry.row) target.now }
{
    let second = spelling(&target.second);
    match checker_scope.row {
        None => checker_scope.scopes.meant_alone(&target.first.name, second),
        Some(row) => checker_scope
            .scopes
            .meant_on_row(&target.first.name, second, row),
    }
}

/// Whether two names have the same characters.
pub fn same_name(a: &Name, b: &Name) -> bool
    ensures { result ≡ is_spelled a.now b.now }
{
    a.is(b)
}

/// The name of an identifier, where there is one.
pub fn spelling(name: &Option<Identifier>) -> Option<&Name>
    ensures { option_copied result ≡ spelling name.now }
{
    match name {
        None => None,
        Some(n) => Some(&n.name),
    }
}
