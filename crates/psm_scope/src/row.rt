//! What names mean in a row expression.
ghost use Rattle.std.specs.Prelude.{◌≡◌, option_map};
ghost use Rattle.std.specs.Option.{option_copied};
ghost use Rattle.psm_scope.specs.Lookup.{as_variable, column_meant, is_table, meant, meant_on_row, index_named};
ghost use Rattle.psm_scope.specs.Rows.{columns_known, meaning_of, row_table};

use crate::key::same_name;
use crate::known::Variable;
use crate::names::Names;
use crate::scope::is_label;
use crate::scopes::Scopes;
use psm_text::Name;
use psm_value::SqlType;

/// The table of a row expression, with its alias. One that isn't known has no columns.
#[derive(Clone, Copy)]
pub struct RowTable<'v, 'a> {
    pub name: &'v Name,
    pub alias: Option<&'v Name>,
    pub columns: Option<&'v Names<'a, Option<SqlType>>>,
}

/// What a name means in a row expression.
#[derive(Clone, Copy, Debug, PartialEq, Eq)]
pub enum Meant {
    /// The column with that number, counted from 0, and its type, unless that is at fault.
    Column(u32, Option<SqlType>),
    Variable(Variable),
}

impl<'v, 'a> RowTable<'v, 'a> {
    /// The column that a name, or a name with the table's name or alias, means: its number, counted from 0, and its type, unless that
    /// is at fault (ISO/IEC 9075:1992, 6.4).
    pub fn column(self, first: &Name, second: Option<&Name>) -> Option<(u32, Option<SqlType>)>
        ensures { result ≡ column_meant first.now (option_copied second.entry) (row_table self.entry) }
    {
        match second {
            None => column_named(self.columns, first),
            Some(name) => {
                if self.is_table(first) {
                    column_named(self.columns, name)
                } else {
                    None
                }
            }
        }
    }

    // Whether a qualifier is the table's name or its alias.
    fn is_table(self, qualifier: &Name) -> bool
        ensures { result ≡ is_table qualifier.now (row_table self.entry) }
    {
        same_name(qualifier, self.name) || is_label(qualifier, self.alias)
    }
}

// The column of that name. A table that isn't known has no columns.
fn column_named(
    columns: Option<&Names<Option<SqlType>>>,
    name: &Name,
) -> Option<(u32, Option<SqlType>)>
    ensures { result ≡ index_named 0 name.now (columns_known (option_copied columns.entry)) }
{
    match columns {
        None => None,
        Some(columns) => columns.find(name),
    }
}

impl<'f, K: Drop> Scopes<'f, K> {
    /// What a name, or a qualified name, means in a control expression: a variable, if anything.
    pub fn meant_alone(&self, first: &Name, second: Option<&Name>) -> Option<Meant>
        ensures { option_map meaning_of result ≡ as_variable (meant first.now (option_copied second.entry) self.now) }
    {
        match self.meant(first, second) {
            None => None,
            Some(known) => Some(Meant::Variable(known)),
        }
    }

    /// What a name, or a qualified name, means in a row expression: a column of the table comes first, and else what it means in a
    /// control expression.
    pub fn meant_on_row(&self, first: &Name, second: Option<&Name>, row: RowTable) -> Option<Meant>
        ensures { option_map meaning_of result ≡ meant_on_row first.now (option_copied second.entry) (row_table row.entry) self.now }
    {
        match row.column(first, second) {
            Some((number, kind)) => Some(Meant::Column(number, kind)),
            None => self.meant_alone(first, second),
        }
    }
}
