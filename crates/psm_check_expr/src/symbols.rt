//! What the tables and the routines of a file declare.
ghost use Rattle.std.specs.Prelude.{◌≡◌};
ghost use Rattle.std.specs.Option.{option_copied};
ghost use Rattle.psm_scope.specs.Lookup.{named};
ghost use Rattle.psm_rules.specs.FileFaults.{no_symbols};

use psm_scope::{Functions, Names, Procedures};
use psm_text::Name;
use psm_tree::{Identifier, Names as NameList};
use psm_value::SqlType;
use std::alloc::Global;
use std::marker::Model;

/// The columns of a table, each with its type unless that is at fault.
pub type Columns<'a> = Names<'a, Option<SqlType>>;

/// The primary key that a table declares, by the names of its columns.
#[derive(Clone, Copy)]
pub enum Key<'a> {
    /// There is none.
    None,
    /// One column that says PRIMARY KEY.
    Column(&'a Identifier),
    /// A rule of the table.
    Rule(&'a NameList),
}

/// The tables, each name once, and the routines of a file.
#[derive(Drop)]
pub struct SymbolTable<'a> {
    /// The columns of each table.
    pub tables: Names<'a, Columns<'a>>,
    /// The key of each table.
    pub keys: Names<'a, Key<'a>>,
    pub functions: Functions<'a>,
    pub procedures: Procedures<'a>,
}

impl<'a> Model for SymbolTable<'a> {
    ghost use Rattle.std.specs.Prelude.{map};
    ghost use Rattle.psm_rules.specs.CheckerScope.{SymbolTable as Known};
    ghost use Rattle.psm_check_expr.specs.Keys.{key_names};

    ghost Value = { Known };

    ghost view = { λ w. record { tables = w.tables; keys = map (λ p. (p.0, key_names p.1)) w.keys; functions = w.functions; procedures = w.procedures } };
}

impl<'a> SymbolTable<'a> {
    /// A file that declares nothing. It takes no memory.
    pub fn new(alloc: Global) -> SymbolTable<'a>
        ensures { result ≡ no_symbols }
    {
        SymbolTable {
            tables: Names::new(alloc),
            keys: Names::new(alloc),
            functions: Functions::new(alloc),
            procedures: Procedures::new(alloc),
        }
    }

    /// The columns of the table of that name.
    pub fn columns(&self, table: &Name) -> Option<&Columns<'a>>
        ensures { option_copied result ≡ named table.now self.now.tables }
    {
        self.tables.lent(table)
    }
}
