//! The tables that a FOREIGN KEY constraint can refer to (ISO/IEC 9075:1992, 11.8).
ghost use Rattle.std.specs.Prelude.{◌≡◌, IfOk};
ghost use Rattle.psm_rules.specs.FileFaults.{referred_of, target_names, with_referred};
ghost use Rattle.psm_check_expr.specs.Keys.{key_names};

use crate::key_lists::KeyLists;
use crate::tables::keys_of;
use psm_check_expr::{Columns, Key};
use psm_scope::Names as NamesOf;
use psm_symbols::columns_of;
use psm_tree::{Names, TableTree};
use std::alloc::{AllocError, Global};
use std::marker::Model;

/// What is known of a table that can be referred to.
#[derive(Drop)]
pub(crate) struct Referred<'a> {
    pub(crate) columns: Columns<'a>,
    /// Its primary key.
    key: Key<'a>,
    pub(crate) lists: KeyLists<'a>,
}

impl<'a> Model for Referred<'a> {
    ghost use Rattle.psm_rules.specs.FileFaults.{Referred as Known};
    ghost use Rattle.psm_check_expr.specs.Keys.{key_names};

    ghost Value = { Known };

    ghost view = { λ r. record { columns = r.columns; key = key_names r.key; lists = r.lists } };
}

/// The tables that can be referred to, by their names.
pub(crate) type Referable<'a> = NamesOf<'a, Referred<'a>>;

impl<'a> Referred<'a> {
    fn of(alloc: Global, table: &'a TableTree) -> Result<Referred<'a>, AllocError>
        ensures { IfOk result (λ r. r ≡ referred_of table.now) }
    {
        let columns = columns_of(alloc, table)?;
        let lists = KeyLists::of(alloc, table)?;
        Ok(Referred {
            columns,
            key: keys_of(table).first(),
            lists,
        })
    }

    /// The columns that are meant: without a list those of the primary key.
    pub(crate) fn target<'t>(&'t self, names: &'t Option<Names>) -> Key<'t>
        ensures { key_names result ≡ target_names self.now names.now }
    {
        match names {
            None => self.key,
            Some(names) => Key::Rule(names),
        }
    }
}

/// A table more, unless one of its name is known.
pub(crate) fn add_referred<'a>(
    alloc: Global,
    known: &mut Referable<'a>,
    table: &'a TableTree,
) -> Result<(), AllocError>
    ensures { IfOk result (λ _. known.new ≡ with_referred known.old table.now) }
{
    let referred = Referred::of(alloc, table)?;
    known.add(&table.name.name, referred)?;
    Ok(())
}
