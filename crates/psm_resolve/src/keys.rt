//! The primary key of a table.
ghost use Rattle.std.specs.Prelude.{◌≡◌, IfOk};
ghost use Rattle.psm_rules.specs.FileFaults.{table_elements};
ghost use Rattle.psm_resolve.specs.Files.{element_key, key_among, key_of, own_key, rule_key, says_primary};
ghost use Rattle.psm_resolve.specs.Seen.{key_seen};

use psm_check_expr::{Columns, Key};
use psm_list::List;
use psm_symbols::{column_of, places_of};
use psm_tree::{ColumnRule, ColumnRuleForm, Element, Identifier, TableRuleForm, TableTree};
use std::alloc::{AllocError, Global};

/// The columns of the primary key that is declared first, by their places.
pub(crate) fn key_of(
    alloc: Global,
    columns: &Columns,
    table: &TableTree,
) -> Result<List<u32>, AllocError>
    ensures { IfOk result (λ key. key ≡ key_of columns.now (table_elements table.now)) }
{
    match key_in(table) {
        Key::None => Ok(List::of(Vec::new(alloc))),
        Key::Column(name) => {
            let places = vec![in alloc; column_of(Some(columns), name)]?;
            Ok(List::of(places))
        }
        Key::Rule(names) => places_of(alloc, Some(columns), names),
    }
}

fn key_in(table: &TableTree) -> Key<'_>
    ensures { key_seen result ≡ key_among (table_elements table.now) }
{
    match element_key(&table.elements.first) {
        Key::None => key_among(table.elements.rest.items()),
        Key::Column(name) => Key::Column(name),
        Key::Rule(names) => Key::Rule(names),
    }
}

fn key_among(elements: &[Element]) -> Key<'_>
    ensures { key_seen result ≡ key_among elements.now }
{
    for element in elements {
        match element_key(element) {
            Key::None => {}
            Key::Column(name) => return Key::Column(name),
            Key::Rule(names) => return Key::Rule(names),
        }
    }
    Key::None
}

fn element_key(element: &Element) -> Key<'_>
    ensures { key_seen result ≡ element_key element.now }
{
    match element {
        Element::Column { name, rules, .. } => own_key(name, rules.items()),
        Element::Rule(rule) => rule_key(&rule.form),
    }
}

fn own_key<'a>(name: &'a Identifier, rules: &[ColumnRule]) -> Key<'a>
    ensures { key_seen result ≡ own_key name.now rules.now }
{
    for rule in rules {
        if says_primary(&rule.form) {
            return Key::Column(name);
        }
    }
    Key::None
}

fn says_primary(form: &ColumnRuleForm) -> bool
    ensures { result ≡ says_primary form.now }
{
    match form {
        ColumnRuleForm::PrimaryKey => true,
        ColumnRuleForm::NotNull
        | ColumnRuleForm::Unique
        | ColumnRuleForm::Check(_)
        | ColumnRuleForm::References(_) => false,
    }
}

fn rule_key(form: &TableRuleForm) -> Key<'_>
    ensures { key_seen result ≡ rule_key form.now }
{
    match form {
        TableRuleForm::PrimaryKey(names) => Key::Rule(names),
        TableRuleForm::Unique(_) | TableRuleForm::Check(_) | TableRuleForm::ForeignKey { .. } =>
            Key::None,
    }
}
