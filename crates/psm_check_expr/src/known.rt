//! What is known of declared names.
use psm_list::List;
use psm_rules::Shape;
use psm_text::Name;
use std::marker::Model;

/// The scopes around a statement, with what they declare.
pub type Scopes<'a> = psm_scope::Scopes<'a, CheckedCursor<'a>>;

/// What is known of a cursor.
#[derive(Debug, Drop)]
pub struct CheckedCursor<'a> {
    /// The name of the table that it walks.
    pub table: &'a Name,
    /// It is plain and not FOR READ ONLY (ISO/IEC 9075:1992, 13.1).
    pub updatable: bool,
    /// FOR declares it.
    pub of_for: bool,
    /// The shapes of its items, where these are known.
    pub items: Option<List<Option<Shape>>>,
}

impl<'a> Model for CheckedCursor<'a> {
    ghost use Rattle.psm_rules.specs.CheckerScope.{Cursor};

    ghost Value = { Cursor };

    ghost view = { λ c. record { table = c.table.now; updatable = c.updatable; of_for = c.of_for; items = c.items } };
}
