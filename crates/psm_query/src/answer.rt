//! The answer of a query.
ghost use Rattle.std.specs.Prelude.{◌≡◌};

use psm_table::Row;
use std::marker::Model;

/// The answer of a query: its rows in order, and whether a set function skipped a null.
#[derive(Debug, Drop)]
pub struct Answer {
    rows: Vec<Row>,
    skipped: bool,
}

impl Model for Answer {
    ghost use Rattle.psm_table.specs.Queries.{Answer as Answered};

    ghost Value = { Answered };

    ghost view = { λ a. record { rows = a.rows.items; skipped = a.skipped } };
}

impl Answer {
    /// The answer of these rows.
    pub(crate) fn of(rows: Vec<Row>, skipped: bool) -> Answer
        ensures { result ≡ record { rows = rows.items; skipped = skipped } }
    {
        Answer { rows, skipped }
    }

    /// Lends the rows in order.
    pub fn rows(&self) -> &[Row]
        ensures { result.now ≡ self.now.rows }
    {
        self.rows.as_slice()
    }

    /// Whether a set function skipped a null, which the warning 01003 reports.
    pub fn skipped(&self) -> bool
        ensures { result ≡ self.now.skipped }
    {
        self.skipped
    }

    /// Gives the rows back as a vector.
    pub fn into_rows(self) -> Vec<Row>
        ensures { result.items ≡ self.rows }
    {
        let Answer { rows, .. } = self;
        rows
    }
}
