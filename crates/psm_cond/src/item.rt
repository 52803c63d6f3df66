//! The items that GET DIAGNOSTICS reads.
ghost use Rattle.std.specs.Prelude.{◌≡◌, ◌≤◌, IfOk, length, codes, if◌then◌else◌};
ghost use Rattle.std.specs.Str.{IsAscii};
ghost use Rattle.psm_value.specs.declared.datum.Datum.TheVariants as data_of;
ghost use Rattle.psm_cond.specs.Item.{entry_item, statement_item, whole};

use crate::entry::{Entry, ascii_text};
use psm_value::{Datum, Dec};
use std::alloc::{AllocError, Global};

/// Which diagnostics area GET DIAGNOSTICS reads: the current one, or the one with which the handler was activated whose action runs
/// (STACKED, ISO/IEC 9075-4:1996).
#[derive(Clone, Copy, Debug, PartialEq, Eq)]
pub enum DiagnosticsArea {
    Current,
    Stacked,
}

/// An item of the statement (ISO/IEC 9075:1992, 18.1).
#[derive(Clone, Copy, Debug, PartialEq, Eq)]
pub enum StatementItem {
    /// The number of entries.
    Number,
    /// 'Y' where entries were dropped, else 'N'.
    More,
    /// The number of rows that a data-change statement inserted, changed or deleted.
    RowCount,
}

/// An item of an entry (ISO/IEC 9075:1992, 18.1).
#[derive(Clone, Copy, Debug, PartialEq, Eq)]
pub enum ConditionItem {
    ConditionNumber,
    ReturnedSqlstate,
    ConditionIdentifier,
    MessageText,
    /// In characters.
    MessageLength,
    TableName,
    CursorName,
}

impl StatementItem {
    /// The item, where there are n entries and rows.
    pub(crate) fn of(
        self,
        alloc: Global,
        entries: u32,
        more: bool,
        rows: u32,
    ) -> Result<Datum, AllocError>
        ensures { IfOk result (λ d. d ≡ statement_item entries more rows self) }
    {
        match self {
            StatementItem::Number => Ok(whole(entries)),
            StatementItem::More => Ok(Datum::Text(ascii_text(alloc, yes_or_no(more))?)),
            StatementItem::RowCount => Ok(whole(rows)),
        }
    }
}

impl ConditionItem {
    /// The item of an entry with that number.
    pub(crate) fn of(self, alloc: Global, number: u32, entry: &Entry) -> Result<Datum, AllocError>
        ensures { IfOk result (λ d. d ≡ entry_item number entry.now self) }
    {
        match self {
            ConditionItem::ConditionNumber => Ok(whole(number)),
            ConditionItem::ReturnedSqlstate => state_text(alloc, entry),
            ConditionItem::ConditionIdentifier => Ok(Datum::Text(entry.identifier.copy(alloc)?)),
            ConditionItem::MessageText => Ok(Datum::Text(entry.message.text(alloc)?)),
            ConditionItem::MessageLength => Ok(whole(entry.message.text(alloc)?.len())),
            ConditionItem::TableName => Ok(Datum::Text(entry.table.copy(alloc)?)),
            ConditionItem::CursorName => Ok(Datum::Text(entry.cursor.copy(alloc)?)),
        }
    }
}

#[tactic(auto, using(psm_sqlstate::proofs::Ascii::state_ascii))]
fn state_text(alloc: Global, entry: &Entry) -> Result<Datum, AllocError>
    ensures { IfOk result (λ d. d ≡ data_of.Text entry.now.state) }
{
    Ok(Datum::Text(ascii_text(alloc, entry.state.text())?))
}

fn yes_or_no(answer: bool) -> &'static str
    ensures value { result.now ≡ (if answer then codes "Y" else codes "N") }
    ensures ascii { IsAscii result.now }
{
    if answer { "Y" } else { "N" }
}

/// A number of things as a value.
pub(crate) fn whole(number: u32) -> Datum
    ensures { result ≡ whole number }
{
    Datum::Num(Dec::new(i64::from(number), 0).unwrap())
}
