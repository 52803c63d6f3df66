//! Look-ups by a UNIQUE list of columns (ISO/IEC 9075:1992, 8.9).
ghost use Rattle.std.specs.Prelude.{◌≡◌, [], not, true, false, All, IfNone, IfSome};
ghost use Rattle.std.specs.Ordering.{is_lt};
ghost use Rattle.std.specs.Option.{option_copied};
ghost use Rattle.psm_table.specs.Held.{live_rows, row_of, HasItsKey};
ghost use Rattle.psm_table.specs.Keyed.{has_values};
ghost use Rattle.psm_table.specs.Map.{keys_of, prefix_order, AreAscending};
ghost use Rattle.psm_table.specs.Matching.{at_most_one, matched, rows_with};
ghost use Rattle.psm_table.specs.PairPosition.{ahead, probe_key, FitsProbe};
ghost use Rattle.psm_table.specs.Rows.{IsAscending};
ghost use Rattle.psm_table.specs.State.{HasEntry};
ghost use Rattle.psm_table.specs.MatchingEntries.{row_having, matching_entries, IsFirst};
ghost use Rattle.psm_table.specs.Unique.{has_null};

use crate::definition::TableDef;
use crate::map::{OrderedMap, Pair};
use crate::probe::Probe;
use crate::referred::has_in;
use crate::row::Row;
use crate::stored::order_of_prefix;
use psm_value::Datum;

/// What a look-up by a UNIQUE list finds.
#[derive(Clone, Copy)]
pub enum Matching<'a> {
    /// No row has the values.
    Nothing,
    /// One row has them.
    One(&'a Row),
    /// More than one has them.
    Several,
}

/// A matching entry, and the row of its key.
#[derive(Clone, Copy)]
struct Found<'a> {
    entry: &'a Pair<()>,
    row: &'a Row,
}

/// The row that has the values in the columns of a list, by the matching entries of the list. It takes no memory.
pub(crate) fn look_up<'a>(
    def: &TableDef,
    columns: &[u32],
    rows: &'a OrderedMap<Option<Row>>,
    entries: &'a OrderedMap<()>,
    values: &[Datum],
) -> Matching<'a>
    requires filled { has_null values.now ≡ false }
    requires order { AreAscending rows.now.pairs }
    requires at_keys { All (HasItsKey def.now.key) rows.now.pairs }
    requires ascend { IsAscending def.now.key (live_rows rows.now.pairs) }
    requires entered { All (λ row. HasEntry def.now row columns.now (keys_of entries.now.pairs)) (live_rows rows.now.pairs) }
    ensures { matched result ≡ at_most_one (rows_with columns.now values.now (live_rows rows.now.pairs)) }
{
    let from = entries.from(Probe::Of(values));
    let Some(first) = first_found(columns, rows, entries, from, values) else {
        return Matching::Nothing;
    };
    let rest = entries.after(first.entry.key.probe());
    match first_found(columns, rows, entries, rest, values) {
        Some(_) => Matching::Several,
        None => Matching::One(first.row),
    }
}

/// Whether one of the rows has the values in the columns of a list, by the entries of the list. It takes no memory.
pub(crate) fn has_entry_with(
    def: &TableDef,
    columns: &[u32],
    rows: &OrderedMap<Option<Row>>,
    entries: &OrderedMap<()>,
    values: &[Datum],
) -> bool
    requires filled { has_null values.now ≡ false }
    requires order { AreAscending rows.now.pairs }
    requires at_keys { All (HasItsKey def.now.key) rows.now.pairs }
    requires ascend { IsAscending def.now.key (live_rows rows.now.pairs) }
    requires entered { All (λ row. HasEntry def.now row columns.now (keys_of entries.now.pairs)) (live_rows rows.now.pairs) }
    ensures { result ≡ has_values columns.now values.now (live_rows rows.now.pairs) }
{
    let from = entries.from(Probe::Of(values));
    first_found(columns, rows, entries, from, values).is_some()
}

/// The first matching entry from one on, and its row. The entries from this one on begin with no smaller values.
fn first_found<'a>(
    columns: &[u32],
    rows: &'a OrderedMap<Option<Row>>,
    entries: &'a OrderedMap<()>,
    from: Option<&'a Pair<()>>,
    values: &[Datum],
) -> Option<Found<'a>>
    requires filled { has_null values.now ≡ false }
    requires high { All (λ p. not (is_lt (prefix_order values.now p.key)) ≡ true) (ahead entries.now.pairs (option_copied from)) }
    ensures none { IfNone result (matching_entries columns.now values.now rows.now.pairs (ahead entries.now.pairs (option_copied from.entry)) ≡ []) }
    ensures first { IfSome result (λ f. IsFirst columns.now values.now rows.now.pairs entries.now.pairs (ahead entries.now.pairs (option_copied from.entry)) f.entry.now f.row.now) }
{
    let probe = Probe::Of(values);
    let mut next = from;
    'walk: while let Some(entry) = next {
        if !order_of_prefix(&entry.key, probe).is_eq() {
            return None;
        }
        if let Some(row) = row_with(rows, entry.key.rest(columns.len()), columns, values) {
            return Some(Found { entry, row });
        }
        next = entries.after(entry.key.probe());
    }
    None
}

/// The row of the key, if it has one and this has the values in the columns.
fn row_with<'a>(
    rows: &'a OrderedMap<Option<Row>>,
    key: Probe<'_>,
    columns: &[u32],
    values: &[Datum],
) -> Option<&'a Row>
    requires fits { FitsProbe key }
    requires filled { has_null values.now ≡ false }
    ensures { option_copied result ≡ row_having columns.now values.now (row_of (probe_key key.entry) rows.now.pairs) }
{
    match rows.row_at(key) {
        Some(row) if has_in(row.values(), columns, values) => Some(row),
        _ => None,
    }
}
