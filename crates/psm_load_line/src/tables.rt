//! The lines of tables.
ghost use Rattle.std.specs.Prelude.{◌≡◌, option_map};
ghost use Rattle.psm_words.specs.Reading.{datum_at};
ghost use Rattle.psm_load_line.specs.Forms.{column_at, index as index_word, key_at, reference_at, referred_at, table_at, unique_at};
ghost use Rattle.psm_load_line.specs.Readers.{both, flag_at, last, word};
ghost use Rattle.psm_load_line.specs.Said.{columns_of, reference_of, table_head_of, Reads};
ghost use Rattle.psm_load_line.specs.Taken.{Builds, Takes};

use crate::fault::Unread;
use crate::front::{flag, index, keyword, kind, name, parted, value};
use crate::head::{Reference, TableHead};
use crate::lists::columns;
use psm_list::List;
use psm_table::Column;
use psm_value::Datum;
use std::alloc::Global;

/// What a line `TABLE` says.
#[tactic(auto, using(crate::proofs::Lasts::last_of))]
pub fn table_head(alloc: Global, line: &[u8]) -> Result<TableHead, Unread>
    ensures { Reads (option_map table_head_of (table_at line.now)) result }
{
    let rest = keyword(b"TABLE", line).ok_or(Unread::Misfit)?;
    let (name, rest) = name(alloc, rest)?;
    match four(rest) {
        Some((columns, uniques, checks, keys)) => Ok(TableHead {
            name,
            columns,
            uniques,
            checks,
            keys,
        }),
        None => Err(Unread::Misfit),
    }
}

/// Four numbers, up to the end.
fn four(rest: &[u8]) -> Option<(u32, u32, u32, u32)>
    ensures { option_map (λ x. (x.0, (x.1, (x.2, x.3)))) result ≡ last (both index_word (both index_word (both index_word index_word))) rest.now }
{
    let (first, rest) = index(rest)?;
    let (second, rest) = index(rest)?;
    let (third, rest) = index(rest)?;
    let (fourth, rest) = index(rest)?;
    if rest.is_empty() {
        Some((first, second, third, fourth))
    } else {
        None
    }
}

/// The column of a line `COL`.
pub fn column(alloc: Global, line: &[u8]) -> Result<Column, Unread>
    ensures { Reads (column_at line.now) result }
{
    let rest = keyword(b"COL", line).ok_or(Unread::Misfit)?;
    let (name, rest) = name(alloc, rest)?;
    let (kind, rest) = kind(rest).ok_or(Unread::Misfit)?;
    let (not_null, default, rest) = not_null_and_default(alloc, rest)?;
    if rest.is_empty() {
        Ok(Column {
            name,
            kind,
            not_null,
            default,
        })
    } else {
        Err(Unread::Misfit)
    }
}

/// Whether a column is NOT NULL, its default, and what follows.
fn not_null_and_default(alloc: Global, rest: &[u8]) -> Result<(bool, Datum, &[u8]), Unread>
    ensures { Takes (λ x. ((x.0, x.1), x.2.now)) (both (word flag_at) (word datum_at) rest.now) result }
{
    let (not_null, rest) = flag(rest).ok_or(Unread::Misfit)?;
    let (default, rest) = value(alloc, rest)?;
    Ok((not_null, default, rest))
}

/// The columns of a line `KEY`.
pub fn key(alloc: Global, line: &[u8]) -> Result<List<u32>, Unread>
    ensures { Reads (option_map columns_of (key_at line.now)) result }
{
    columns(alloc, keyword(b"KEY", line).ok_or(Unread::Misfit)?)
}

/// The columns of a line `UNI`.
pub fn unique(alloc: Global, line: &[u8]) -> Result<List<u32>, Unread>
    ensures { Reads (option_map columns_of (unique_at line.now)) result }
{
    columns(alloc, keyword(b"UNI", line).ok_or(Unread::Misfit)?)
}

/// What a line `REF` says.
pub fn reference(alloc: Global, line: &[u8]) -> Result<Reference, Unread>
    ensures { Reads (option_map reference_of (reference_at line.now)) result }
{
    let rest = keyword(b"REF", line).ok_or(Unread::Misfit)?;
    let (before, following) = parted(b" TO", rest).ok_or(Unread::Misfit)?;
    let columns = columns(alloc, before)?;
    let (to, target) = referred(alloc, following)?;
    Ok(Reference {
        columns,
        to,
        target,
    })
}

/// The table and the columns to which a constraint refers.
fn referred(alloc: Global, rest: &[u8]) -> Result<(u32, List<u32>), Unread>
    ensures { Builds (λ x. (x.0, columns_of x.1)) (referred_at rest.now) result }
{
    let rest = keyword(b" TO", rest).ok_or(Unread::Misfit)?;
    let (to, rest) = index(rest).ok_or(Unread::Misfit)?;
    Ok((to, columns(alloc, rest)?))
}
