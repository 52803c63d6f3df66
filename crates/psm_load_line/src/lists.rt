//! Lists of numbers, and of condition values, up to the end of a line.
ghost use Rattle.std.specs.Prelude.{◌≡◌};
ghost use Rattle.psm_load_line.specs.Forms.{index as index_word, value_at};
ghost use Rattle.psm_load_line.specs.Readers.{many, some, word};
ghost use Rattle.psm_load_line.specs.Said.{columns_of, value_of};
ghost use Rattle.psm_load_line.specs.Taken.{Adds, Appends, Builds};

use crate::fault::Unread;
use crate::front::index;
use crate::values::condition_value;
use psm_cond::ConditionValue;
use psm_list::List;
use std::alloc::Global;

/// One number or more.
pub(crate) fn columns(alloc: Global, rest: &[u8]) -> Result<List<u32>, Unread>
    ensures { Builds columns_of (some index_word rest.now) result }
{
    let (first, rest) = index(rest).ok_or(Unread::Misfit)?;
    let mut columns = Vec::new(alloc);
    columns.push(first)?;
    add_indexes(&mut columns, rest)?;
    Ok(List::of(columns))
}

/// Puts all numbers that follow after those of a list.
pub(crate) fn add_indexes(list: &mut Vec<u32>, rest: &[u8]) -> Result<(), Unread>
    ensures { Appends (many index_word rest.now) list.old.items list.new.items result }
{
    let mut left = rest;
    for _done in 0..rest.len() {
        if left.is_empty() {
            return Ok(());
        }
        let (n, after) = index(left).ok_or(Unread::Misfit)?;
        list.push(n)?;
        left = after;
    }
    if left.is_empty() {
        Ok(())
    } else {
        Err(Unread::Misfit)
    }
}

/// Puts all condition values that follow after those of a list.
pub(crate) fn add_values(list: &mut Vec<ConditionValue>, rest: &[u8]) -> Result<(), Unread>
    ensures { Adds value_of (many (word value_at) rest.now) list.old.items list.new.items result }
{
    let mut left = rest;
    for _done in 0..rest.len() {
        if left.is_empty() {
            return Ok(());
        }
        let Some((value, after)) = condition_value(left) else {
            return Err(Unread::Misfit);
        };
        list.push(value)?;
        left = after;
    }
    if left.is_empty() {
        Ok(())
    } else {
        Err(Unread::Misfit)
    }
}
