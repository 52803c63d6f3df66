//! What the rows and keys of the tables are made like.
ghost use Rattle.std.specs.Prelude.{IfOk};
ghost use Rattle.store_rows.specs.Parts.{IsPartsKey, IsPartsRow};

use crate::fault::Fault;
use psm_table::{Datum, Key, Row};
use psm_text::Text;
use psm_value::Dec;
use std::alloc::Global;

/// The words of a name and of a size, which are a key.
#[derive(Clone, Copy)]
pub struct KeyLike<'a> {
    pub name: &'a str,
    pub size: &'a str,
}

/// A key and the word of a code, or `NULL`.
#[derive(Clone, Copy)]
pub struct RowLike<'a> {
    pub key: KeyLike<'a>,
    pub code: &'a str,
}

impl KeyLike<'_> {
    pub fn made(&self, alloc: Global) -> Result<Key, Fault>
        ensures { IfOk result IsPartsKey }
    {
        key(alloc, self.name, read(self.size)?)
    }
}

impl RowLike<'_> {
    pub fn made(&self, alloc: Global) -> Result<Row, Fault>
        ensures { IfOk result IsPartsRow }
    {
        let size = read(self.key.size)?;
        match self.code {
            "NULL" => row(alloc, self.key.name, size, None),
            code => row(alloc, self.key.name, size, Some(read(code)?)),
        }
    }
}

/// The key of a size.
pub fn numbered_key(alloc: Global, size: u32) -> Result<Key, Fault>
    ensures { IfOk result IsPartsKey }
{
    key(alloc, "r", number(size)?)
}

/// The row of a size and a code.
pub fn numbered_row(alloc: Global, size: u32, code: u32) -> Result<Row, Fault>
    ensures { IfOk result IsPartsRow }
{
    row(alloc, "r", number(size)?, Some(number(code)?))
}

fn key(alloc: Global, name: &str, size: Dec) -> Result<Key, Fault>
    ensures { IfOk result IsPartsKey }
{
    let name = Text::make(alloc, name)?;
    Ok(Key::of(vec![in alloc; Datum::Text(name), Datum::Num(size)]?))
}

fn row(alloc: Global, name: &str, size: Dec, code: Option<Dec>) -> Result<Row, Fault>
    ensures { IfOk result IsPartsRow }
{
    let name = Datum::Text(Text::make(alloc, name)?);
    let size = Datum::Num(size);
    match code {
        Some(code) => Ok(Row::of(vec![in alloc; name, size, Datum::Num(code)]?)),
        None => Ok(Row::of(vec![in alloc; name, size, Datum::Null]?)),
    }
}

fn number(number: u32) -> Result<Dec, Fault> {
    Dec::new(i64::from(number), 0).ok_or(Fault::NoRow)
}

fn read(number: &str) -> Result<Dec, Fault> {
    Dec::read(number).ok().ok_or(Fault::NoRow)
}
