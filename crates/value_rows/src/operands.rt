//! The operands of a row.
ghost use Rattle.std.specs.Prelude.{◌≤◌, IfOk};

use crate::fault::Fault;
use psm_num::Dec;
use psm_text::Text;
use psm_value::{Datum, SqlType};
use std::alloc::Global;

/// The operands that are still to be read.
#[derive(Drop)]
pub struct Operands<'a> {
    rest: &'a str,
}

impl<'a> Operands<'a> {
    /// Those of a row, where the operation is the first.
    pub fn of(row: &'a str) -> Operands<'a> {
        Operands { rest: row }
    }

    /// Whether none is left.
    pub fn is_empty(&self) -> bool {
        self.rest.is_empty()
    }

    /// How many bytes are left, so no fewer than operands.
    pub fn len(&self) -> usize {
        self.rest.len()
    }

    /// Whether the next is a text.
    pub fn begin_with_text(&self) -> bool {
        self.rest.starts_with('\'')
    }

    /// Refuses a row that has more operands.
    pub fn end(&self) -> Result<(), Fault> {
        if self.is_empty() {
            Ok(())
        } else {
            Err(Fault::Row)
        }
    }

    /// What stands before the next blank.
    pub fn word(&mut self) -> Result<&'a str, Fault> {
        let (word, rest) = match self.rest.split_once(' ') {
            Some(parts) => parts,
            None => (self.rest, ""),
        };
        self.rest = rest;
        if word.is_empty() {
            Err(Fault::Row)
        } else {
            Ok(word)
        }
    }

    /// What stands before the next colon.
    pub fn before_colon(&mut self) -> Result<&'a str, Fault> {
        let (before, rest) = self.rest.split_once(':').ok_or(Fault::Row)?;
        self.rest = rest;
        Ok(before)
    }

    /// A whole number.
    pub fn integer(&mut self) -> Result<i64, Fault> {
        self.word()?.parse::<i64>().ok().ok_or(Fault::Row)
    }

    /// A whole number up to the bound.
    pub fn count(&mut self, most: u32) -> Result<u32, Fault>
        ensures { IfOk result (λ count. count ≤ most) }
    {
        let count = self.word()?.parse::<u32>().ok().ok_or(Fault::Row)?;
        if count > most {
            Err(Fault::Row)
        } else {
            Ok(count)
        }
    }

    pub fn number(&mut self) -> Result<Dec, Fault> {
        number(self.word()?)
    }

    /// The characters of a text, which may be more than a text has.
    pub fn quoted(&mut self, alloc: Global) -> Result<String, Fault> {
        let mut text = String::new(alloc);
        let mut left = self.rest.strip_prefix('\'').ok_or(Fault::Row)?;
        for _ in 0..self.rest.len() {
            let (part, following) = left.split_once('\'').ok_or(Fault::Row)?;
            text.push_str(part)?;
            match following.strip_prefix('\'') {
                Some(following) => {
                    text.push('\'')?;
                    left = following;
                }
                None => {
                    self.rest = following.strip_prefix(' ').unwrap_or(following);
                    return Ok(text);
                }
            }
        }
        Err(Fault::Row)
    }

    pub fn text(&mut self, alloc: Global) -> Result<Text, Fault> {
        let characters = self.quoted(alloc)?;
        Ok(Text::make(alloc, characters.as_str())?)
    }

    /// A value: null, a number or a text.
    pub fn value(&mut self, alloc: Global) -> Result<Datum, Fault> {
        if self.begin_with_text() {
            return Ok(Datum::Text(self.text(alloc)?));
        }
        match self.word()? {
            "NULL" => Ok(Datum::Null),
            word => Ok(Datum::Num(number(word)?)),
        }
    }

    /// A type, which may have more digits or characters than a type has.
    pub fn data_type(&mut self) -> Result<SqlType, Fault> {
        match self.word()? {
            "SMALLINT" => Ok(SqlType::SmallInt),
            "INTEGER" => Ok(SqlType::Integer),
            word => sized_type(word).ok_or(Fault::Row),
        }
    }
}

/// The number of a word.
pub fn number(word: &str) -> Result<Dec, Fault> {
    Dec::read(word).ok().ok_or(Fault::Row)
}

// A type with its digits or characters in parentheses.
fn sized_type(word: &str) -> Option<SqlType> {
    let (name, size) = word.strip_suffix(')')?.split_once('(')?;
    match name {
        "CHAR" => Some(SqlType::Char {
            n: size.parse::<u16>().ok()?,
        }),
        "VARCHAR" => Some(SqlType::VarChar {
            n: size.parse::<u16>().ok()?,
        }),
        "NUMERIC" => {
            let (digits, decimals) = size.split_once(',')?;
            Some(SqlType::Numeric {
                p: digits.parse::<u8>().ok()?,
                s: decimals.parse::<u8>().ok()?,
            })
        }
        _ => None,
    }
}
