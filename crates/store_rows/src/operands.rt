//! The operands of a row.

use crate::fault::Fault;
use crate::like::{KeyLike, RowLike};

/// The operands that are still to be read.
#[derive(Drop)]
pub struct Operands<'a> {
    rest: &'a str,
}

impl<'a> Operands<'a> {
    /// Those of a row, where the operation is the first.
    pub fn of(row: &'a str) -> Operands<'a> {
        Operands { rest: row }
    }

    /// Whether none is left.
    pub fn is_empty(&self) -> bool {
        self.rest.is_empty()
    }

    /// Refuses a row that has more operands.
    pub fn end(&self) -> Result<(), Fault> {
        if self.is_empty() {
            Ok(())
        } else {
            Err(Fault::NoRow)
        }
    }

    /// What stands before the next blank.
    pub fn word(&mut self) -> Result<&'a str, Fault> {
        let (word, rest) = match self.rest.split_once(' ') {
            Some(parts) => parts,
            None => (self.rest, ""),
        };
        self.rest = rest;
        if word.is_empty() {
            Err(Fault::NoRow)
        } else {
            Ok(word)
        }
    }

    /// A whole number.
    pub fn count(&mut self) -> Result<u32, Fault> {
        self.word()?.parse::<u32>().ok().ok_or(Fault::NoRow)
    }

    /// A row of a name, a size and a code.
    pub fn row(&mut self) -> Result<RowLike<'a>, Fault> {
        let key = self.key()?;
        let code = self.word()?;
        Ok(RowLike { key, code })
    }

    /// A name and a size.
    pub fn key(&mut self) -> Result<KeyLike<'a>, Fault> {
        let name = self.name()?;
        let size = self.word()?;
        Ok(KeyLike { name, size })
    }

    // What stands between two single quotes and before a blank.
    fn name(&mut self) -> Result<&'a str, Fault> {
        let quoted = self.rest.strip_prefix('\'').ok_or(Fault::NoRow)?;
        let (name, rest) = quoted.split_once("' ").ok_or(Fault::NoRow)?;
        self.rest = rest;
        Ok(name)
    }
}
