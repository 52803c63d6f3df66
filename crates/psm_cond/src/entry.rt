//! What a condition says of one SQLSTATE.
ghost use Rattle.std.specs.Prelude.{◌≡◌, IfOk};
ghost use Rattle.std.specs.Str.{IsAscii, chars};
ghost use Rattle.psm_cond.specs.Entry.{entry_of, name_text, without_own};

use crate::message::Message;
use psm_sqlstate::SqlState;
use psm_text::{Name, Text};
use std::alloc::{AllocError, Global};

/// An entry of a condition (ISO/IEC 9075:1992, 18.1). A text that doesn't apply is empty.
#[derive(Debug, Drop)]
pub struct Entry {
    pub state: SqlState,
    /// The number of the declared condition without SQLSTATE that it is.
    pub own: Option<u32>,
    /// The name of the condition that was signalled.
    pub identifier: Text,
    pub message: Message,
    pub table: Text,
    pub cursor: Text,
}

impl Entry {
    /// The entry of an SQLSTATE alone, with the state's message.
    pub fn of_state(alloc: Global, state: SqlState) -> Result<Entry, AllocError>
        ensures { IfOk result (λ e. e ≡ entry_of state) }
    {
        Ok(Entry {
            state,
            own: None,
            identifier: ascii_text(alloc, "")?,
            message: Message::of_state(state),
            table: ascii_text(alloc, "")?,
            cursor: ascii_text(alloc, "")?,
        })
    }

    /// The same entry in memory of its own.
    pub fn copy(&self, alloc: Global) -> Result<Entry, AllocError>
        ensures { IfOk result (λ e. e ≡ self.now) }
    {
        Ok(Entry {
            state: self.state,
            own: self.own,
            identifier: self.identifier.copy(alloc)?,
            message: self.message.copy(alloc)?,
            table: self.table.copy(alloc)?,
            cursor: self.cursor.copy(alloc)?,
        })
    }

    /// The entry, which counts by its SQLSTATE alone from now on. It keeps its identifier.
    pub(crate) fn without_own(self) -> Entry
        ensures { result ≡ without_own self }
    {
        Entry { own: None, ..self }
    }
}

/// The text of ASCII characters.
#[tactic(auto, using(crate::proofs::Texts::ascii_chars))]
pub(crate) fn ascii_text(alloc: Global, characters: &str) -> Result<Text, AllocError>
    requires { IsAscii characters.now }
    ensures { IfOk result (λ t. t ≡ characters.now) }
{
    spelled(alloc, characters)
}

/// The characters of a name as a text.
pub(crate) fn text_of(alloc: Global, name: &Name) -> Result<Text, AllocError>
    ensures { IfOk result (λ t. t ≡ name_text name.now) }
{
    spelled(alloc, name.as_str())
}

// The text that a string spells. It has at most 4000 characters.
#[tactic(auto, using(crate::proofs::Texts::made_chars))]
fn spelled(alloc: Global, characters: &str) -> Result<Text, AllocError>
    ensures { IfOk result (λ t. t ≡ chars characters.now) }
{
    match Text::make(alloc, characters) {
        Ok(text) => Ok(text),
        Err(_) => Err(AllocError),
    }
}
