//! The message of an entry of a condition.
ghost use Rattle.std.specs.Prelude.{◌≡◌, IfOk};
ghost use Rattle.std.specs.Str.{IsAscii};
ghost use Rattle.psm_sqlstate.specs.Message.{message_of};
ghost use Rattle.psm_cond.specs.Message.{text_in};

use crate::entry::ascii_text;
use psm_sqlstate::SqlState;
use psm_text::Text;
use std::alloc::{AllocError, Global};
use std::marker::Model;

/// A message (ISO/IEC 9075:1992, 18.1), seen as its text: that of an SQLSTATE, which is made where it is read and takes no memory
/// until then, or a text of its own.
#[derive(Debug, Drop)]
pub struct Message {
    source: Source,
}

/// Where the text of a message comes from.
#[derive(Debug, Drop)]
enum Source {
    State(SqlState),
    Own(Text),
}

impl Model for Message {
    ghost use Rattle.std.specs.Prelude.{List, ℕ};
    ghost use Rattle.psm_cond.specs.Message.{text_in};

    ghost Value = { List ℕ };

    ghost view = { λ m. text_in m.source };
}

impl Message {
    /// The message of an SQLSTATE. It takes no memory.
    pub fn of_state(state: SqlState) -> Message
        ensures { result ≡ message_of state }
    {
        Message {
            source: Source::State(state),
        }
    }

    /// A message with a text of its own.
    pub fn own(text: Text) -> Message
        ensures { result ≡ text }
    {
        Message {
            source: Source::Own(text),
        }
    }

    /// The text, in memory of its own.
    pub fn text(&self, alloc: Global) -> Result<Text, AllocError>
        ensures { IfOk result (λ text. text ≡ self.now) }
    {
        match &self.source {
            Source::State(state) => ascii_text(alloc, state_message(*state)),
            Source::Own(text) => text.copy(alloc),
        }
    }

    /// The same message in memory of its own.
    pub fn copy(&self, alloc: Global) -> Result<Message, AllocError>
        ensures { IfOk result (λ copy. copy ≡ self.now) }
    {
        match &self.source {
            Source::State(state) => Ok(Message::of_state(*state)),
            Source::Own(text) => Ok(Message::own(text.copy(alloc)?)),
        }
    }
}

fn state_message(state: SqlState) -> &'static str
    ensures value { result.now ≡ message_of state }
    ensures ascii { IsAscii result.now }
{
    state.message()
}
