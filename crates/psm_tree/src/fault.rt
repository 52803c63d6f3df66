//! Why tokens have no tree.
ghost use Rattle.std.specs.Prelude.{◌≡◌};
ghost use Rattle.psm_tree.specs.FaultTexts.{fault_text, fault_place};

use psm_token::Place;

/// Why tokens have no tree.
#[derive(Clone, Copy, Debug, PartialEq, Eq)]
pub enum ParseFault {
    /// No tree is spelled so; the place of the first token that no spelling goes on with, or the end.
    Syntax(Place),
    /// The token at this place opens level 101 of nesting.
    Deep(Place),
    /// There is no memory for the tree.
    Memory,
}

impl ParseFault {
    /// What is wrong, in words; nothing for `Memory`.
    pub fn text(self) -> &'static str
        ensures { result.now ≡ fault_text self }
    {
        match self {
            ParseFault::Syntax(_) => "syntax fault",
            ParseFault::Deep(_) => "nested too deep",
            ParseFault::Memory => "",
        }
    }

    /// Where it is wrong; `None` for `Memory`.
    pub fn place(self) -> Option<Place>
        ensures { result ≡ fault_place self }
    {
        match self {
            ParseFault::Syntax(place) | ParseFault::Deep(place) => Some(place),
            ParseFault::Memory => None,
        }
    }
}
