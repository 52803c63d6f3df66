//! Names where the grammar has them.
ghost use Rattle.std.specs.Prelude.{◌≡◌};
ghost use Rattle.psm_tree.specs.Places.{target_place};

use psm_list::OneOrMore;
use psm_text::Name;
use psm_token::Place;

/// A name and the place of its token (ISO/IEC 9075:1992, 5.4).
#[derive(Debug, Drop)]
pub struct Identifier {
    pub place: Place,
    pub name: Name,
}

/// `name`, or `name.name`: a variable, a parameter or a column.
#[derive(Debug, Drop)]
pub struct Target {
    pub first: Identifier,
    pub second: Option<Identifier>,
}

impl Target {
    /// The place of its first name.
    pub fn place(&self) -> Place
        ensures { result ≡ target_place self.now }
    {
        self.first.place
    }
}

/// One name or more, with a comma between two of them.
pub type Names = OneOrMore<Identifier>;

/// One target or more, with a comma between two of them.
pub type Targets = OneOrMore<Target>;
