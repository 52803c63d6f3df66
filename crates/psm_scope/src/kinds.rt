//! The kinds of arguments, by which a function is chosen.
ghost use Rattle.std.specs.Prelude.{◌≡◌};
ghost use Rattle.std.proofs.Common.{rules};
ghost use Rattle.std.specs.Cmp.Rules.{comparing, hashing};
ghost use Rattle.std.specs.Hash as fed;
ghost use Rattle.psm_scope.specs.Choice.{kind_of, rank};
ghost use Rattle.psm_scope.specs.KindNumbers.{is_kind, kind_number};

use psm_value::SqlType;
use std::hash::{Hash, Hasher};

/// The kind of an argument or a parameter (ISO/IEC 9075-4:1996, subject routine determination).
#[derive(Clone, Copy, Debug)]
pub enum ArgKind {
    SmallInt,
    Integer,
    Numeric,
    Char,
    VarChar,
    /// NULL, which has no type. No parameter is of this kind.
    Null,
}

impl ArgKind {
    /// The kind of a type. A type that is at fault has one too.
    pub fn of(kind: SqlType) -> ArgKind
        ensures { result ≡ kind_of kind }
    {
        match kind {
            SqlType::SmallInt => ArgKind::SmallInt,
            SqlType::Integer => ArgKind::Integer,
            SqlType::Numeric { .. } => ArgKind::Numeric,
            SqlType::Char { .. } => ArgKind::Char,
            SqlType::VarChar { .. } => ArgKind::VarChar,
        }
    }

    /// How high it stands among those of its family, that is, among the numbers or among the texts.
    pub fn rank(self) -> u8
        ensures { result ≡ rank self }
    {
        match self {
            ArgKind::SmallInt | ArgKind::Char | ArgKind::Null => 0,
            ArgKind::Integer | ArgKind::VarChar => 1,
            ArgKind::Numeric => 2,
        }
    }

    // Its number among the kinds.
    fn number(self) -> u8
        ensures { result ≡ kind_number self }
    {
        match self {
            ArgKind::SmallInt => 0,
            ArgKind::Integer => 1,
            ArgKind::Numeric => 2,
            ArgKind::Char => 3,
            ArgKind::VarChar => 4,
            ArgKind::Null => 5,
        }
    }
}

impl PartialEq for ArgKind {
    ghost eq = { λ a b. is_kind a b };

    ghost laws = { Prim.search (comparing, rules) };

    fn eq(&self, other: &ArgKind) -> bool {
        self.number() == other.number()
    }
}

impl Eq for ArgKind {
    ghost laws = { Prim.search (comparing, rules) };
}

impl Hash for ArgKind {
    ghost hash_input = { λ a. fed.u8 (kind_number a) };

    ghost respects_eq = { Prim.search (hashing, rules) };

    fn hash<H: Hasher>(&self, state: &mut H) {
        self.number().hash(state);
    }
}
