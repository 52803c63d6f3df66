//! What is known of the value of an expression before it is evaluated.
ghost use Rattle.std.specs.Prelude.{◌≡◌};
ghost use Rattle.psm_rules.specs.Shapes.{kind_of};

use psm_scope::ArgKind;

/// A kind, and the digits after the point of a number (ISO/IEC 9075:1992, 6.1).
#[derive(Clone, Copy, Debug)]
pub struct Typed {
    pub kind: ArgKind,
    pub scale: u8,
}

/// What an expression evaluates to: a value with its type, NULL, which has none, or a condition.
#[derive(Clone, Copy, Debug)]
pub enum Shape {
    Value(Typed),
    Untyped,
    Condition,
}

impl Shape {
    /// The kind by which a function is chosen for it. A condition is no argument.
    pub fn kind(self) -> ArgKind
        ensures { result ≡ kind_of self }
    {
        match self {
            Shape::Value(t) => t.kind,
            Shape::Untyped | Shape::Condition => ArgKind::Null,
        }
    }
}

/// A family of kinds.
#[derive(Clone, Copy, Debug, PartialEq, Eq)]
pub enum Family {
    Numbers,
    Texts,
}
