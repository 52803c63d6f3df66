//! Families and shapes of values.
ghost use Rattle.std.specs.Prelude.{◌≡◌, ◌≤◌};
ghost use Rattle.psm_rules.specs.Shapes.{at_larger_scale, family_of, higher, is_of, joined, of_literal, typed};

use crate::shape::{Family, Shape, Typed};
use psm_num::Dec;
use psm_scope::ArgKind;
use psm_value::SqlType;

/// What CHAR_LENGTH and POSITION evaluate to.
pub const INTEGER: Typed = Typed {
    kind: ArgKind::Integer,
    scale: 0,
};

/// What a literal of a text evaluates to.
pub const CHARACTER: Typed = Typed {
    kind: ArgKind::Char,
    scale: 0,
};

/// What a function of a text evaluates to.
pub const VARYING: Typed = Typed {
    kind: ArgKind::VarChar,
    scale: 0,
};

/// The family of a kind.
pub fn family_of(kind: ArgKind) -> Family
    ensures { result ≡ family_of kind }
{
    match kind {
        ArgKind::SmallInt | ArgKind::Integer | ArgKind::Numeric => Family::Numbers,
        ArgKind::Char | ArgKind::VarChar | ArgKind::Null => Family::Texts,
    }
}

/// Whether a value is of a family: NULL is of both, a condition of none.
pub fn is_of(family: Family, shape: Shape) -> bool
    ensures { result ≡ is_of family shape }
{
    match shape {
        Shape::Value(t) => family == family_of(t.kind),
        Shape::Untyped => true,
        Shape::Condition => false,
    }
}

/// The kind and the scale of the values of a type.
pub fn typed(t: SqlType) -> Typed
    ensures { result ≡ typed t }
{
    match t {
        SqlType::SmallInt => Typed {
            kind: ArgKind::SmallInt,
            scale: 0,
        },
        SqlType::Integer => INTEGER,
        SqlType::Numeric { s, .. } => Typed {
            kind: ArgKind::Numeric,
            scale: s,
        },
        SqlType::Char { .. } => CHARACTER,
        SqlType::VarChar { .. } => VARYING,
    }
}

/// What a number evaluates to: without decimals it is INTEGER where it fits in 32 bits.
pub fn of_literal(n: Dec) -> Typed
    ensures { result ≡ of_literal n }
{
    let scale = n.scale();
    let kind = if scale == 0 && n.coef().unsigned_abs() <= 2_147_483_647 {
        ArgKind::Integer
    } else {
        ArgKind::Numeric
    };
    Typed { kind, scale }
}

/// The higher of two kinds of one family.
pub fn higher(a: ArgKind, b: ArgKind) -> ArgKind
    ensures { result ≡ higher a b }
{
    if b.rank() <= a.rank() { a } else { b }
}

/// A sum, a difference or a quotient.
pub fn at_larger_scale(a: Typed, b: Typed) -> Typed
    ensures { result ≡ at_larger_scale a b }
{
    Typed {
        kind: higher(a.kind, b.kind),
        scale: a.scale.max(b.scale),
    }
}

/// The type so far with one result more.
pub fn joined(so_far: Option<Typed>, shape: Shape) -> Option<Typed>
    ensures { result ≡ joined so_far shape }
{
    match shape {
        Shape::Value(t) => match so_far {
            None => Some(t),
            Some(u) => Some(at_larger_scale(u, t)),
        },
        Shape::Untyped | Shape::Condition => so_far,
    }
}
