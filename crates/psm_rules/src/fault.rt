//! Faults, and which of two comes first.
ghost use Rattle.std.specs.Prelude.{◌≡◌};
ghost use Rattle.psm_rules.specs.Faults.{breaks, breaks_if, earlier as earlier_of, precedes};

use crate::rule::Rule;
use psm_token::Place;

/// A rule that is broken, and the place of the part that breaks it.
#[derive(Clone, Copy, Debug, PartialEq, Eq)]
pub struct Fault {
    pub place: Place,
    pub rule: Rule,
}

/// The fault of a rule that is broken at a place.
pub fn breaks(rule: Rule, place: Place) -> Option<Fault>
    ensures { result ≡ breaks rule place }
{
    Some(Fault { place, rule })
}

/// That fault, if the rule is broken.
pub fn breaks_if(broken: bool, rule: Rule, place: Place) -> Option<Fault>
    ensures { result ≡ breaks_if broken rule place }
{
    if broken { breaks(rule, place) } else { None }
}

/// The first of two faults: that of the earlier place, and at one place that of the lower code.
pub fn earlier(a: Option<Fault>, b: Option<Fault>) -> Option<Fault>
    ensures { result ≡ earlier_of a b }
{
    match (a, b) {
        (Some(a), Some(b)) => Some(if comes_before(b, a) { b } else { a }),
        (Some(a), None) => Some(a),
        (None, b) => b,
    }
}

fn comes_before(a: Fault, b: Fault) -> bool
    ensures { result ≡ precedes a b }
{
    let (at, other) = (a.place, b.place);
    at.line < other.line
        || at.line == other.line
            && (at.column < other.column
                || at.column == other.column && a.rule.number() < b.rule.number())
}
