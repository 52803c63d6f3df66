//! Comparison, and the order of all values (ISO/IEC 9075:1992, 8.2).
ghost use Rattle.std.specs.Prelude.{◌≡◌};
ghost use Rattle.std.specs.Cmp.{IsTotalOrder};
ghost use Rattle.std.specs.Ordering.{ordering_reverse};
ghost use Rattle.std.specs.declared.cmp.Ordering.{Ordering};
ghost use Rattle.std.specs.declared.cmp.Ordering.TheVariants.{Equal};
ghost use Rattle.psm_value.specs.declared.datum.Datum.{Datum};
ghost use Rattle.psm_value.specs.Order.{data_order, compared};

use crate::datum::Datum;
use std::cmp::Ordering;

impl Datum {
    /// The one order of all values: null before numbers before texts, numbers by value, and texts as
    /// they are compared once the shorter is padded (ISO/IEC 9075:1992, 8.2 and 13.1).
    pub fn total_cmp(&self, other: &Datum) -> Ordering
        ensures { result ≡ data_order self.now other.now }
    {
        match (self, other) {
            (Datum::Num(a), Datum::Num(b)) => a.cmp(*b),
            (Datum::Text(a), Datum::Text(b)) => a.cmp_padded(b),
            (Datum::Null, Datum::Null) => Ordering::Equal,
            (Datum::Null, _) | (Datum::Num(_), Datum::Text(_)) => Ordering::Less,
            (_, Datum::Null) | (Datum::Text(_), Datum::Num(_)) => Ordering::Greater,
        }
    }
}

/// The comparison of two values (ISO/IEC 9075:1992, 8.2): `None` exactly where one is null, and else
/// their order by [`Datum::total_cmp`].
pub fn compare(a: &Datum, b: &Datum) -> Option<Ordering>
    ensures { result ≡ compared a.now b.now }
{
    match (a, b) {
        (Datum::Null, _) | (_, Datum::Null) => None,
        _ => Some(a.total_cmp(b)),
    }
}

/// The order of all values is a total one: every value is equal to itself, turning the sides turns the
/// answer, and equal, less and greater are each transitive. So values can be keys by it.
pub fn data_order_is_total()
    ensures reflexive { (a : Datum) → data_order a a ≡ Equal }
    ensures turned { (a b : Datum) → data_order a b ≡ ordering_reverse (data_order b a) }
    ensures transitive { (a b c : Datum) (r : Ordering) → data_order a b ≡ r → data_order b c ≡ r → data_order a c ≡ r }
    ensures total { IsTotalOrder data_order }
{}
