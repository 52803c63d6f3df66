//! The numbers with which keys begin.
ghost use Rattle.std.specs.Prelude.{◌≡◌, []};
ghost use Rattle.psm_table.specs.Leading.{both_lead, known_order, leading_of, leading_order};

use crate::probe::order_of_numbers;
use psm_num::Dec;
use std::cmp::Ordering;

/// The first value of a key and the second one, where these are numbers. They stand beside the pairs of a run, so that a
/// search among runs mostly reads no pair.
#[derive(Clone, Copy)]
pub(crate) struct Leading {
    pub first: Option<Dec>,
    pub second: Option<Dec>,
}

impl Leading {
    /// No numbers.
    pub(crate) fn none() -> Leading
        ensures { result ≡ leading_of [] }
    {
        Leading {
            first: None,
            second: None,
        }
    }

    /// The order of two keys as far as these numbers decide it, and else `Equal`.
    #[inline(always)]
    pub(crate) fn order(&self, other: &Leading) -> Ordering
        ensures { result ≡ leading_order self.now other.now }
    {
        match (&self.first, &other.first) {
            (Some(a), Some(b)) => match order_of_numbers(*a, *b) {
                Ordering::Equal => order_of_known(&self.second, &other.second),
                unequal => unequal,
            },
            _ => Ordering::Equal,
        }
    }

    /// Whether both keys begin with a number.
    pub(crate) fn leads_with(&self, other: &Leading) -> bool
        ensures { result ≡ both_lead self.now other.now }
    {
        self.first.is_some() && other.first.is_some()
    }
}

/// The order of two numbers where both are there, and else `Equal`.
fn order_of_known(a: &Option<Dec>, b: &Option<Dec>) -> Ordering
    ensures { result ≡ known_order a.now b.now }
{
    match (a, b) {
        (Some(a), Some(b)) => order_of_numbers(*a, *b),
        _ => Ordering::Equal,
    }
}
