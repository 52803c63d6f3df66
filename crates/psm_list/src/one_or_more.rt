//! A list that has an item.
ghost use Rattle.std.specs.Prelude.{◌≡◌};

use crate::list::List;
use std::marker::Model;

/// One item or more, in order.
#[derive(Debug, Drop)]
pub struct OneOrMore<T> {
    pub first: T,
    pub rest: List<T>,
}

impl<T> Model for OneOrMore<T> {
    ghost use Rattle.psm_list.specs.Several.{Several, several_code};

    ghost Value = { Several T };

    ghost coded = { several_code T.code };

    ghost view = { λ s. record { first = s.first; rest = s.rest } };
}

impl<T> OneOrMore<T> {
    /// The list of an item and those after it.
    pub fn of(first: T, rest: List<T>) -> OneOrMore<T>
        ensures { result ≡ record { first = first; rest = rest } }
    {
        OneOrMore { first, rest }
    }
}
