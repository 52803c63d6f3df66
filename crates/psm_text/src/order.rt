//! The order of texts, the shorter one padded with blanks (ISO/IEC 9075:1992, 8.2).
ghost use Rattle.std.specs.Prelude.{◌≡◌, ◌↔◌, ℕ, slice_index_or, drop};
ghost use Rattle.std.specs.declared.cmp.Ordering.TheVariants.{Less, Equal};
ghost use Rattle.std.specs.Ordering.{ordering_reverse};
ghost use Rattle.psm_text.specs.Order.{blank, padded_order, SamePadded};

use crate::text::Text;
use std::cmp::Ordering;

impl Text {
    /// The order of two texts, of which the shorter is padded with blanks on the right; characters are
    /// compared by code point (ISO/IEC 9075:1992, 8.2).
    pub fn cmp_padded(&self, other: &Text) -> Ordering
        ensures { result ≡ padded_order self.now other.now }
    {
        let mut left = self.chars();
        let mut right = other.chars();
        while left.len().max(right.len()) > 0 {
            match first_or_blank(left).cmp(&first_or_blank(right)) {
                Ordering::Equal => {
                    left = rest(left);
                    right = rest(right);
                }
                unequal => return unequal,
            }
        }
        Ordering::Equal
    }
}

fn first_or_blank(characters: &[char]) -> char
    ensures { result ≡ slice_index_or characters.now 0 blank }
{
    match characters {
        [first, ..] => *first,
        [] => ' ',
    }
}

/// The characters after the first.
pub(crate) fn rest(characters: &[char]) -> &[char]
    ensures { result.now ≡ drop 1 characters.now }
{
    match characters {
        [_, after @ ..] => after,
        [] => characters,
    }
}

/// The padded comparison is a total order, in which the texts that are the same once they are padded
/// are equal. So texts can be keys by it.
pub fn padded_order_laws(a: &Text, b: &Text, c: &Text)
    ensures itself { padded_order a.now a.now ≡ Equal }
    ensures swapped { padded_order a.now b.now ≡ ordering_reverse (padded_order b.now a.now) }
    ensures chained { padded_order a.now b.now ≡ Less → padded_order b.now c.now ≡ Less → padded_order a.now c.now ≡ Less }
    ensures same { (padded_order a.now b.now ≡ Equal) ↔ SamePadded a.now b.now }
    ensures exchanged { padded_order a.now b.now ≡ Equal → padded_order a.now c.now ≡ padded_order b.now c.now }
{}
