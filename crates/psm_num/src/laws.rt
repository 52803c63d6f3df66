//! Laws of the definitions that the contracts cite, as contracts of functions that do nothing.
ghost use Rattle.std.specs.Prelude.{◌≡◌, ◌^◌, ◌<◌, ◌≤◌, unsigned_abs};
ghost use Rattle.std.specs.Cmp.{IsTotalOrder};
ghost use Rattle.std.specs.Ordering.{ordering_reverse};
ghost use Rattle.std.specs.declared.cmp.Ordering.{Ordering};
ghost use Rattle.std.specs.declared.cmp.Ordering.TheVariants.{Equal};
ghost use Rattle.psm_num.specs.Num.{Num};
ghost use Rattle.psm_num.specs.Literal.{Literal, Spells, literal_value, literal_number};
ghost use Rattle.psm_num.specs.Order.{order};
ghost use Rattle.psm_num.specs.Printed.{printed};

use crate::fault::NumFault;

/// The order by value is a total one: every number is equal to itself, turning the sides turns the answer,
/// and equal, less and greater are each transitive.
pub fn order_is_total()
    ensures reflexive { (a : Num) → order a a ≡ Equal }
    ensures turned { (a b : Num) → order a b ≡ ordering_reverse (order b a) }
    ensures transitive { (a b c : Num) (r : Ordering)
        → order a b ≡ r → order b c ≡ r → order a c ≡ r }
    ensures total { IsTotalOrder order }
{}

/// What a number prints is a literal of it, so reading gives it back, except at scale 18: there a number
/// prints 19 digits, which are out of range.
pub fn read_inverts_print()
    ensures value { (n : Num) → n.scale ≤ 18 → unsigned_abs n.coef < 10 ^ 18
        → (l : Literal) × Spells (printed n) l × (literal_value l ≡ n) }
    ensures number { (n : Num) → n.scale < 18 → unsigned_abs n.coef < 10 ^ 18
        → (l : Literal) × Spells (printed n) l × (literal_number l ≡ Ok n) }
    ensures range { (n : Num) → n.scale ≡ 18 → unsigned_abs n.coef < 10 ^ 18
        → (l : Literal) × Spells (printed n) l × (literal_number l ≡ Err NumFault.Range) }
{}
