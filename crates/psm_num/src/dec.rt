//! Exact decimal numbers, and their arithmetic (ISO/IEC 9075:1992, 4.4 and 6.12).
ghost use Rattle.std.specs.Prelude.{◌≡◌, ◌^◌, ◌<◌, ◌≤◌, unsigned_abs};
ghost use Rattle.std.specs.Result.{result_ok};
ghost use Rattle.psm_num.specs.Num.{Num, checked};
ghost use Rattle.psm_num.specs.Arithmetic.{total, difference, product, divided, negated, at_scale};
ghost use Rattle.psm_num.specs.Order.{order};

use crate::fault::NumFault;
use crate::power::{cut, minus, plus, power, raised, times};
use std::cmp::Ordering;
use std::marker::Model;

/// An exact number: `coef` of at most 18 digits over ten to the power of `scale`, which is at most 18
/// (ISO/IEC 9075:1992, 4.4).
///
/// `==` compares coefficient and scale; [`Dec::cmp`] compares by value, over different scales.
#[derive(Clone, Copy, Debug, PartialEq, Eq)]
pub struct Dec {
    coef: i64,
    // A whole word, so that a number is copied as two.
    scale: u64,
}

impl Model for Dec {
    ghost use Rattle.std.specs.Prelude.{◌<◌, ◌≤◌, unsigned_abs};
    ghost use Rattle.psm_num.specs.Num.{Num};

    ghost Value = { Num };

    ghost view = { λ d. record { coef = d.coef; scale = d.scale } };

    ghost invariant = { λ d. (d.scale ≤ 18) × (unsigned_abs d.coef < 1000000000000000000) };

    ghost inverse = { λ n. record { coef = n.coef; scale = n.scale } };
}

impl Dec {
    /// The number, or `None` exactly where the coefficient has more than 18 digits or the scale is above 18.
    pub fn new(coef: i64, scale: u8) -> Option<Dec>
        ensures { result ≡ result_ok (checked (record { coef = coef; scale = scale })) }
    {
        bounded(coef as i128, scale).ok()
    }

    // A number that is known to lie within the bounds.
    pub(crate) fn within(coef: i64, scale: u8) -> Dec
        requires digits { unsigned_abs coef < 10 ^ 18 }
        requires bound { scale ≤ 18 }
        ensures { result ≡ record { coef = coef; scale = scale } }
    {
        Dec {
            coef,
            scale: scale as u64,
        }
    }

    /// The digits as one whole number, with the sign.
    pub fn coef(self) -> i64
        ensures value { result ≡ self.coef }
        ensures digits { unsigned_abs result < 10 ^ 18 }
    {
        self.coef
    }

    /// How many of the digits stand after the point.
    pub fn scale(self) -> u8
        ensures value { result ≡ self.scale }
        ensures bound { result ≤ 18 }
    {
        self.scale as u8
    }

    /// The sum, at the larger scale; more than 18 digits are `Range`.
    #[tactic(auto, using(crate::proofs::Powers::raised_small))]
    pub fn add(self, other: Dec) -> Result<Dec, NumFault>
        ensures { result ≡ checked (total self other) }
    {
        let scale = self.scale().max(other.scale());
        let left = raised(self.coef, scale - self.scale());
        let right = raised(other.coef, scale - other.scale());
        bounded(plus(left, right), scale)
    }

    /// The difference, at the larger scale; more than 18 digits are `Range`.
    #[tactic(auto, using(crate::proofs::Powers::raised_small))]
    pub fn sub(self, other: Dec) -> Result<Dec, NumFault>
        ensures { result ≡ checked (difference self other) }
    {
        let scale = self.scale().max(other.scale());
        let left = raised(self.coef, scale - self.scale());
        let right = raised(other.coef, scale - other.scale());
        bounded(minus(left, right), scale)
    }

    /// The product, at the sum of the scales; more than 18 digits, or a scale above 18, are `Range`.
    pub fn mul(self, other: Dec) -> Result<Dec, NumFault>
        ensures { result ≡ checked (product self other) }
    {
        bounded(times(self.coef, other.coef), self.scale() + other.scale())
    }

    /// The quotient at the larger scale, cut toward zero. A zero divisor is `Zero`, and then more than
    /// 18 digits are `Range`.
    #[tactic(auto, using(crate::proofs::Powers::dividend_small, crate::proofs::Quotients::too_large))]
    pub fn div(self, other: Dec) -> Result<Dec, NumFault>
        ensures { result ≡ divided self other }
    {
        if other.coef == 0 {
            return Err(NumFault::Zero);
        }
        let scale = self.scale().max(other.scale());
        let shift = scale + other.scale() - self.scale();
        // A dividend of 10^36 or more over less than 10^18 is a quotient of more than 18 digits.
        if self.coef.unsigned_abs() as i128 >= power(36 - shift) {
            return Err(NumFault::Range);
        }
        bounded(cut(raised(self.coef, shift), other.coef as i128), scale)
    }

    /// The number with its other sign.
    pub fn neg(self) -> Dec
        ensures { result ≡ negated self }
    {
        Dec {
            coef: -self.coef,
            scale: self.scale,
        }
    }

    /// The number at another scale; digits that don't fit there are cut off, and more than 18 digits
    /// are `Range`.
    #[tactic(auto, using(crate::proofs::Powers::raised_small, crate::proofs::Powers::power_pos))]
    pub fn rescale(self, scale: u8) -> Result<Dec, NumFault>
        requires { scale ≤ 18 }
        ensures { result ≡ checked (at_scale self scale) }
    {
        if self.scale() <= scale {
            bounded(raised(self.coef, scale - self.scale()), scale)
        } else {
            bounded(cut(self.coef as i128, power(self.scale() - scale)), scale)
        }
    }

    /// The order by value: `1.0` and `1.00` are equal.
    #[tactic(auto, using(crate::proofs::Powers::raised_small))]
    pub fn cmp(self, other: Dec) -> Ordering
        ensures { result ≡ order self other }
    {
        raised(self.coef, other.scale()).cmp(&raised(other.coef, self.scale()))
    }
}

fn bounded(coef: i128, scale: u8) -> Result<Dec, NumFault>
    ensures { result ≡ checked (record { coef = coef; scale = scale }) }
{
    if scale <= 18 && -1_000_000_000_000_000_000 < coef && coef < 1_000_000_000_000_000_000 {
        Ok(Dec {
            coef: coef as i64,
            scale: scale as u64,
        })
    } else {
        Err(NumFault::Range)
    }
}
