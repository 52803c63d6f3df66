//! Powers of ten, and the sums, differences, products and quotients of whole numbers of up to 36 digits.
ghost use Rattle.std.specs.Prelude.{◌≡◌, pos, ◌*◌, ◌^◌, ◌<◌, ◌≤◌, ◌*ℤ◌, ◌+ℤ◌, ◌-ℤ◌, unsigned_abs, int_div};

/// The `n`th power of ten.
#[tactic(auto, using(crate::proofs::Powers::power_small))]
pub fn power(n: u8) -> i128
    requires { n ≤ 36 }
    ensures { result ≡ pos (10 ^ n) }
{
    10_u128.pow(n as u32) as i128
}

/// The coefficient with `shift` zeros after it.
pub fn raised(coef: i64, shift: u8) -> i128
    requires shift_fits { shift ≤ 36 }
    requires small { unsigned_abs coef * 10 ^ shift < 10 ^ 36 }
    ensures value { result ≡ coef *ℤ pos (10 ^ shift) }
    ensures size { unsigned_abs result ≡ unsigned_abs coef * 10 ^ shift }
{
    coef as i128 * power(shift)
}

/// The sum of two numbers of at most 36 digits.
pub fn plus(left: i128, right: i128) -> i128
    requires left_small { unsigned_abs left < 10 ^ 36 }
    requires right_small { unsigned_abs right < 10 ^ 36 }
    ensures { result ≡ left +ℤ right }
{
    left + right
}

/// The difference of two numbers of at most 36 digits.
pub fn minus(left: i128, right: i128) -> i128
    requires left_small { unsigned_abs left < 10 ^ 36 }
    requires right_small { unsigned_abs right < 10 ^ 36 }
    ensures { result ≡ left -ℤ right }
{
    left - right
}

/// The product of two numbers of at most 18 digits.
pub fn times(left: i64, right: i64) -> i128
    requires left_small { unsigned_abs left < 10 ^ 18 }
    requires right_small { unsigned_abs right < 10 ^ 18 }
    ensures { result ≡ left *ℤ right }
{
    left as i128 * right as i128
}

/// The quotient, cut toward zero.
pub fn cut(dividend: i128, divisor: i128) -> i128
    requires nonzero { 0 < unsigned_abs divisor }
    requires small { unsigned_abs dividend < 10 ^ 36 }
    ensures { result ≡ int_div dividend divisor }
{
    dividend / divisor
}
