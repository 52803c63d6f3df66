//! The number that a text spells (ISO/IEC 9075:1992, 5.3).
ghost use Rattle.std.specs.Prelude.{◌≡◌, ◌≢◌, ◌+◌, ◌*◌, ◌^◌, ◌<◌, ◌≤◌, ◌++◌, length, position, pos, unsigned_abs, IsTrue, IfOk};
ghost use Rattle.std.specs.List.{list_all, before_first, after_first};
ghost use Rattle.std.specs.Char.{is_ascii_digit};
ghost use Rattle.std.specs.Str.Parse.{digits_value, digits_value_after};
ghost use Rattle.psm_num.specs.Literal.{Literal, Spells, literal_digits, literal_value, literal_number, is_minus};
ghost use Rattle.psm_num.specs.Split.{sign_of, after_sign, is_point, number_of};

use crate::dec::Dec;
use crate::fault::NumFault;

impl Dec {
    /// The number that a text spells: an optional sign, and digits with at most one point before, among or
    /// after them (ISO/IEC 9075:1992, 5.3). More than 18 digits as written are `Range`, and every other
    /// text is `NotNumber`.
    pub fn read(text: &str) -> Result<Dec, NumFault>
        ensures ok { IfOk result (λ d.
            (l : Literal) × Spells text.now l × (literal_digits l ≤ 18) × (d ≡ literal_value l)) }
        ensures range { result ≡ Err NumFault.Range
            → (l : Literal) × Spells text.now l × (18 < literal_digits l) }
        ensures not_number { result ≡ Err NumFault.NotNumber
            → (l : Literal) → Spells text.now l → ⊥ }
        ensures no_other { result ≢ Err NumFault.Zero }
        ensures exact { (l : Literal) → Spells text.now l → result ≡ literal_number l }
    {
        read_bytes(text.as_bytes())
    }
}

fn read_bytes(text: &[u8]) -> Result<Dec, NumFault>
    ensures { result ≡ number_of text.now }
{
    let (whole, fraction) = around_point(without_sign(text));
    let digits = whole.len() + fraction.len();
    if digits == 0 || !all_digits(whole) || !all_digits(fraction) {
        return Err(NumFault::NotNumber);
    }
    if digits > 18 {
        return Err(NumFault::Range);
    }
    let size = size_of(whole, fraction);
    let coef = if is_negative(text) { -size } else { size };
    Ok(Dec::within(coef, fraction.len() as u8))
}

fn is_negative(text: &[u8]) -> bool
    ensures { result ≡ is_minus (sign_of text.now) }
{
    text.first() == Some(&b'-')
}

fn without_sign(text: &[u8]) -> &[u8]
    ensures { result.now ≡ after_sign text.now }
{
    match text.first() {
        Some(b'+' | b'-') => &text[1..],
        _ => text,
    }
}

fn point_place(text: &[u8]) -> Option<usize>
    ensures { result ≡ position is_point text.now }
{
    text.iter().position(|byte| *byte == b'.')
}

#[tactic(auto, using(crate::proofs::Parts::around))]
fn around_point(text: &[u8]) -> (&[u8], &[u8])
    ensures whole { result.0.now ≡ before_first is_point text.now }
    ensures fraction { result.1.now ≡ after_first is_point text.now }
{
    match point_place(text) {
        Some(point) => (&text[..point], &text[point + 1..]),
        None => (text, &[]),
    }
}

fn all_digits(text: &[u8]) -> bool
    ensures { result ≡ list_all is_ascii_digit text.now }
{
    text.iter().all(|byte| byte.is_ascii_digit())
}

// The number that all the digits spell.
#[tactic(auto, using(crate::proofs::Digits::fits))]
fn size_of(whole: &[u8], fraction: &[u8]) -> i64
    requires whole_digits { IsTrue (list_all is_ascii_digit whole.now) }
    requires fraction_digits { IsTrue (list_all is_ascii_digit fraction.now) }
    requires few { length whole.now + length fraction.now ≤ 18 }
    ensures value { result ≡ pos (digits_value 10 (whole.now ++ fraction.now)) }
    ensures small { unsigned_abs result < 10 ^ 18 }
{
    digits_after(digits_after(0, whole), fraction) as i64
}

// The number that the digits spell when they are written after another number's.
#[tactic(auto, using(crate::proofs::Digits::steps))]
fn digits_after(number: u64, digits: &[u8]) -> u64
    requires digits { IsTrue (list_all is_ascii_digit digits.now) }
    requires small { (number + 1) * 10 ^ length digits.now ≤ 10 ^ 18 }
    ensures value { result ≡ digits_value_after 10 number digits.now }
    ensures size { result + 1 ≤ (number + 1) * 10 ^ length digits.now }
{
    let mut spelled = number;
    for digit in digits {
        spelled = spelled * 10 + (*digit - b'0') as u64;
    }
    spelled
}
