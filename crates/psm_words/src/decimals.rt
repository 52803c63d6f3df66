//! Numbers as they are printed.
ghost use Rattle.std.specs.Prelude.{◌≡◌, ◌^◌, ◌<◌, ◌≤◌, drop, length, option_map, IfSome};
ghost use Rattle.psm_words.specs.Reading.{decimal_at, decimals_on, point_on, signed_number, unsigned_at};

use crate::fronts::begins_with_digit;
use crate::numbers::long_number;
use psm_num::Dec;

/// The largest number of 18 digits.
const MOST: u64 = 999_999_999_999_999_999;

/// As many digits as can stand after the point.
const MOST_DECIMALS: u8 = 18;

/// The number at the front of a text, as it is printed, and how many bytes it has.
pub(crate) fn decimal(text: &[u8]) -> Option<(Dec, usize)>
    ensures value { option_map (λ x. (x.0, drop x.1 text.now)) result ≡ decimal_at text.now }
    ensures within { IfSome result (λ x. x.1 ≤ length text.now) }
{
    let (first, others) = text.split_first()?;
    if *first == b'-' {
        let (n, decimals, size) = unsigned(others)?;
        return Some((signed(true, n, decimals)?, size + 1));
    }
    let (n, decimals, size) = unsigned(text)?;
    Some((signed(false, n, decimals)?, size))
}

/// A number with its sign; zero has no minus.
fn signed(minus: bool, n: u64, decimals: u8) -> Option<Dec>
    requires digits { n < 10 ^ 18 }
    requires decimals { decimals ≤ 18 }
    ensures { result ≡ signed_number minus n decimals }
{
    if !minus {
        return Dec::new(n as i64, decimals);
    }
    if n == 0 {
        return None;
    }
    Dec::new(-(n as i64), decimals)
}

/// A number without its sign: its digits, how many of them stand after the point, and how many bytes it has.
#[tactic(auto, using(crate::proofs::Further::further))]
fn unsigned(text: &[u8]) -> Option<(u64, u8, usize)>
    ensures value { option_map (λ x. (x.0, x.1, drop x.2 text.now)) result ≡ unsigned_at text.now }
    ensures within { IfSome result (λ x. x.2 ≤ length text.now) }
    ensures digits { IfSome result (λ x. x.0 < 10 ^ 18) }
    ensures decimals { IfSome result (λ x. x.1 ≤ 18) }
{
    let (n, size) = long_number(MOST, text)?;
    let (n, decimals, more) = after_whole(n, &text[size..])?;
    Some((n, decimals, size + more))
}

/// The same of what follows the digits before the point.
fn after_whole(n: u64, text: &[u8]) -> Option<(u64, u8, usize)>
    requires { n < 10 ^ 18 }
    ensures value { option_map (λ x. (x.0, x.1, drop x.2 text.now)) result ≡ point_on n text.now }
    ensures within { IfSome result (λ x. x.2 ≤ length text.now) }
    ensures digits { IfSome result (λ x. x.0 < 10 ^ 18) }
    ensures decimals { IfSome result (λ x. x.1 ≤ 18) }
{
    match text.split_first() {
        Some((first, others)) if *first == b'.' => {
            if !begins_with_digit(others) {
                return None;
            }
            let (n, decimals, size) = decimals_after(n, others)?;
            Some((n, decimals, size + 1))
        }
        _ => Some((n, 0, 0)),
    }
}

/// The same of what follows the point.
fn decimals_after(before: u64, text: &[u8]) -> Option<(u64, u8, usize)>
    requires { before < 10 ^ 18 }
    ensures value { option_map (λ x. (x.0, x.1, drop x.2 text.now)) result ≡ decimals_on before 0 text.now }
    ensures within { IfSome result (λ x. x.2 ≤ length text.now) }
    ensures digits { IfSome result (λ x. x.0 < 10 ^ 18) }
    ensures decimals { IfSome result (λ x. x.1 ≤ 18) }
{
    let mut n = before;
    let mut decimals = 0;
    for (at, byte) in text.iter().enumerate() {
        if !byte.is_ascii_digit() {
            return Some((n, decimals, at));
        }
        let longer = n * 10 + (*byte - b'0') as u64;
        if decimals == MOST_DECIMALS || longer > MOST {
            return None;
        }
        n = longer;
        decimals += 1;
    }
    Some((n, decimals, text.len()))
}
