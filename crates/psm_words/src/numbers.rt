//! Numbers without leading zeros.
ghost use Rattle.std.specs.Prelude.{◌≡◌, ◌++◌, ◌^◌, ◌<◌, ◌≤◌, drop, length, IfSome, OnErr, OnOk};
ghost use Rattle.std.specs.Option.{option_map};
ghost use Rattle.psm_words.specs.Words.{number as number_word};
ghost use Rattle.psm_words.specs.Reading.{number_at, number_on};

use itoa::Buffer;
use std::alloc::AllocError;

/// Appends the decimal digits of a number, without leading zeros. Where memory runs out, `out` is as it was.
pub fn put_number(out: &mut Vec<u8>, n: u32) -> Result<(), AllocError>
    ensures ok { OnOk result (out.new.items ≡ out.old.items ++ number_word n) }
    ensures err { OnErr result (out.new.items ≡ out.old.items) }
{
    out.extend_from_slice(Buffer::new().format(n).as_bytes())
}

/// The number at the front of a text, and how many bytes it has. There is none where no digit stands there,
/// where a digit stands after a leading zero, or where the digits are a number above `most`.
pub fn number(most: u32, text: &[u8]) -> Option<(u32, usize)>
    ensures value { option_map (λ x. (x.0, drop x.1 text.now)) result ≡ number_at most text.now }
    ensures within { IfSome result (λ x. x.1 ≤ length text.now) }
    ensures bound { IfSome result (λ x. x.0 ≤ most) }
{
    let (n, size) = long_number(most as u64, text)?;
    Some((n as u32, size))
}

/// The same of a number of up to 18 digits.
pub(crate) fn long_number(most: u64, text: &[u8]) -> Option<(u64, usize)>
    requires { most < 10 ^ 18 }
    ensures value { option_map (λ x. (x.0, drop x.1 text.now)) result ≡ number_at most text.now }
    ensures within { IfSome result (λ x. x.1 ≤ length text.now) }
    ensures bound { IfSome result (λ x. x.0 ≤ most) }
{
    let (first, others) = text.split_first()?;
    if !first.is_ascii_digit() || most < (*first - b'0') as u64 {
        return None;
    }
    let (n, size) = number_going_on(most, (*first - b'0') as u64, others)?;
    Some((n, size + 1))
}

/// The number whose first digits are those of `before` and whose others stand at the front of a text, and how
/// many these are.
fn number_going_on(most: u64, before: u64, text: &[u8]) -> Option<(u64, usize)>
    requires most { most < 10 ^ 18 }
    requires before { before ≤ most }
    ensures value { option_map (λ x. (x.0, drop x.1 text.now)) result ≡ number_on most before text.now }
    ensures within { IfSome result (λ x. x.1 ≤ length text.now) }
    ensures bound { IfSome result (λ x. x.0 ≤ most) }
{
    let mut n = before;
    for (at, byte) in text.iter().enumerate() {
        if !byte.is_ascii_digit() {
            return Some((n, at));
        }
        let longer = n * 10 + (*byte - b'0') as u64;
        if n == 0 || longer > most {
            return None;
        }
        n = longer;
    }
    Some((n, text.len()))
}
