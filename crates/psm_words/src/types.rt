//! Types.
ghost use Rattle.std.specs.Prelude.{◌≡◌, ◌++◌, ◌≤◌, drop, length, option_map, string_bytes, IfOk, IfSome, OnErr, OnOk};
ghost use Rattle.psm_words.specs.Words.{type_word};
ghost use Rattle.psm_words.specs.Reading.{closed_number as closed_number_at, length_after as length_after_word, numeric_at, type_at};

use crate::fronts::{after, number_from};
use psm_value::SqlType;
use std::alloc::{AllocError, Global};

/// Appends a type: `SMALLINT`, `INTEGER`, `NUMERIC(p,s)`, `CHAR(n)` or `VARCHAR(n)`. Where memory runs out, `out` is as it
/// was.
pub fn put_type(out: &mut Vec<u8>, kind: SqlType) -> Result<(), AllocError>
    ensures ok { OnOk result (out.new.items ≡ out.old.items ++ type_word kind) }
    ensures err { OnErr result (out.new.items ≡ out.old.items) }
{
    let word = word_of(*out.allocator(), kind)?;
    out.extend_from_slice(word.as_bytes())
}

fn word_of(alloc: Global, kind: SqlType) -> Result<String, AllocError>
    ensures { IfOk result (λ word. string_bytes word ≡ type_word kind) }
{
    match kind {
        SqlType::SmallInt => String::from_str(alloc, "SMALLINT"),
        SqlType::Integer => String::from_str(alloc, "INTEGER"),
        SqlType::Numeric { p, s } => format!(in alloc; "NUMERIC({p},{s})"),
        SqlType::Char { n } => format!(in alloc; "CHAR({n})"),
        SqlType::VarChar { n } => format!(in alloc; "VARCHAR({n})"),
    }
}

/// The type at the front of a text, and how many bytes it has. Its digits and decimals are at most 255, and its length is at
/// most 65535; whether a type may have them is not asked. There is none where it is written in another way than
/// [`put_type`] does.
pub fn sql_type(text: &[u8]) -> Option<(SqlType, usize)>
    ensures value { option_map (λ x. (x.0, drop x.1 text.now)) result ≡ type_at text.now }
    ensures within { IfSome result (λ x. x.1 ≤ length text.now) }
{
    match text {
        [] => None,
        [b'S', ..] => Some((SqlType::SmallInt, after(b"SMALLINT", text, 0)?)),
        [b'I', ..] => Some((SqlType::Integer, after(b"INTEGER", text, 0)?)),
        [b'N', ..] => numeric(text),
        [b'C', ..] => {
            let (n, end) = length_after(b"CHAR(", text)?;
            Some((SqlType::Char { n }, end))
        }
        [b'V', ..] => {
            let (n, end) = length_after(b"VARCHAR(", text)?;
            Some((SqlType::VarChar { n }, end))
        }
        [_, ..] => None,
    }
}

/// A number and the closing parenthesis at `start`, and where what follows them begins.
fn closed_number(most: u32, text: &[u8], start: usize) -> Option<(u32, usize)>
    requires { start ≤ length text.now }
    ensures value { option_map (λ x. (x.0, drop x.1 text.now)) result ≡ closed_number_at most (drop start text.now) }
    ensures within { IfSome result (λ x. x.1 ≤ length text.now) }
    ensures bound { IfSome result (λ x. x.0 ≤ most) }
{
    let (n, at) = number_from(most, text, start)?;
    let at = after(b")", text, at)?;
    Some((n, at))
}

/// The length after a word, and where what follows the closing parenthesis begins.
fn length_after(word: &[u8], text: &[u8]) -> Option<(u16, usize)>
    ensures value { option_map (λ x. (x.0, drop x.1 text.now)) result ≡ length_after_word word.now text.now }
    ensures within { IfSome result (λ x. x.1 ≤ length text.now) }
{
    let at = after(word, text, 0)?;
    let (n, at) = closed_number(65535, text, at)?;
    Some((n as u16, at))
}

fn numeric(text: &[u8]) -> Option<(SqlType, usize)>
    ensures value { option_map (λ x. (x.0, drop x.1 text.now)) result ≡ numeric_at text.now }
    ensures within { IfSome result (λ x. x.1 ≤ length text.now) }
{
    let at = after(b"NUMERIC(", text, 0)?;
    let (p, at) = number_from(255, text, at)?;
    let at = after(b",", text, at)?;
    let (s, at) = closed_number(255, text, at)?;
    let (p, s) = (p as u8, s as u8);
    Some((SqlType::Numeric { p, s }, at))
}
