//! What stands between quotes.
ghost use Rattle.std.specs.Prelude.{◌≡◌, ◌∷◌, ◌++◌, [], ◌+◌, length, nat_lt, if◌then◌else◌, IfOk, OnOk, string_bytes};
ghost use Rattle.std.specs.Str.{chars};
ghost use Rattle.psm_token.specs.Unquoting.{Shows, ShowsAfter, IsShorter, Unquoted, read_inside};

use crate::scan::{first, push};
use std::alloc::{AllocError, Global};

/// A step inside of quotes.
#[derive(Clone, Copy)]
pub(crate) enum Inside<'a> {
    /// The end of the file.
    Nothing,
    /// The closing quote.
    Close,
    /// A character, how many stand for it, and what follows.
    Kept(char, usize, &'a str),
}

/// What stands at the front inside of quotes.
fn step_inside(quote: char, rest: &str) -> Inside<'_>
    ensures shows { Shows quote (chars rest.now) result }
    ensures shorter { IsShorter (length rest.now) result }
{
    match first(rest) {
        None => Inside::Nothing,
        Some((c, following)) => {
            if c == quote {
                step_after_quote(quote, following)
            } else {
                Inside::Kept(c, 1, following)
            }
        }
    }
}

/// What a quote inside of quotes and what follows it are.
fn step_after_quote(quote: char, rest: &str) -> Inside<'_>
    ensures shows { ShowsAfter quote (chars rest.now) result }
    ensures shorter { IsShorter (length rest.now + 1) result }
{
    match first(rest) {
        None => Inside::Close,
        Some((c, following)) => {
            if c == quote {
                Inside::Kept(c, 2, following)
            } else {
                Inside::Close
            }
        }
    }
}

/// Puts a character after what is kept, unless it is `limit` characters already.
fn keep(kept: &mut String, c: char, size: usize, limit: usize) -> Result<(), AllocError>
    ensures { OnOk result (chars (string_bytes kept.new) ≡
        (if nat_lt size limit then chars (string_bytes kept.old) ++ c ∷ [] else chars (string_bytes kept.old))) }
{
    if size < limit { push(kept, c) } else { Ok(()) }
}

/// The first characters of a quoted text up to `limit`, and how many characters it is with its quotes, from
/// after its first quote on.
pub(crate) fn unquoted(
    alloc: Global,
    quote: char,
    rest: &str,
    limit: usize,
) -> Result<Option<(String, usize)>, AllocError>
    ensures { IfOk result (λ o. Unquoted limit (read_inside quote [] 1 (chars rest.now)) o) }
{
    let mut kept = String::new(alloc);
    let mut size = 0;
    let mut count = 1;
    let mut left = rest;
    loop {
        match step_inside(quote, left) {
            Inside::Nothing => return Ok(None),
            Inside::Close => return Ok(Some((kept, count + 1))),
            Inside::Kept(c, taken, following) => {
                keep(&mut kept, c, size, limit)?;
                size += 1;
                count += taken;
                left = following;
            }
        }
    }
}
