//! From the bytes of a file to its tokens.
ghost use Rattle.std.specs.Prelude.{◌≡◌, ◌<◌, length, IfOk, IfErr, take};
ghost use Rattle.std.specs.Str.{IsUtf8, chars};
ghost use Rattle.psm_token.specs.Answers.{OrMemory, GivesTokens, GivesFault};
ghost use Rattle.psm_token.specs.Listed.{Tokens};
ghost use Rattle.psm_token.specs.Places.{place_after, start};
ghost use Rattle.psm_token.specs.Spells.{Spells, IsTokenFault, IsFirstFault};
ghost use Rattle.psm_token.specs.declared.fault.LexFault.{LexFault};

use crate::fault::LexFault;
use crate::list::TokenList;
use crate::piece::{Piece, piece_at};
use crate::place::Place;
use crate::scan::advanced;
use crate::token::Placed;
use std::alloc::Global;
use std::str;

const MOST_TOKENS: usize = 2_000_000;

const START: Place = Place { line: 1, column: 1 };

/// The tokens of a text.
fn text_tokens(alloc: Global, text: &str) -> Result<TokenList, LexFault>
    requires { length text.now < 4294967295 }
    ensures ok { IfOk result (λ ts. Spells text.now ts) }
    ensures fault { IfErr result (λ f. OrMemory f (IsTokenFault text.now f)) }
{
    let mut items = Vec::new(alloc);
    let mut rest = text;
    let mut place = START;
    let mut after_name = false;
    loop {
        match piece_at(alloc, rest, after_name, place)? {
            Piece::End => return Ok(TokenList::of(items, place)),
            Piece::Gap(size) => {
                let (end, following) = advanced(place, rest, size);
                rest = following;
                place = end;
                after_name = false;
            }
            Piece::One(size, token) => {
                if items.len() == MOST_TOKENS {
                    return Err(LexFault::ManyTokens(place));
                }
                let (end, following) = advanced(place, rest, size);
                after_name = token.is_name();
                items.push(Placed { token, place })?;
                rest = following;
                place = end;
            }
        }
    }
}

/// The place after the first `count` bytes, which are characters.
fn place_following(bytes: &[u8], count: usize) -> Place
    requires size { length bytes.now < 4294967295 }
    requires within { count < length bytes.now }
    requires utf8 { IsUtf8 (take count bytes.now) }
    ensures { result ≡ place_after (chars (take count bytes.now)) start }
{
    match str::from_utf8(&bytes[..count]) {
        Ok(front) => advanced(START, front, count).0,
        Err(_) => unreachable!(),
    }
}

/// The tokens of a file, each with its place, and the place of the end (ISO/IEC 9075:1992, 5.2).
///
/// A file is UTF-8, which is tested before all else. The first token with a fault refuses the file, as
/// does the first token after 2,000,000 others; and so does out of memory.
pub fn tokens(alloc: Global, bytes: &[u8]) -> Result<TokenList, LexFault>
    requires { length bytes.now < 4294967295 }
    // What is given are the tokens of the file.
    ensures ok { IfOk result (λ ts. Spells bytes.now ts) }
    // The tokens of the file are given, unless memory runs out.
    ensures only { (ts : Tokens) → Spells bytes.now ts → GivesTokens ts result }
    // The fault is the first one of the file, unless memory ran out.
    ensures fault { IfErr result (λ f. OrMemory f (IsFirstFault bytes.now f)) }
    // The first fault of the file is given, unless memory runs out.
    ensures only_fault { (f : LexFault) → IsFirstFault bytes.now f → GivesFault f result }
{
    match str::from_utf8(bytes) {
        Ok(text) => text_tokens(alloc, text),
        Err(error) => Err(LexFault::BadUtf8(place_following(bytes, error.valid_up_to()))),
    }
}
