//! Reading what stands at the front of a text.
ghost use Rattle.std.specs.Prelude.{◌≡◌, ◌<◌, ◌≤◌, true, length, IfOk};
ghost use Rattle.std.specs.Str.{chars};
ghost use Rattle.psm_num.specs.Literal.{literal_digits};
ghost use Rattle.psm_token.specs.Characters.{begins};
ghost use Rattle.psm_token.specs.Forms.{IsWord, name_len};
ghost use Rattle.psm_token.specs.Fronts.{front_of};
ghost use Rattle.psm_token.specs.Numbers.{literal_at, literal_len, fraction_len};
ghost use Rattle.psm_token.specs.Places.{HasRoom};
ghost use Rattle.psm_token.specs.Quotes.{is_quote};
ghost use Rattle.psm_token.specs.Reading.{NumberRead, QuotedRead, TokenRead, PieceRead, piece_of};

use crate::fault::LexFault;
use crate::front::{Front, look, sign_at};
use crate::place::Place;
use crate::quoted::unquoted;
use crate::scan::{Class, advanced, begins_in, first, folded, gathered, run};
use crate::token::Token;
use crate::word::find;
use psm_num::Dec;
use psm_text::{Name, NameFault, Text, TextFault};
use std::alloc::{AllocError, Global};

const MOST_IN_NAME: usize = 128;

const MOST_IN_TEXT: usize = 4000;

const MOST_DIGITS: usize = 18;

/// What stands at the front of a text, and how many characters it is.
#[derive(Debug, Drop)]
pub(crate) enum Piece {
    /// Nothing: the text ends there.
    End,
    /// A separator or a comment.
    Gap(usize),
    /// A token.
    One(usize, Token),
}

/// The word of a text in capital letters, or its name.
fn word_or_name(alloc: Global, text: &str) -> Result<Token, AllocError>
    requires ascii { chars text.now ≡ text.now }
    requires some { 0 < length text.now }
    requires limit { length text.now ≤ 128 }
    ensures { IfOk result (λ t. IsWord text.now t) }
{
    match find(text) {
        Some(word) => Ok(Token::Word(word)),
        None => match Name::make(alloc, text) {
            Ok(name) => Ok(Token::Name(name)),
            Err(NameFault::Memory) => Err(AllocError),
            Err(_) => unreachable!(),
        },
    }
}

/// The word or the name at the front, which isn't delimited.
fn read_name(alloc: Global, rest: &str, place: Place) -> Result<(usize, Token), LexFault>
    requires { 0 < name_len (chars rest.now) }
    ensures { TokenRead Front.Letter (chars rest.now) place result }
{
    let (size, _) = run(Class::NamePart, rest);
    if size > MOST_IN_NAME {
        return Err(LexFault::LongName(place));
    }
    let text = folded(alloc, rest, size)?;
    let token = word_or_name(alloc, text.as_str())?;
    Ok((size, token))
}

/// How many characters a point and the digits after it are, if they stand at the front.
fn fraction_size(rest: &str) -> usize
    ensures value { result ≡ fraction_len (chars rest.now) }
    ensures within { result ≤ length rest.now }
{
    match first(rest) {
        Some((c, following)) if c == '.' => {
            let (digits, _) = run(Class::Digit, following);
            1 + digits
        }
        _ => 0,
    }
}

/// How many characters the number at the front is.
fn number_size(rest: &str) -> usize
    ensures { result ≡ literal_len (chars rest.now) }
{
    let (whole, following) = run(Class::Digit, rest);
    whole + fraction_size(following)
}

/// The number at the front, which has `size` characters, unless it has too many digits.
fn number_at(alloc: Global, rest: &str, size: usize) -> Result<Option<Dec>, AllocError>
    requires some { 0 < literal_digits (literal_at (chars rest.now)) }
    requires whole { size ≡ literal_len (chars rest.now) }
    ensures { IfOk result (λ o. NumberRead (literal_at (chars rest.now)) o) }
{
    if size > MOST_DIGITS + 1 {
        return Ok(None);
    }
    let text = gathered(alloc, rest, size)?;
    match Dec::read(text.as_str()) {
        Ok(number) => Ok(Some(number)),
        Err(_) => Ok(None),
    }
}

/// The number at the front.
fn read_number(alloc: Global, rest: &str, place: Place) -> Result<(usize, Token), LexFault>
    requires some { 0 < literal_digits (literal_at (chars rest.now)) }
    requires room { HasRoom place (chars rest.now) }
    ensures { TokenRead Front.Digit (chars rest.now) place result }
{
    let size = number_size(rest);
    match number_at(alloc, rest, size)? {
        None => Err(LexFault::LongNumber(place)),
        Some(number) => {
            let (end, following) = advanced(place, rest, size);
            if begins_in(following, Class::NameLetter) {
                Err(LexFault::BadChar(end))
            } else {
                Ok((size, Token::Number(number)))
            }
        }
    }
}

/// The first characters of what is quoted at the front up to `limit`, and how many characters it is.
fn quoted(
    alloc: Global,
    quote: char,
    rest: &str,
    limit: usize,
) -> Result<Option<(String, usize)>, AllocError>
    requires { begins (is_quote quote) (chars rest.now) ≡ true }
    ensures { IfOk result (λ o. QuotedRead quote (chars rest.now) limit o) }
{
    match first(rest) {
        Some((_, following)) => unquoted(alloc, quote, following, limit),
        None => unreachable!(),
    }
}

/// The delimited name at the front.
fn read_delimited(alloc: Global, rest: &str, place: Place) -> Result<(usize, Token), LexFault>
    requires quote { begins (is_quote 34) (chars rest.now) ≡ true }
    requires room { HasRoom place (chars rest.now) }
    ensures { TokenRead Front.Quote (chars rest.now) place result }
{
    match quoted(alloc, '"', rest, MOST_IN_NAME + 1)? {
        None => Err(LexFault::OpenName(place)),
        Some((kept, size)) => match Name::make(alloc, kept.as_str()) {
            Ok(name) => Ok((size, Token::Name(name))),
            Err(NameFault::Empty) => {
                let (second, _) = advanced(place, rest, 1);
                Err(LexFault::BadChar(second))
            }
            Err(NameFault::TooLong) => Err(LexFault::LongName(place)),
            Err(NameFault::Memory) => Err(LexFault::Memory),
        },
    }
}

/// The text at the front.
fn read_text(alloc: Global, rest: &str, place: Place) -> Result<(usize, Token), LexFault>
    requires { begins (is_quote 39) (chars rest.now) ≡ true }
    ensures { TokenRead Front.Apostrophe (chars rest.now) place result }
{
    match quoted(alloc, '\'', rest, MOST_IN_TEXT + 1)? {
        None => Err(LexFault::OpenText(place)),
        Some((kept, size)) => match Text::make(alloc, kept.as_str()) {
            Ok(text) => Ok((size, Token::Text(text))),
            Err(TextFault::TooLong) => Err(LexFault::LongText(place)),
            Err(TextFault::Memory) => Err(LexFault::Memory),
            Err(_) => unreachable!(),
        },
    }
}

/// The longest sign at the front.
fn read_sign(rest: &str, place: Place) -> Result<(usize, Token), LexFault>
    ensures { TokenRead Front.Other (chars rest.now) place result }
{
    match sign_at(rest) {
        Some(sign) => Ok((sign.text().len(), Token::Sign(sign))),
        None => Err(LexFault::BadChar(place)),
    }
}

/// What stands at the front, where a name stands directly before or not.
pub(crate) fn piece_at(
    alloc: Global,
    rest: &str,
    after_name: bool,
    place: Place,
) -> Result<Piece, LexFault>
    requires { HasRoom place (chars rest.now) }
    ensures { PieceRead (front_of after_name (chars rest.now)) (chars rest.now) place result }
{
    match look(rest, after_name) {
        Front::End => Ok(Piece::End),
        Front::Separator => Ok(Piece::Gap(1)),
        Front::Comment => {
            let (size, _) = run(Class::InLine, rest);
            Ok(Piece::Gap(size))
        }
        Front::Letter => one(read_name(alloc, rest, place)),
        Front::Digit => one(read_number(alloc, rest, place)),
        Front::Quote => one(read_delimited(alloc, rest, place)),
        Front::Apostrophe => one(read_text(alloc, rest, place)),
        Front::Other => one(read_sign(rest, place)),
    }
}

/// A token as a piece.
fn one(read: Result<(usize, Token), LexFault>) -> Result<Piece, LexFault>
    ensures { result ≡ piece_of read }
{
    match read {
        Ok((size, token)) => Ok(Piece::One(size, token)),
        Err(fault) => Err(fault),
    }
}
