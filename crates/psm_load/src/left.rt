//! The lines of a text that are left to read.
ghost use Rattle.std.specs.Prelude.{◌≡◌, ◌<◌, ◌∷◌, length, nat_eq};
ghost use Rattle.std.specs.List.{position};
ghost use Rattle.psm_load.specs.Left.{lines_of, next_of, noted, placed, start_of, TakesLine};

use crate::stop::Stop;
use psm_code::CodeRule;
use psm_load_line::Unread;
use std::marker::Model;

/// The lines of a text that are left to read, the number of the next one, and the first line that stands for nothing that code holds,
/// with the rule that it breaks.
#[derive(Drop)]
pub(crate) struct LinesLeft<'a> {
    text: &'a [u8],
    number: u32,
    odd: Option<(u32, CodeRule)>,
}

impl<'a> Model for LinesLeft<'a> {
    ghost use Rattle.std.specs.Prelude.{◌+◌, ◌<◌, length};
    ghost use Rattle.psm_load.specs.Left.{lines_of, Left};

    ghost Value = { Left };

    ghost view = { λ l. record { at = record { number = l.number; odd = l.odd }; lines = lines_of l.text.now } };

    ghost invariant = { λ l. l.number + length l.text.now < 4294967296 };
}

/// A line with its number.
#[derive(Clone, Copy)]
pub(crate) struct NumberedLine<'a> {
    pub(crate) number: u32,
    pub(crate) bytes: &'a [u8],
}

impl<'a> LinesLeft<'a> {
    /// All lines of a text.
    pub(crate) fn of(text: &'a [u8]) -> LinesLeft<'a>
        requires { length text.now < 4294967295 }
        ensures { result ≡ start_of text.now }
    {
        LinesLeft {
            text,
            number: 1,
            odd: None,
        }
    }

    /// Takes the next line off. Where none is left, the error holds the number that it would have.
    pub(crate) fn next(&mut self) -> Result<NumberedLine<'a>, Stop>
        ensures { TakesLine self.old self.new result }
    {
        let number = self.number;
        let text = self.text;
        if text.is_empty() {
            return Err(Stop::Misfit(number));
        }
        let (bytes, rest) = first_line(text);
        self.number = number + 1;
        self.text = rest;
        Ok(NumberedLine { number, bytes })
    }

    /// Notes that the line of that number stands for nothing that code holds.
    pub(crate) fn note(&mut self, number: u32, rule: CodeRule)
        ensures { self.new ≡ noted self.old number rule }
    {
        if self.odd.is_none() {
            self.odd = Some((number, rule));
        }
    }

    /// The number of the next line, if one is left.
    #[tactic(auto, using(crate::proofs::Lines::is_left))]
    pub(crate) fn unread(&self) -> Option<u32>
        ensures { result ≡ next_of self.now.at.number self.now.lines }
    {
        if self.text.is_empty() {
            None
        } else {
            Some(self.number)
        }
    }

    /// The first line that stands for nothing that code holds, with the rule that it breaks.
    pub(crate) fn odd(&self) -> Option<(u32, CodeRule)>
        ensures odd { result ≡ self.now.at.odd }
        ensures within { self.now.at.number < 4294967296 }
    {
        self.odd
    }
}

impl<'a> NumberedLine<'a> {
    /// What was read of the line.
    pub(crate) fn says<T: Drop>(&self, read: Result<T, Unread>) -> Result<T, Stop>
        ensures { result ≡ placed self.now.number read }
    {
        match read {
            Ok(said) => Ok(said),
            Err(Unread::Misfit) => Err(Stop::Misfit(self.number)),
            Err(Unread::Memory) => Err(Stop::Memory),
        }
    }
}

// The first line of a text, and what follows it.
#[tactic(auto, using(crate::proofs::Lines::splits))]
fn first_line(text: &[u8]) -> (&[u8], &[u8])
    requires { 0 < length text.now }
    ensures split { lines_of text.now ≡ result.0.now ∷ lines_of result.1.now }
    ensures shorter { length result.1.now < length text.now }
{
    match line_end(text) {
        Some(end) => (&text[..end], &text[end + 1..]),
        None => (&[], &[]),
    }
}

// Where the first line feed stands.
fn line_end(text: &[u8]) -> Option<usize>
    ensures { result ≡ position (λ b. nat_eq b 10) text.now }
{
    text.iter().position(|b| *b == b'\n')
}
