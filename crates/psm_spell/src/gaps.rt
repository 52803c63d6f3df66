//! What stands between tokens.
ghost use Rattle.std.specs.Prelude.{◌≡◌};
ghost use Rattle.psm_spell.specs.Gaps.{has_blank, gap_after, line_end, is_open, is_closing};
ghost use Rattle.psm_spell.specs.Parts.{token_of};

use crate::part::{Part, gap};
use psm_token::Sign;

/// What is written between tokens.
#[derive(Clone, Copy, Debug, PartialEq, Eq)]
pub enum Gaps {
    /// A line feed after each semicolon, and a blank after each other token.
    After,
    /// A line feed after each semicolon, and a blank between any other two tokens, but none after `(` and none
    /// before `,`, `)` and `;`.
    Between,
}

/// Whether a blank is written before a token. `tight` says that the tokens before it want none.
pub(crate) fn has_blank(gaps: Gaps, tight: bool, part: &Part<'_>) -> bool
    ensures { result ≡ has_blank gaps tight (token_of part.now) }
{
    match gaps {
        Gaps::After => false,
        Gaps::Between => !tight && !is_closing(part),
    }
}

/// What is written after a token.
pub(crate) fn gap_after(gaps: Gaps, part: &Part<'_>) -> Option<char>
    ensures { result ≡ gap_after gaps (token_of part.now) }
{
    match gaps {
        Gaps::After => Some(gap(part)),
        Gaps::Between => line_end(part),
    }
}

fn line_end(part: &Part<'_>) -> Option<char>
    ensures { result ≡ line_end (token_of part.now) }
{
    match part {
        Part::Sign(Sign::Semicolon) => Some('\n'),
        _ => None,
    }
}

/// Whether no blank is written after the token.
pub(crate) fn is_open(part: &Part<'_>) -> bool
    ensures { result ≡ is_open (token_of part.now) }
{
    match part {
        Part::Sign(Sign::LeftParen) | Part::Sign(Sign::Semicolon) => true,
        _ => false,
    }
}

/// Whether no blank is written before the token.
fn is_closing(part: &Part<'_>) -> bool
    ensures { result ≡ is_closing (token_of part.now) }
{
    match part {
        Part::Sign(Sign::Comma) | Part::Sign(Sign::RightParen) | Part::Sign(Sign::Semicolon) => {
            true
        }
        _ => false,
    }
}
