//! What begins with a word of its own, but for CASE (ISO/IEC 9075:1992, 6.6 to 6.10 and 8.8).
ghost use Rattle.psm_grammar.specs.Forms.{optional};
ghost use Rattle.psm_grammar.specs.Grammar.{level};
ghost use Rattle.psm_token.specs.declared.word.Word.TheVariants.{Exists as ExistsWord, Cast as CastWord, Coalesce as CoalesceWord, NullIf as NullIfWord, Position as PositionWord, Substring as SubstringWord, Trim as TrimWord};
ghost use Rattle.psm_tree.specs.ExprGrammar.{for_length as for_length_part, trimmed as trimmed_part, worded_primary as worded_primary_part};
ghost use Rattle.psm_tree.specs.ExprValues.{exists_of, cast_of, coalesce_of, nullif_of, function_of, position_of, substring_of, trim_of};
ghost use Rattle.psm_tree.specs.Parts.{ExistsRest, CastRest, CoalesceRest, NullIfRest, FunctionRest, PositionRest, SubstringRest, TrimRest};
ghost use Rattle.psm_tree.specs.Readers.{Takes, reading};
ghost use Rattle.psm_tree.specs.Tests.{word as word_test, text_function as text_function_test};

use crate::argument::{source, sources};
use crate::case::case;
use crate::condition::expr;
use crate::operator::{open_text_function, trim_side};
use crate::query::select;
use crate::value::sum;
use psm_grammar::Halt;
use psm_list::Boxed;
use psm_parse_token::{Tokens, data_type};
use psm_text::Side;
use psm_token::{Sign, Word};
use psm_tree::Expr;
use std::alloc::Global;

const TRIM_SIDES: [Word; 3] = [Word::Leading, Word::Trailing, Word::Both];

/// `EXISTS "(" select ")"` (ISO/IEC 9075:1992, 8.8).
#[cycle(expressions)]
#[tactic(auto, using(psm_tree::proofs::Reading::steps), unfolding(psm_tree::specs::ExprGrammar::exists_rest))]
pub(crate) fn exists(alloc: Global, tokens: &mut Tokens, levels: u32) -> Result<Boxed<Expr>, Halt>
    ensures { Takes (reading levels (level ExistsRest (word_test ExistsWord) exists_of) tokens.old.rest.now) result tokens.new.rest.now }
{
    let (place, levels) = tokens.open(Word::Exists, levels)?;
    tokens.sign(Sign::LeftParen)?;
    let query = select(alloc, tokens, levels)?;
    tokens.sign(Sign::RightParen)?;
    Ok(Boxed::new(alloc, Expr::Exists { place, query })?)
}

/// `CAST "(" source AS type ")"` (ISO/IEC 9075:1992, 6.10).
#[cycle(expressions)]
#[tactic(auto, using(psm_tree::proofs::Reading::steps), unfolding(psm_tree::specs::ExprGrammar::cast_rest))]
pub(crate) fn cast(alloc: Global, tokens: &mut Tokens, levels: u32) -> Result<Boxed<Expr>, Halt>
    ensures { Takes (reading levels (level CastRest (word_test CastWord) cast_of) tokens.old.rest.now) result tokens.new.rest.now }
{
    let (place, levels) = tokens.open(Word::Cast, levels)?;
    tokens.sign(Sign::LeftParen)?;
    let source = source(alloc, tokens, levels)?;
    tokens.word(Word::As)?;
    let to = data_type(tokens, levels)?;
    tokens.sign(Sign::RightParen)?;
    Ok(Boxed::new(alloc, Expr::Cast { place, source, to })?)
}

/// `COALESCE "(" source {"," source} ")"` (ISO/IEC 9075:1992, 6.9).
#[cycle(expressions)]
#[tactic(auto, using(psm_tree::proofs::Reading::steps), unfolding(psm_tree::specs::ExprGrammar::coalesce_rest))]
pub(crate) fn coalesce(alloc: Global, tokens: &mut Tokens, levels: u32) -> Result<Boxed<Expr>, Halt>
    ensures { Takes (reading levels (level CoalesceRest (word_test CoalesceWord) coalesce_of) tokens.old.rest.now) result tokens.new.rest.now }
{
    let (place, levels) = tokens.open(Word::Coalesce, levels)?;
    tokens.sign(Sign::LeftParen)?;
    let values = sources(alloc, tokens, levels)?;
    tokens.sign(Sign::RightParen)?;
    Ok(Boxed::new(alloc, Expr::Coalesce { place, values })?)
}

/// `NULLIF "(" expr "," expr ")"` (ISO/IEC 9075:1992, 6.9).
#[cycle(expressions)]
#[tactic(auto, using(psm_tree::proofs::Reading::steps), unfolding(psm_tree::specs::ExprGrammar::nullif_rest))]
pub(crate) fn nullif(alloc: Global, tokens: &mut Tokens, levels: u32) -> Result<Boxed<Expr>, Halt>
    ensures { Takes (reading levels (level NullIfRest (word_test NullIfWord) nullif_of) tokens.old.rest.now) result tokens.new.rest.now }
{
    let (place, levels) = tokens.open(Word::NullIf, levels)?;
    tokens.sign(Sign::LeftParen)?;
    let left = expr(alloc, tokens, levels)?;
    tokens.sign(Sign::Comma)?;
    let right = expr(alloc, tokens, levels)?;
    tokens.sign(Sign::RightParen)?;
    Ok(Boxed::new(alloc, Expr::NullIf { place, left, right })?)
}

/// `POSITION "(" sum IN sum ")"` (ISO/IEC 9075:1992, 6.6).
#[cycle(expressions)]
#[tactic(auto, using(psm_tree::proofs::Reading::steps), unfolding(psm_tree::specs::ExprGrammar::position_rest))]
pub(crate) fn position(alloc: Global, tokens: &mut Tokens, levels: u32) -> Result<Boxed<Expr>, Halt>
    ensures { Takes (reading levels (level PositionRest (word_test PositionWord) position_of) tokens.old.rest.now) result tokens.new.rest.now }
{
    let (place, levels) = tokens.open(Word::Position, levels)?;
    tokens.sign(Sign::LeftParen)?;
    let part = sum(alloc, tokens, levels)?;
    tokens.word(Word::In)?;
    let whole = sum(alloc, tokens, levels)?;
    tokens.sign(Sign::RightParen)?;
    Ok(Boxed::new(alloc, Expr::Position { place, part, whole })?)
}

/// `[FOR expr]`
#[cycle(expressions)]
#[tactic(auto, using(psm_tree::proofs::Reading::steps, psm_tree::proofs::Firsts::first_for_length), unfolding(psm_tree::specs::ExprGrammar::for_length))]
pub(crate) fn perhaps_length(
    alloc: Global,
    tokens: &mut Tokens,
    levels: u32,
) -> Result<Option<Boxed<Expr>>, Halt>
    ensures { Takes (reading levels (optional for_length_part) tokens.old.rest.now) result tokens.new.rest.now }
{
    if !tokens.at(Word::For) {
        return Ok(None);
    }
    tokens.word(Word::For)?;
    Ok(Some(expr(alloc, tokens, levels)?))
}

/// `SUBSTRING "(" expr FROM expr [FOR expr] ")"` (ISO/IEC 9075:1992, 6.7).
#[cycle(expressions)]
#[tactic(auto, using(psm_tree::proofs::Reading::steps), unfolding(psm_tree::specs::ExprGrammar::substring_rest))]
pub(crate) fn substring(
    alloc: Global,
    tokens: &mut Tokens,
    levels: u32,
) -> Result<Boxed<Expr>, Halt>
    ensures { Takes (reading levels (level SubstringRest (word_test SubstringWord) substring_of) tokens.old.rest.now) result tokens.new.rest.now }
{
    let (place, levels) = tokens.open(Word::Substring, levels)?;
    tokens.sign(Sign::LeftParen)?;
    let text = expr(alloc, tokens, levels)?;
    tokens.word(Word::From)?;
    let from = expr(alloc, tokens, levels)?;
    let length = perhaps_length(alloc, tokens, levels)?;
    tokens.sign(Sign::RightParen)?;
    Ok(Boxed::new(
        alloc,
        Expr::Substring {
            place,
            text,
            from,
            length,
        },
    )?)
}

/// `(LEADING | TRAILING | BOTH) FROM expr ")" | expr ")"`
#[cycle(expressions)]
#[tactic(auto, using(psm_tree::proofs::Reading::steps), unfolding(psm_tree::specs::ExprGrammar::trimmed, psm_tree::specs::ExprGrammar::sided))]
pub(crate) fn trimmed(
    alloc: Global,
    tokens: &mut Tokens,
    levels: u32,
) -> Result<(Side, Boxed<Expr>), Halt>
    ensures { Takes (reading levels trimmed_part tokens.old.rest.now) result tokens.new.rest.now }
{
    if tokens.at_two(&TRIM_SIDES, Word::From) {
        let side = trim_side(tokens)?;
        tokens.word(Word::From)?;
        let text = expr(alloc, tokens, levels)?;
        tokens.sign(Sign::RightParen)?;
        return Ok((side, text));
    }
    let text = expr(alloc, tokens, levels)?;
    tokens.sign(Sign::RightParen)?;
    Ok((Side::Both, text))
}

/// `TRIM "(" trimmed` (ISO/IEC 9075:1992, 6.7).
#[cycle(expressions)]
#[tactic(auto, using(psm_tree::proofs::Reading::steps), unfolding(psm_tree::specs::ExprGrammar::trim_rest))]
pub(crate) fn trim(alloc: Global, tokens: &mut Tokens, levels: u32) -> Result<Boxed<Expr>, Halt>
    ensures { Takes (reading levels (level TrimRest (word_test TrimWord) trim_of) tokens.old.rest.now) result tokens.new.rest.now }
{
    let (place, levels) = tokens.open(Word::Trim, levels)?;
    tokens.sign(Sign::LeftParen)?;
    let (side, text) = trimmed(alloc, tokens, levels)?;
    Ok(Boxed::new(alloc, Expr::Trim { place, side, text })?)
}

/// `(CHAR_LENGTH | CHARACTER_LENGTH | UPPER | LOWER) "(" expr ")"`: a function of one text (ISO/IEC 9075:1992, 6.6
/// and 6.7).
#[cycle(expressions)]
#[tactic(auto, using(psm_tree::proofs::Reading::steps), unfolding(psm_tree::specs::ExprGrammar::function_rest))]
pub(crate) fn function(alloc: Global, tokens: &mut Tokens, levels: u32) -> Result<Boxed<Expr>, Halt>
    ensures { Takes (reading levels (level FunctionRest text_function_test function_of) tokens.old.rest.now) result tokens.new.rest.now }
{
    let (place, function, levels) = open_text_function(tokens, levels)?;
    tokens.sign(Sign::LeftParen)?;
    let argument = expr(alloc, tokens, levels)?;
    tokens.sign(Sign::RightParen)?;
    Ok(Boxed::new(
        alloc,
        Expr::Function {
            place,
            function,
            argument,
        },
    )?)
}

/// What begins with a word of its own.
#[cycle(expressions)]
#[tactic(auto, using(psm_tree::proofs::Reading::steps), unfolding(psm_tree::specs::ExprGrammar::worded_primary))]
pub(crate) fn worded_primary(
    alloc: Global,
    tokens: &mut Tokens,
    levels: u32,
) -> Result<Boxed<Expr>, Halt>
    ensures { Takes (reading levels worded_primary_part tokens.old.rest.now) result tokens.new.rest.now }
{
    if tokens.at(Word::Exists) {
        return exists(alloc, tokens, levels);
    }
    if tokens.at(Word::Case) {
        return case(alloc, tokens, levels);
    }
    if tokens.at(Word::Cast) {
        return cast(alloc, tokens, levels);
    }
    if tokens.at(Word::Coalesce) {
        return coalesce(alloc, tokens, levels);
    }
    if tokens.at(Word::NullIf) {
        return nullif(alloc, tokens, levels);
    }
    if tokens.at(Word::Position) {
        return position(alloc, tokens, levels);
    }
    if tokens.at(Word::Substring) {
        return substring(alloc, tokens, levels);
    }
    if tokens.at(Word::Trim) {
        return trim(alloc, tokens, levels);
    }
    function(alloc, tokens, levels)
}
