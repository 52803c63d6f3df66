//! CASE expressions (ISO/IEC 9075:1992, 6.9).
ghost use Rattle.psm_grammar.specs.Forms.{optional};
ghost use Rattle.psm_grammar.specs.Grammar.{level};
ghost use Rattle.psm_token.specs.declared.word.Word.TheVariants.{Case as CaseWord};
ghost use Rattle.psm_tree.specs.ExprGrammar.{when as when_part, next_whens as next_whens_part, otherwise as otherwise_part, all_whens as all_whens_part, whens as whens_part, case_rest as case_rest_part};
ghost use Rattle.psm_tree.specs.ExprValues.{case_of};
ghost use Rattle.psm_tree.specs.Parts.{CaseRest};
ghost use Rattle.psm_tree.specs.Readers.{Takes, TakesAs, reading};
ghost use Rattle.psm_tree.specs.Tests.{word as word_test};

use crate::argument::source;
use crate::condition::expr;
use psm_grammar::Halt;
use psm_list::{Boxed, List, OneOrMore};
use psm_parse_token::Tokens;
use psm_token::Word;
use psm_tree::{Expr, When};
use std::alloc::Global;

/// `WHEN expr THEN source`
#[cycle(expressions)]
#[tactic(auto, using(psm_tree::proofs::Reading::steps), unfolding(psm_tree::specs::ExprGrammar::when))]
pub(crate) fn when(alloc: Global, tokens: &mut Tokens, levels: u32) -> Result<Boxed<When>, Halt>
    ensures { Takes (reading levels when_part tokens.old.rest.now) result tokens.new.rest.now }
{
    tokens.word(Word::When)?;
    let test = expr(alloc, tokens, levels)?;
    tokens.word(Word::Then)?;
    let result = source(alloc, tokens, levels)?;
    Ok(Boxed::new(alloc, When { test, result })?)
}

/// `{WHEN expr THEN source}`
#[cycle(expressions)]
#[tactic(auto, using(psm_tree::proofs::Repeating::turns, psm_tree::proofs::Firsts::first_when), unfolding(psm_tree::specs::ExprGrammar::next_whens))]
pub(crate) fn next_whens(
    alloc: Global,
    tokens: &mut Tokens,
    levels: u32,
) -> Result<List<Boxed<When>>, Halt>
    ensures { Takes (reading levels next_whens_part tokens.old.rest.now) result tokens.new.rest.now }
{
    let mut whens = Vec::new(alloc);
    for _turn in 0..tokens.left() {
        if !tokens.at(Word::When) {
            break;
        }
        let when = when(alloc, tokens, levels)?;
        whens.push(when)?;
    }
    Ok(List::of(whens))
}

/// `WHEN expr THEN source {WHEN expr THEN source}`
#[cycle(expressions)]
#[tactic(auto, using(psm_tree::proofs::Reading::steps), unfolding(psm_tree::specs::ExprGrammar::all_whens))]
pub(crate) fn all_whens(
    alloc: Global,
    tokens: &mut Tokens,
    levels: u32,
) -> Result<OneOrMore<Boxed<When>>, Halt>
    ensures { Takes (reading levels all_whens_part tokens.old.rest.now) result tokens.new.rest.now }
{
    let first = when(alloc, tokens, levels)?;
    let rest = next_whens(alloc, tokens, levels)?;
    Ok(OneOrMore::of(first, rest))
}

/// `[ELSE source]`
#[cycle(expressions)]
#[tactic(auto, using(psm_tree::proofs::Reading::steps, psm_tree::proofs::Firsts::first_otherwise), unfolding(psm_tree::specs::ExprGrammar::otherwise))]
pub(crate) fn perhaps_otherwise(
    alloc: Global,
    tokens: &mut Tokens,
    levels: u32,
) -> Result<Option<Boxed<Expr>>, Halt>
    ensures { Takes (reading levels (optional otherwise_part) tokens.old.rest.now) result tokens.new.rest.now }
{
    if !tokens.at(Word::Else) {
        return Ok(None);
    }
    tokens.word(Word::Else)?;
    Ok(Some(source(alloc, tokens, levels)?))
}

/// `all_whens [ELSE source] END`
#[cycle(expressions)]
#[tactic(auto, using(psm_tree::proofs::Reading::steps), unfolding(psm_tree::specs::ExprGrammar::whens))]
pub(crate) fn whens(
    alloc: Global,
    tokens: &mut Tokens,
    levels: u32,
) -> Result<(OneOrMore<Boxed<When>>, Option<Boxed<Expr>>), Halt>
    ensures { TakesAs (λ x. record { whens = x.0; otherwise = x.1 }) (reading levels whens_part tokens.old.rest.now) result tokens.new.rest.now }
{
    let whens = all_whens(alloc, tokens, levels)?;
    let otherwise = perhaps_otherwise(alloc, tokens, levels)?;
    tokens.word(Word::End)?;
    Ok((whens, otherwise))
}

/// `[expr] whens`: the operand, the branches, and what stands after ELSE.
#[cycle(expressions)]
#[tactic(auto, using(psm_tree::proofs::Reading::steps, psm_tree::proofs::Firsts::first_whens), unfolding(psm_tree::specs::ExprGrammar::case_rest))]
pub(crate) fn case_rest(
    alloc: Global,
    tokens: &mut Tokens,
    levels: u32,
) -> Result<
    (
        Option<Boxed<Expr>>,
        OneOrMore<Boxed<When>>,
        Option<Boxed<Expr>>,
    ),
    Halt,
>
    ensures { TakesAs (λ x. record { operand = x.0; whens = x.1; otherwise = x.2 }) (reading levels case_rest_part tokens.old.rest.now) result tokens.new.rest.now }
{
    if tokens.at(Word::When) {
        let (whens, otherwise) = whens(alloc, tokens, levels)?;
        return Ok((None, whens, otherwise));
    }
    let operand = expr(alloc, tokens, levels)?;
    let (whens, otherwise) = whens(alloc, tokens, levels)?;
    Ok((Some(operand), whens, otherwise))
}

/// `CASE [expr] whens`
#[cycle(expressions)]
#[tactic(auto, using(psm_tree::proofs::Reading::steps))]
pub(crate) fn case(alloc: Global, tokens: &mut Tokens, levels: u32) -> Result<Boxed<Expr>, Halt>
    ensures { Takes (reading levels (level CaseRest (word_test CaseWord) case_of) tokens.old.rest.now) result tokens.new.rest.now }
{
    let (place, levels) = tokens.open(Word::Case, levels)?;
    let (operand, whens, otherwise) = case_rest(alloc, tokens, levels)?;
    Ok(Boxed::new(
        alloc,
        Expr::Case {
            place,
            operand,
            whens,
            otherwise,
        },
    )?)
}
