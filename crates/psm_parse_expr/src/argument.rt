//! Sources, and the arguments of calls (ISO/IEC 9075-4:1996, routine invocation).
ghost use Rattle.std.specs.Prelude.{◌≡◌, ◌∷◌, IfOk};
ghost use Rattle.psm_tree.specs.ExprGrammar.{source as source_part, next_source as next_source_part, next_sources as next_sources_part, sources as sources_part, arguments as arguments_part};
ghost use Rattle.psm_tree.specs.Readers.{Takes, reading};

use crate::condition::expr;
use psm_grammar::Halt;
use psm_list::{Boxed, List, OneOrMore};
use psm_parse_token::Tokens;
use psm_token::{Sign, Word};
use psm_tree::Expr;
use std::alloc::{AllocError, Global};

/// `NULL | expr`
#[cycle(expressions)]
#[tactic(auto, using(psm_tree::proofs::Reading::steps), unfolding(psm_tree::specs::ExprGrammar::source))]
pub fn source(alloc: Global, tokens: &mut Tokens, levels: u32) -> Result<Boxed<Expr>, Halt>
    ensures { Takes (reading levels source_part tokens.old.rest.now) result tokens.new.rest.now }
{
    if !tokens.at(Word::Null) {
        return expr(alloc, tokens, levels);
    }
    let place = tokens.word(Word::Null)?;
    Ok(Boxed::new(alloc, Expr::Null { place })?)
}

/// `"," source`
#[cycle(expressions)]
#[tactic(auto, using(psm_tree::proofs::Reading::steps), unfolding(psm_tree::specs::ExprGrammar::next_source))]
pub(crate) fn next_source(
    alloc: Global,
    tokens: &mut Tokens,
    levels: u32,
) -> Result<Boxed<Expr>, Halt>
    ensures { Takes (reading levels next_source_part tokens.old.rest.now) result tokens.new.rest.now }
{
    tokens.sign(Sign::Comma)?;
    source(alloc, tokens, levels)
}

/// `{"," source}`
#[cycle(expressions)]
#[tactic(auto, using(psm_tree::proofs::Repeating::turns, psm_tree::proofs::Firsts::first_next_source), unfolding(psm_tree::specs::ExprGrammar::next_sources))]
pub(crate) fn next_sources(
    alloc: Global,
    tokens: &mut Tokens,
    levels: u32,
) -> Result<List<Boxed<Expr>>, Halt>
    ensures { Takes (reading levels next_sources_part tokens.old.rest.now) result tokens.new.rest.now }
{
    let mut sources = Vec::new(alloc);
    for _turn in 0..tokens.left() {
        if !tokens.at_sign(Sign::Comma) {
            break;
        }
        let source = next_source(alloc, tokens, levels)?;
        sources.push(source)?;
    }
    Ok(List::of(sources))
}

/// `source {"," source}`
#[cycle(expressions)]
#[tactic(auto, using(psm_tree::proofs::Reading::steps), unfolding(psm_tree::specs::ExprGrammar::sources))]
pub fn sources(
    alloc: Global,
    tokens: &mut Tokens,
    levels: u32,
) -> Result<OneOrMore<Boxed<Expr>>, Halt>
    ensures { Takes (reading levels sources_part tokens.old.rest.now) result tokens.new.rest.now }
{
    let first = source(alloc, tokens, levels)?;
    let rest = next_sources(alloc, tokens, levels)?;
    Ok(OneOrMore::of(first, rest))
}

/// `[source {"," source}] ")"`: the arguments of a call after their opening parenthesis, at their own level.
#[cycle(expressions)]
#[tactic(auto, using(psm_tree::proofs::Reading::steps), unfolding(psm_tree::specs::ExprGrammar::arguments, psm_tree::specs::ExprGrammar::argument_list))]
pub fn arguments(alloc: Global, tokens: &mut Tokens, levels: u32) -> Result<List<Boxed<Expr>>, Halt>
    ensures { Takes (reading levels arguments_part tokens.old.rest.now) result tokens.new.rest.now }
{
    if tokens.at_sign(Sign::RightParen) {
        tokens.sign(Sign::RightParen)?;
        return Ok(List::of(Vec::new(alloc)));
    }
    let first = source(alloc, tokens, levels)?;
    let rest = next_sources(alloc, tokens, levels)?;
    tokens.sign(Sign::RightParen)?;
    Ok(in_front(first, rest)?)
}

/// The list of an item and those after it.
fn in_front(first: Boxed<Expr>, rest: List<Boxed<Expr>>) -> Result<List<Boxed<Expr>>, AllocError>
    ensures { IfOk result (λ l. l ≡ first ∷ rest) }
{
    let mut items = rest.into_vec();
    items.insert(0, first)?;
    Ok(List::of(items))
}
