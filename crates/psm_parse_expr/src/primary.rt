//! What stands in an expression without an operator around it (ISO/IEC 9075:1992, 6.2 to 6.11).
ghost use Rattle.psm_grammar.specs.Grammar.{level};
ghost use Rattle.psm_token.specs.declared.sign.Sign.TheVariants.{LeftParen};
ghost use Rattle.psm_tree.specs.ExprGrammar.{named_primary as named_primary_part, primary as primary_part};
ghost use Rattle.psm_tree.specs.ExprValues.{enclosed_of};
ghost use Rattle.psm_tree.specs.Parts.{Enclosed};
ghost use Rattle.psm_tree.specs.Readers.{Takes, reading};
ghost use Rattle.psm_tree.specs.Tests.{sign as sign_test};

use crate::argument::arguments;
use crate::condition::expr;
use crate::function::worded_primary;
use crate::query::select;
use psm_grammar::Halt;
use psm_list::Boxed;
use psm_parse_token::{Tokens, second_name};
use psm_token::{Sign, Word};
use psm_tree::{Expr, Target};
use std::alloc::Global;

/// `name ["." name | "(" arguments ")"]`: a name, a name of a name, or a call.
#[cycle(expressions)]
#[tactic(auto, using(psm_tree::proofs::Reading::steps, psm_tree::proofs::Firsts::first_second_name), unfolding(psm_tree::specs::ExprGrammar::named_primary, psm_tree::specs::ExprGrammar::name_rest))]
pub(crate) fn named_primary(
    alloc: Global,
    tokens: &mut Tokens,
    levels: u32,
) -> Result<Boxed<Expr>, Halt>
    ensures { Takes (reading levels named_primary_part tokens.old.rest.now) result tokens.new.rest.now }
{
    let first = tokens.name(alloc)?;
    if tokens.at_sign(Sign::Period) {
        let second = Some(second_name(alloc, tokens, levels)?);
        return Ok(Boxed::new(alloc, Expr::Name(Target { first, second }))?);
    }
    if !tokens.at_sign(Sign::LeftParen) {
        let second = None;
        return Ok(Boxed::new(alloc, Expr::Name(Target { first, second }))?);
    }
    let (_, levels) = tokens.open_sign(Sign::LeftParen, levels)?;
    let arguments = arguments(alloc, tokens, levels)?;
    let function = first;
    Ok(Boxed::new(
        alloc,
        Expr::Call {
            function,
            arguments,
        },
    )?)
}

/// `"(" (select | expr) ")"`
#[cycle(expressions)]
#[tactic(auto, using(psm_tree::proofs::Reading::steps, crate::proofs::EnclosedFirst::first_closed_select), unfolding(psm_tree::specs::ExprGrammar::enclosed))]
pub(crate) fn enclosed(alloc: Global, tokens: &mut Tokens, levels: u32) -> Result<Boxed<Expr>, Halt>
    ensures { Takes (reading levels (level Enclosed (sign_test LeftParen) enclosed_of) tokens.old.rest.now) result tokens.new.rest.now }
{
    let (place, levels) = tokens.open_sign(Sign::LeftParen, levels)?;
    if tokens.at(Word::Select) {
        let query = select(alloc, tokens, levels)?;
        tokens.sign(Sign::RightParen)?;
        return Ok(Boxed::new(alloc, Expr::Subquery { place, query })?);
    }
    let expr = expr(alloc, tokens, levels)?;
    tokens.sign(Sign::RightParen)?;
    Ok(Boxed::new(alloc, Expr::Parenthesized { place, expr })?)
}

/// `num | text | named | "(" (select | expr) ")" | worded`
#[cycle(expressions)]
#[tactic(auto, using(psm_tree::proofs::Reading::steps, psm_tree::proofs::Firsts::first_named_primary), unfolding(psm_tree::specs::ExprGrammar::primary))]
pub(crate) fn primary(alloc: Global, tokens: &mut Tokens, levels: u32) -> Result<Boxed<Expr>, Halt>
    ensures { Takes (reading levels primary_part tokens.old.rest.now) result tokens.new.rest.now }
{
    if tokens.at_number() {
        let (place, value) = tokens.number()?;
        return Ok(Boxed::new(alloc, Expr::Number { place, value })?);
    }
    if tokens.at_text() {
        let (place, value) = tokens.text(alloc)?;
        return Ok(Boxed::new(alloc, Expr::Text { place, value })?);
    }
    if tokens.at_name() {
        return named_primary(alloc, tokens, levels);
    }
    if tokens.at_sign(Sign::LeftParen) {
        return enclosed(alloc, tokens, levels);
    }
    worded_primary(alloc, tokens, levels)
}
