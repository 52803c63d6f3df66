//! Values: sums, terms and factors (ISO/IEC 9075:1992, 6.11 to 6.13).
ghost use Rattle.std.specs.Prelude.{◌≡◌, IfOk};
ghost use Rattle.psm_tree.specs.ExprGrammar.{factor as factor_part, next_factor as next_factor_part, next_factors as next_factors_part, term as term_part, next_term as next_term_part, next_terms as next_terms_part, sum as sum_part};
ghost use Rattle.psm_tree.specs.ExprValues.{operator_chain_of};
ghost use Rattle.psm_tree.specs.Readers.{Takes, reading};

use crate::operator::{sum_operator, term_operator};
use crate::primary::primary;
use psm_grammar::Halt;
use psm_list::{Boxed, List};
use psm_parse_token::{Tokens, plus_minus};
use psm_token::Sign;
use psm_tree::{ChainLink, Expr};
use std::alloc::{AllocError, Global};

const PLUS_MINUS: [Sign; 2] = [Sign::Plus, Sign::Minus];

const TERM_OPERATORS: [Sign; 2] = [Sign::Asterisk, Sign::Solidus];

const SUM_OPERATORS: [Sign; 3] = [Sign::Plus, Sign::Minus, Sign::Concatenation];

/// `["+" | "-"] primary`
#[cycle(expressions)]
#[tactic(auto, using(psm_tree::proofs::Reading::steps), unfolding(psm_tree::specs::ExprGrammar::factor))]
pub(crate) fn factor(alloc: Global, tokens: &mut Tokens, levels: u32) -> Result<Boxed<Expr>, Halt>
    ensures { Takes (reading levels factor_part tokens.old.rest.now) result tokens.new.rest.now }
{
    if !tokens.at_one_sign_of(&PLUS_MINUS) {
        return primary(alloc, tokens, levels);
    }
    let (place, sign) = plus_minus(tokens)?;
    let operand = primary(alloc, tokens, levels)?;
    Ok(Boxed::new(
        alloc,
        Expr::Signed {
            place,
            sign,
            operand,
        },
    )?)
}

/// `("*" | "/") factor`
#[cycle(expressions)]
#[tactic(auto, using(psm_tree::proofs::Reading::steps), unfolding(psm_tree::specs::ExprGrammar::next_factor))]
pub(crate) fn next_factor(
    alloc: Global,
    tokens: &mut Tokens,
    levels: u32,
) -> Result<ChainLink, Halt>
    ensures { Takes (reading levels next_factor_part tokens.old.rest.now) result tokens.new.rest.now }
{
    let operator = term_operator(tokens)?;
    let operand = factor(alloc, tokens, levels)?;
    Ok(ChainLink { operator, operand })
}

/// `{("*" | "/") factor}`
#[cycle(expressions)]
#[tactic(auto, using(psm_tree::proofs::Repeating::turns, psm_tree::proofs::Firsts::first_next_factor), unfolding(psm_tree::specs::ExprGrammar::next_factors))]
pub(crate) fn next_factors(
    alloc: Global,
    tokens: &mut Tokens,
    levels: u32,
) -> Result<List<ChainLink>, Halt>
    ensures { Takes (reading levels next_factors_part tokens.old.rest.now) result tokens.new.rest.now }
{
    let mut chain_links = Vec::new(alloc);
    for _turn in 0..tokens.left() {
        if !tokens.at_one_sign_of(&TERM_OPERATORS) {
            break;
        }
        let chain_link = next_factor(alloc, tokens, levels)?;
        chain_links.push(chain_link)?;
    }
    Ok(List::of(chain_links))
}

/// `factor {("*" | "/") factor}`
#[cycle(expressions)]
#[tactic(auto, using(psm_tree::proofs::Reading::steps), unfolding(psm_tree::specs::ExprGrammar::term))]
pub(crate) fn term(alloc: Global, tokens: &mut Tokens, levels: u32) -> Result<Boxed<Expr>, Halt>
    ensures { Takes (reading levels term_part tokens.old.rest.now) result tokens.new.rest.now }
{
    let first = factor(alloc, tokens, levels)?;
    let chain_links = next_factors(alloc, tokens, levels)?;
    Ok(chained(alloc, first, chain_links)?)
}

/// `("+" | "-" | "||") term`
#[cycle(expressions)]
#[tactic(auto, using(psm_tree::proofs::Reading::steps), unfolding(psm_tree::specs::ExprGrammar::next_term))]
pub(crate) fn next_term(alloc: Global, tokens: &mut Tokens, levels: u32) -> Result<ChainLink, Halt>
    ensures { Takes (reading levels next_term_part tokens.old.rest.now) result tokens.new.rest.now }
{
    let operator = sum_operator(tokens)?;
    let operand = term(alloc, tokens, levels)?;
    Ok(ChainLink { operator, operand })
}

/// `{("+" | "-" | "||") term}`
#[cycle(expressions)]
#[tactic(auto, using(psm_tree::proofs::Repeating::turns, psm_tree::proofs::Firsts::first_next_term), unfolding(psm_tree::specs::ExprGrammar::next_terms))]
pub(crate) fn next_terms(
    alloc: Global,
    tokens: &mut Tokens,
    levels: u32,
) -> Result<List<ChainLink>, Halt>
    ensures { Takes (reading levels next_terms_part tokens.old.rest.now) result tokens.new.rest.now }
{
    let mut chain_links = Vec::new(alloc);
    for _turn in 0..tokens.left() {
        if !tokens.at_one_sign_of(&SUM_OPERATORS) {
            break;
        }
        let chain_link = next_term(alloc, tokens, levels)?;
        chain_links.push(chain_link)?;
    }
    Ok(List::of(chain_links))
}

/// `term {("+" | "-" | "||") term}`
#[cycle(expressions)]
#[tactic(auto, using(psm_tree::proofs::Reading::steps), unfolding(psm_tree::specs::ExprGrammar::sum))]
pub(crate) fn sum(alloc: Global, tokens: &mut Tokens, levels: u32) -> Result<Boxed<Expr>, Halt>
    ensures { Takes (reading levels sum_part tokens.old.rest.now) result tokens.new.rest.now }
{
    let first = term(alloc, tokens, levels)?;
    let chain_links = next_terms(alloc, tokens, levels)?;
    Ok(chained(alloc, first, chain_links)?)
}

/// Operands with operators of one level between them; a lone one is itself.
#[tactic(auto, using(crate::proofs::Built::operator_chain_some))]
fn chained(
    alloc: Global,
    first: Boxed<Expr>,
    chain_links: List<ChainLink>,
) -> Result<Boxed<Expr>, AllocError>
    ensures { IfOk result (λ e. e ≡ operator_chain_of first chain_links) }
{
    if chain_links.items().is_empty() {
        return Ok(first);
    }
    Boxed::new(alloc, Expr::OperatorChain { first, chain_links })
}
