//! Names, targets, and lists of them (ISO/IEC 9075:1992, 5.4 and 6.2).
ghost use Rattle.psm_tree.specs.ExprGrammar.{second_name as second_name_part, target as target_part, next_name as next_name_part, next_names as next_names_part, names as names_part, names_in_parens as names_in_parens_part, next_target as next_target_part, next_targets as next_targets_part, targets as targets_part};
ghost use Rattle.psm_tree.specs.Readers.{Takes, reading};
ghost use Rattle.psm_grammar.specs.Forms.{optional};

use crate::cursor::Tokens;
use psm_grammar::Halt;
use psm_list::{Boxed, List, OneOrMore};
use psm_token::Sign;
use psm_tree::{Identifier, Names, Target, Targets};
use std::alloc::Global;

/// `"." name`
#[tactic(auto, using(psm_tree::proofs::Reading::steps), unfolding(psm_tree::specs::ExprGrammar::second_name))]
pub fn second_name(alloc: Global, tokens: &mut Tokens, levels: u32) -> Result<Identifier, Halt>
    ensures { Takes (reading levels second_name_part tokens.old.rest.now) result tokens.new.rest.now }
{
    tokens.sign(Sign::Period)?;
    tokens.name(alloc)
}

/// `["." name]`
#[tactic(auto, using(psm_tree::proofs::Reading::steps, psm_tree::proofs::Firsts::expr_firsts))]
fn perhaps_second(
    alloc: Global,
    tokens: &mut Tokens,
    levels: u32,
) -> Result<Option<Identifier>, Halt>
    ensures { Takes (reading levels (optional second_name_part) tokens.old.rest.now) result tokens.new.rest.now }
{
    if tokens.at_sign(Sign::Period) {
        return Ok(Some(second_name(alloc, tokens, levels)?));
    }
    Ok(None)
}

/// `name ["." name]`
#[tactic(auto, using(psm_tree::proofs::Reading::steps), unfolding(psm_tree::specs::ExprGrammar::target))]
pub fn target(alloc: Global, tokens: &mut Tokens, levels: u32) -> Result<Target, Halt>
    ensures { Takes (reading levels target_part tokens.old.rest.now) result tokens.new.rest.now }
{
    let first = tokens.name(alloc)?;
    let second = perhaps_second(alloc, tokens, levels)?;
    Ok(Target { first, second })
}

/// `"," name`
#[tactic(auto, using(psm_tree::proofs::Reading::steps), unfolding(psm_tree::specs::ExprGrammar::next_name))]
fn next_name(alloc: Global, tokens: &mut Tokens, levels: u32) -> Result<Identifier, Halt>
    ensures { Takes (reading levels next_name_part tokens.old.rest.now) result tokens.new.rest.now }
{
    tokens.sign(Sign::Comma)?;
    tokens.name(alloc)
}

/// `{"," name}`
#[tactic(auto, using(psm_tree::proofs::Repeating::turns, psm_tree::proofs::Firsts::first_next_name), unfolding(psm_tree::specs::ExprGrammar::next_names))]
pub fn next_names(alloc: Global, tokens: &mut Tokens, levels: u32) -> Result<List<Identifier>, Halt>
    ensures { Takes (reading levels next_names_part tokens.old.rest.now) result tokens.new.rest.now }
{
    let mut names = Vec::new(alloc);
    for _turn in 0..tokens.left() {
        if !tokens.at_sign(Sign::Comma) {
            break;
        }
        let name = next_name(alloc, tokens, levels)?;
        names.push(name)?;
    }
    Ok(List::of(names))
}

/// `name {"," name}`
#[tactic(auto, using(psm_tree::proofs::Reading::steps), unfolding(psm_tree::specs::ExprGrammar::names))]
fn names(alloc: Global, tokens: &mut Tokens, levels: u32) -> Result<Names, Halt>
    ensures { Takes (reading levels names_part tokens.old.rest.now) result tokens.new.rest.now }
{
    let first = tokens.name(alloc)?;
    let rest = next_names(alloc, tokens, levels)?;
    Ok(OneOrMore::of(first, rest))
}

/// `"(" name {"," name} ")"`
#[tactic(auto, using(psm_tree::proofs::Reading::steps), unfolding(psm_tree::specs::ExprGrammar::names_in_parens))]
pub fn names_in_parens(alloc: Global, tokens: &mut Tokens, levels: u32) -> Result<Names, Halt>
    ensures { Takes (reading levels names_in_parens_part tokens.old.rest.now) result tokens.new.rest.now }
{
    tokens.sign(Sign::LeftParen)?;
    let names = names(alloc, tokens, levels)?;
    tokens.sign(Sign::RightParen)?;
    Ok(names)
}

/// `["(" name {"," name} ")"]`
#[tactic(auto, using(psm_tree::proofs::Reading::steps, psm_tree::proofs::Firsts::expr_firsts))]
pub fn perhaps_names(
    alloc: Global,
    tokens: &mut Tokens,
    levels: u32,
) -> Result<Option<Boxed<Names>>, Halt>
    ensures { Takes (reading levels (optional names_in_parens_part) tokens.old.rest.now) result tokens.new.rest.now }
{
    if tokens.at_sign(Sign::LeftParen) {
        let names = names_in_parens(alloc, tokens, levels)?;
        return Ok(Some(Boxed::new(alloc, names)?));
    }
    Ok(None)
}

/// `"," target`
#[tactic(auto, using(psm_tree::proofs::Reading::steps), unfolding(psm_tree::specs::ExprGrammar::next_target))]
fn next_target(alloc: Global, tokens: &mut Tokens, levels: u32) -> Result<Target, Halt>
    ensures { Takes (reading levels next_target_part tokens.old.rest.now) result tokens.new.rest.now }
{
    tokens.sign(Sign::Comma)?;
    target(alloc, tokens, levels)
}

/// `{"," target}`
#[tactic(auto, using(psm_tree::proofs::Repeating::turns, psm_tree::proofs::Firsts::first_next_target), unfolding(psm_tree::specs::ExprGrammar::next_targets))]
fn next_targets(alloc: Global, tokens: &mut Tokens, levels: u32) -> Result<List<Target>, Halt>
    ensures { Takes (reading levels next_targets_part tokens.old.rest.now) result tokens.new.rest.now }
{
    let mut targets = Vec::new(alloc);
    for _turn in 0..tokens.left() {
        if !tokens.at_sign(Sign::Comma) {
            break;
        }
        let target = next_target(alloc, tokens, levels)?;
        targets.push(target)?;
    }
    Ok(List::of(targets))
}

/// `target {"," target}`
#[tactic(auto, using(psm_tree::proofs::Reading::steps), unfolding(psm_tree::specs::ExprGrammar::targets))]
pub fn targets(alloc: Global, tokens: &mut Tokens, levels: u32) -> Result<Boxed<Targets>, Halt>
    ensures { Takes (reading levels targets_part tokens.old.rest.now) result tokens.new.rest.now }
{
    let first = target(alloc, tokens, levels)?;
    let rest = next_targets(alloc, tokens, levels)?;
    Ok(Boxed::new(alloc, OneOrMore::of(first, rest))?)
}
