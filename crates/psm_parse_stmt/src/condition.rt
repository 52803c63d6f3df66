//! Conditions, queries and the rows that a statement changes.
ghost use Rattle.psm_grammar.specs.Forms.{optional};
ghost use Rattle.psm_tree.specs.Readers.{Takes, reading};
ghost use Rattle.psm_tree.specs.StatementGrammar.{ordered_select as ordered_select_part, message as message_part, state_signalled as state_signalled_part, name_signalled as name_signalled_part, signalled as signalled_part, resignalled as resignalled_part, which_rows as which_rows_part, where_part};

use crate::parts::{current, perhaps_order, state};
use psm_grammar::Halt;
use psm_list::Boxed;
use psm_parse_expr::{expr, select};
use psm_parse_token::Tokens;
use psm_token::{Sign, Word};
use psm_tree::{Condition, Expr, OrderedQuery, Signalled, Where};
use std::alloc::Global;

/// A query and its ORDER BY, where it has one: `select [order]` (ISO/IEC 9075:1992, 13.1).
///
/// # Errors
/// `Syntax` and `Deep` with the number of tokens that are left at the fault; `Memory`.
#[tactic(auto, using(psm_tree::proofs::Reading::steps), unfolding(psm_tree::specs::StatementGrammar::ordered_select))]
pub fn ordered_select(alloc: Global, tokens: &mut Tokens, levels: u32) -> Result<OrderedQuery, Halt>
    ensures { Takes (reading levels ordered_select_part tokens.old.rest.now) result tokens.new.rest.now }
{
    let query = select(alloc, tokens, levels)?;
    let order = perhaps_order(alloc, tokens, levels)?;
    Ok(OrderedQuery { query, order })
}

/// `SET MESSAGE_TEXT "=" expr`
#[tactic(auto, using(psm_tree::proofs::Reading::steps), unfolding(psm_tree::specs::StatementGrammar::message))]
fn message(alloc: Global, tokens: &mut Tokens, levels: u32) -> Result<Boxed<Expr>, Halt>
    ensures { Takes (reading levels message_part tokens.old.rest.now) result tokens.new.rest.now }
{
    tokens.word(Word::Set)?;
    tokens.word(Word::MessageText)?;
    tokens.sign(Sign::Equal)?;
    expr(alloc, tokens, levels)
}

/// `[SET MESSAGE_TEXT "=" expr]`
#[tactic(auto, using(psm_tree::proofs::Reading::steps, psm_tree::proofs::Firsts::first_message))]
fn perhaps_message(
    alloc: Global,
    tokens: &mut Tokens,
    levels: u32,
) -> Result<Option<Boxed<Expr>>, Halt>
    ensures { Takes (reading levels (optional message_part) tokens.old.rest.now) result tokens.new.rest.now }
{
    if !tokens.at(Word::Set) {
        return Ok(None);
    }
    Ok(Some(message(alloc, tokens, levels)?))
}

/// `state [SET MESSAGE_TEXT "=" expr]`
#[tactic(auto, using(psm_tree::proofs::Reading::steps), unfolding(psm_tree::specs::StatementGrammar::state_signalled))]
fn state_signalled(
    alloc: Global,
    tokens: &mut Tokens,
    levels: u32,
) -> Result<Boxed<Signalled>, Halt>
    ensures { Takes (reading levels state_signalled_part tokens.old.rest.now) result tokens.new.rest.now }
{
    let state = state(alloc, tokens, levels)?;
    let message = perhaps_message(alloc, tokens, levels)?;
    let condition = Condition::State(state);
    Ok(Boxed::new(alloc, Signalled { condition, message })?)
}

/// `name [SET MESSAGE_TEXT "=" expr]`
#[tactic(auto, using(psm_tree::proofs::Reading::steps), unfolding(psm_tree::specs::StatementGrammar::name_signalled))]
fn name_signalled(alloc: Global, tokens: &mut Tokens, levels: u32) -> Result<Boxed<Signalled>, Halt>
    ensures { Takes (reading levels name_signalled_part tokens.old.rest.now) result tokens.new.rest.now }
{
    let name = tokens.name(alloc)?;
    let message = perhaps_message(alloc, tokens, levels)?;
    let condition = Condition::Name(name);
    Ok(Boxed::new(alloc, Signalled { condition, message })?)
}

/// `(state | name) [SET MESSAGE_TEXT "=" expr]`, of SIGNAL (ISO/IEC 9075-4:1996, signal statement).
#[tactic(auto, using(psm_tree::proofs::Reading::steps, psm_tree::proofs::Firsts::first_state_signalled), unfolding(psm_tree::specs::StatementGrammar::signalled))]
pub(crate) fn signalled(
    alloc: Global,
    tokens: &mut Tokens,
    levels: u32,
) -> Result<Boxed<Signalled>, Halt>
    ensures { Takes (reading levels signalled_part tokens.old.rest.now) result tokens.new.rest.now }
{
    if tokens.at(Word::SqlState) {
        return state_signalled(alloc, tokens, levels);
    }
    name_signalled(alloc, tokens, levels)
}

/// `[(state | name) [SET MESSAGE_TEXT "=" expr]]`, of RESIGNAL (ISO/IEC 9075-4:1996, resignal statement).
#[tactic(auto, using(psm_tree::proofs::Reading::steps, psm_tree::proofs::Firsts::first_state_signalled, psm_tree::proofs::Firsts::first_name_signalled), unfolding(psm_tree::specs::StatementGrammar::resignalled))]
pub(crate) fn resignalled(
    alloc: Global,
    tokens: &mut Tokens,
    levels: u32,
) -> Result<Option<Boxed<Signalled>>, Halt>
    ensures { Takes (reading levels resignalled_part tokens.old.rest.now) result tokens.new.rest.now }
{
    if tokens.at(Word::SqlState) {
        return Ok(Some(state_signalled(alloc, tokens, levels)?));
    }
    if tokens.at_name() {
        return Ok(Some(name_signalled(alloc, tokens, levels)?));
    }
    Ok(None)
}

/// `CURRENT OF name | expr`
#[tactic(auto, using(psm_tree::proofs::Reading::steps, psm_tree::proofs::Firsts::first_current), unfolding(psm_tree::specs::StatementGrammar::which_rows))]
fn which_rows(alloc: Global, tokens: &mut Tokens, levels: u32) -> Result<Where, Halt>
    ensures { Takes (reading levels which_rows_part tokens.old.rest.now) result tokens.new.rest.now }
{
    if tokens.at(Word::Current) {
        return current(alloc, tokens, levels);
    }
    Ok(Where::Condition(expr(alloc, tokens, levels)?))
}

/// `WHERE (CURRENT OF name | expr)`
#[tactic(auto, using(psm_tree::proofs::Reading::steps), unfolding(psm_tree::specs::StatementGrammar::where_part))]
fn where_rows(alloc: Global, tokens: &mut Tokens, levels: u32) -> Result<Where, Halt>
    ensures { Takes (reading levels where_part tokens.old.rest.now) result tokens.new.rest.now }
{
    tokens.word(Word::Where)?;
    which_rows(alloc, tokens, levels)
}

/// `[WHERE (CURRENT OF name | expr)]`
#[tactic(auto, using(psm_tree::proofs::Reading::steps, psm_tree::proofs::Firsts::first_where_part))]
pub(crate) fn perhaps_where(
    alloc: Global,
    tokens: &mut Tokens,
    levels: u32,
) -> Result<Option<Where>, Halt>
    ensures { Takes (reading levels (optional where_part) tokens.old.rest.now) result tokens.new.rest.now }
{
    if !tokens.at(Word::Where) {
        return Ok(None);
    }
    Ok(Some(where_rows(alloc, tokens, levels)?))
}
