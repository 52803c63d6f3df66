//! Parts of statements.
ghost use Rattle.psm_grammar.specs.Forms.{optional};
ghost use Rattle.psm_tree.specs.Readers.{Takes, TakesAs, reading};
ghost use Rattle.psm_tree.specs.StatementGrammar.{state_text as state_text_part, state as state_part, direction as direction_part, column_order as column_order_part, next_column_order as next_column_order_part, next_column_orders as next_column_orders_part, column_orders as column_orders_part, order as order_part, current as current_part};

use psm_grammar::Halt;
use psm_list::{List, OneOrMore};
use psm_parse_token::Tokens;
use psm_text::Text;
use psm_token::{Place, Sign, Word};
use psm_tree::{Order, OrderColumn, State, Where};
use std::alloc::Global;

/// `[VALUE] text`
#[tactic(auto, using(psm_tree::proofs::Reading::steps), unfolding(psm_tree::specs::StatementGrammar::state_text))]
fn state_text(alloc: Global, tokens: &mut Tokens, levels: u32) -> Result<(Place, Text), Halt>
    ensures { TakesAs (λ x. record { place = x.0; value = x.1 }) (reading levels state_text_part tokens.old.rest.now) result tokens.new.rest.now }
{
    if tokens.at(Word::Value) {
        tokens.word(Word::Value)?;
        return tokens.text(alloc);
    }
    tokens.text(alloc)
}

/// `SQLSTATE [VALUE] text` (ISO/IEC 9075-4:1996, SQLSTATE values)
#[tactic(auto, using(psm_tree::proofs::Reading::steps), unfolding(psm_tree::specs::StatementGrammar::state))]
pub(crate) fn state(alloc: Global, tokens: &mut Tokens, levels: u32) -> Result<State, Halt>
    ensures { Takes (reading levels state_part tokens.old.rest.now) result tokens.new.rest.now }
{
    let place = tokens.word(Word::SqlState)?;
    let (at, text) = state_text(alloc, tokens, levels)?;
    Ok(State { place, at, text })
}

/// `[ASC | DESC]`, and whether it is DESC.
#[tactic(auto, using(psm_tree::proofs::Reading::steps), unfolding(psm_tree::specs::StatementGrammar::direction))]
fn direction(tokens: &mut Tokens, levels: u32) -> Result<bool, Halt>
    ensures { Takes (reading levels direction_part tokens.old.rest.now) result tokens.new.rest.now }
{
    if tokens.at(Word::Desc) {
        tokens.word(Word::Desc)?;
        return Ok(true);
    }
    if tokens.at(Word::Asc) {
        tokens.word(Word::Asc)?;
        return Ok(false);
    }
    Ok(false)
}

/// `name [ASC | DESC]`
#[tactic(auto, using(psm_tree::proofs::Reading::steps), unfolding(psm_tree::specs::StatementGrammar::column_order))]
fn column_order(alloc: Global, tokens: &mut Tokens, levels: u32) -> Result<OrderColumn, Halt>
    ensures { Takes (reading levels column_order_part tokens.old.rest.now) result tokens.new.rest.now }
{
    let column = tokens.name(alloc)?;
    let descending = direction(tokens, levels)?;
    Ok(OrderColumn { column, descending })
}

/// `"," name [ASC | DESC]`
#[tactic(auto, using(psm_tree::proofs::Reading::steps), unfolding(psm_tree::specs::StatementGrammar::next_column_order))]
fn next_column_order(alloc: Global, tokens: &mut Tokens, levels: u32) -> Result<OrderColumn, Halt>
    ensures { Takes (reading levels next_column_order_part tokens.old.rest.now) result tokens.new.rest.now }
{
    tokens.sign(Sign::Comma)?;
    column_order(alloc, tokens, levels)
}

/// `{"," name [ASC | DESC]}`
#[tactic(auto, using(psm_tree::proofs::Repeating::turns, psm_tree::proofs::Firsts::first_next_column_order), unfolding(psm_tree::specs::StatementGrammar::next_column_orders))]
fn next_column_orders(
    alloc: Global,
    tokens: &mut Tokens,
    levels: u32,
) -> Result<List<OrderColumn>, Halt>
    ensures { Takes (reading levels next_column_orders_part tokens.old.rest.now) result tokens.new.rest.now }
{
    let mut columns = Vec::new(alloc);
    for _turn in 0..tokens.left() {
        if !tokens.at_sign(Sign::Comma) {
            break;
        }
        let column = next_column_order(alloc, tokens, levels)?;
        columns.push(column)?;
    }
    Ok(List::of(columns))
}

/// `name [ASC | DESC] {"," name [ASC | DESC]}`
#[tactic(auto, using(psm_tree::proofs::Reading::steps), unfolding(psm_tree::specs::StatementGrammar::column_orders))]
fn column_orders(
    alloc: Global,
    tokens: &mut Tokens,
    levels: u32,
) -> Result<OneOrMore<OrderColumn>, Halt>
    ensures { Takes (reading levels column_orders_part tokens.old.rest.now) result tokens.new.rest.now }
{
    let first = column_order(alloc, tokens, levels)?;
    let rest = next_column_orders(alloc, tokens, levels)?;
    Ok(OneOrMore::of(first, rest))
}

/// `ORDER BY name [ASC | DESC] {"," name [ASC | DESC]}` (ISO/IEC 9075:1992, 13.1)
#[tactic(auto, using(psm_tree::proofs::Reading::steps), unfolding(psm_tree::specs::StatementGrammar::order))]
fn order(alloc: Global, tokens: &mut Tokens, levels: u32) -> Result<Order, Halt>
    ensures { Takes (reading levels order_part tokens.old.rest.now) result tokens.new.rest.now }
{
    let place = tokens.word(Word::Order)?;
    tokens.word(Word::By)?;
    let columns = column_orders(alloc, tokens, levels)?;
    Ok(Order { place, columns })
}

/// `[order]`
#[tactic(auto, using(psm_tree::proofs::Reading::steps, psm_tree::proofs::Firsts::first_order))]
pub(crate) fn perhaps_order(
    alloc: Global,
    tokens: &mut Tokens,
    levels: u32,
) -> Result<Option<Order>, Halt>
    ensures { Takes (reading levels (optional order_part) tokens.old.rest.now) result tokens.new.rest.now }
{
    if !tokens.at(Word::Order) {
        return Ok(None);
    }
    Ok(Some(order(alloc, tokens, levels)?))
}

/// `CURRENT OF name`
#[tactic(auto, using(psm_tree::proofs::Reading::steps), unfolding(psm_tree::specs::StatementGrammar::current))]
pub(crate) fn current(alloc: Global, tokens: &mut Tokens, levels: u32) -> Result<Where, Halt>
    ensures { Takes (reading levels current_part tokens.old.rest.now) result tokens.new.rest.now }
{
    tokens.word(Word::Current)?;
    tokens.word(Word::Of)?;
    let cursor = tokens.name(alloc)?;
    Ok(Where::Current { cursor })
}
