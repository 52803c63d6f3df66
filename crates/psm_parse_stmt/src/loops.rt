//! LOOP, WHILE, REPEAT and FOR (ISO/IEC 9075-4:1996, loop, while, repeat and for statements).
ghost use Rattle.psm_tree.specs.Readers.{Takes, TakesAs, reading};
ghost use Rattle.psm_tree.specs.StatementGrammar.{loop_rest as loop_rest_part, while_body as while_body_part, while_rest as while_rest_part, until as until_part, repeat_rest as repeat_rest_part, for_body as for_body_part, for_rest as for_rest_part};
ghost use Rattle.psm_parse_stmt.specs.Levels.{loop_block as loop_block_part, while_block as while_block_part, repeat_block as repeat_block_part, for_block as for_block_part};

use crate::condition::ordered_select;
use crate::declaration::perhaps_for_cursor;
use crate::statements::statements;
use psm_grammar::Halt;
use psm_list::{Boxed, OneOrMore};
use psm_parse_expr::expr;
use psm_parse_token::Tokens;
use psm_token::Word;
use psm_tree::{Block, Expr, ForHead, Statement};
use std::alloc::Global;

/// `statements END LOOP`
#[cycle(statements)]
#[tactic(auto, using(psm_tree::proofs::Reading::steps, psm_parse_token::proofs::Ends::reading_two), unfolding(psm_tree::specs::StatementGrammar::loop_rest))]
fn loop_rest(
    alloc: Global,
    tokens: &mut Tokens,
    levels: u32,
) -> Result<OneOrMore<Boxed<Statement>>, Halt>
    ensures { Takes (reading levels loop_rest_part tokens.old.rest.now) result tokens.new.rest.now }
{
    let statements = statements(alloc, tokens, levels)?;
    tokens.end_of(Word::Loop)?;
    Ok(statements)
}

/// `LOOP statements END LOOP`
#[cycle(statements)]
#[tactic(auto, using(psm_tree::proofs::Reading::steps))]
pub(crate) fn loop_block(
    alloc: Global,
    tokens: &mut Tokens,
    levels: u32,
) -> Result<Boxed<Block>, Halt>
    ensures { Takes (reading levels loop_block_part tokens.old.rest.now) result tokens.new.rest.now }
{
    let (place, levels) = tokens.open(Word::Loop, levels)?;
    let statements = loop_rest(alloc, tokens, levels)?;
    Ok(Boxed::new(alloc, Block::Loop { place, statements })?)
}

/// `DO statements END WHILE`
#[cycle(statements)]
#[tactic(auto, using(psm_tree::proofs::Reading::steps, psm_parse_token::proofs::Ends::reading_two), unfolding(psm_tree::specs::StatementGrammar::while_body))]
fn while_body(
    alloc: Global,
    tokens: &mut Tokens,
    levels: u32,
) -> Result<OneOrMore<Boxed<Statement>>, Halt>
    ensures { Takes (reading levels while_body_part tokens.old.rest.now) result tokens.new.rest.now }
{
    tokens.word(Word::Do)?;
    let statements = statements(alloc, tokens, levels)?;
    tokens.end_of(Word::While)?;
    Ok(statements)
}

/// `expr DO statements END WHILE`
#[cycle(statements)]
#[tactic(auto, using(psm_tree::proofs::Reading::steps), unfolding(psm_tree::specs::StatementGrammar::while_rest))]
fn while_rest(
    alloc: Global,
    tokens: &mut Tokens,
    levels: u32,
) -> Result<(Boxed<Expr>, OneOrMore<Boxed<Statement>>), Halt>
    ensures { Takes (reading levels while_rest_part tokens.old.rest.now) result tokens.new.rest.now }
{
    let test = expr(alloc, tokens, levels)?;
    let statements = while_body(alloc, tokens, levels)?;
    Ok((test, statements))
}

/// `WHILE expr DO statements END WHILE`
#[cycle(statements)]
#[tactic(auto, using(psm_tree::proofs::Reading::steps))]
pub(crate) fn while_block(
    alloc: Global,
    tokens: &mut Tokens,
    levels: u32,
) -> Result<Boxed<Block>, Halt>
    ensures { Takes (reading levels while_block_part tokens.old.rest.now) result tokens.new.rest.now }
{
    let (place, levels) = tokens.open(Word::While, levels)?;
    let (test, statements) = while_rest(alloc, tokens, levels)?;
    let block = Block::While {
        place,
        test,
        statements,
    };
    Ok(Boxed::new(alloc, block)?)
}

/// `UNTIL expr END REPEAT`
#[tactic(auto, using(psm_tree::proofs::Reading::steps, psm_parse_token::proofs::Ends::reading_two), unfolding(psm_tree::specs::StatementGrammar::until))]
fn until(alloc: Global, tokens: &mut Tokens, levels: u32) -> Result<Boxed<Expr>, Halt>
    ensures { Takes (reading levels until_part tokens.old.rest.now) result tokens.new.rest.now }
{
    tokens.word(Word::Until)?;
    let test = expr(alloc, tokens, levels)?;
    tokens.end_of(Word::Repeat)?;
    Ok(test)
}

/// `statements UNTIL expr END REPEAT`
#[cycle(statements)]
#[tactic(auto, using(psm_tree::proofs::Reading::steps), unfolding(psm_tree::specs::StatementGrammar::repeat_rest))]
fn repeat_rest(
    alloc: Global,
    tokens: &mut Tokens,
    levels: u32,
) -> Result<(OneOrMore<Boxed<Statement>>, Boxed<Expr>), Halt>
    ensures { Takes (reading levels repeat_rest_part tokens.old.rest.now) result tokens.new.rest.now }
{
    let statements = statements(alloc, tokens, levels)?;
    let until = until(alloc, tokens, levels)?;
    Ok((statements, until))
}

/// `REPEAT statements UNTIL expr END REPEAT`
#[cycle(statements)]
#[tactic(auto, using(psm_tree::proofs::Reading::steps))]
pub(crate) fn repeat_block(
    alloc: Global,
    tokens: &mut Tokens,
    levels: u32,
) -> Result<Boxed<Block>, Halt>
    ensures { Takes (reading levels repeat_block_part tokens.old.rest.now) result tokens.new.rest.now }
{
    let (place, levels) = tokens.open(Word::Repeat, levels)?;
    let (statements, until) = repeat_rest(alloc, tokens, levels)?;
    let block = Block::Repeat {
        place,
        statements,
        until,
    };
    Ok(Boxed::new(alloc, block)?)
}

/// `DO statements END FOR`
#[cycle(statements)]
#[tactic(auto, using(psm_tree::proofs::Reading::steps, psm_parse_token::proofs::Ends::reading_two), unfolding(psm_tree::specs::StatementGrammar::for_body))]
fn for_body(
    alloc: Global,
    tokens: &mut Tokens,
    levels: u32,
) -> Result<OneOrMore<Boxed<Statement>>, Halt>
    ensures { Takes (reading levels for_body_part tokens.old.rest.now) result tokens.new.rest.now }
{
    tokens.word(Word::Do)?;
    let statements = statements(alloc, tokens, levels)?;
    tokens.end_of(Word::For)?;
    Ok(statements)
}

/// `name AS [name [INSENSITIVE] CURSOR FOR] select [order] DO statements END FOR`
#[cycle(statements)]
#[tactic(auto, using(psm_tree::proofs::Reading::steps), unfolding(psm_tree::specs::StatementGrammar::for_rest))]
fn for_rest(
    alloc: Global,
    tokens: &mut Tokens,
    levels: u32,
) -> Result<(Boxed<ForHead>, OneOrMore<Boxed<Statement>>), Halt>
    ensures { TakesAs (λ x. record { head = x.0; statements = x.1 }) (reading levels for_rest_part tokens.old.rest.now) result tokens.new.rest.now }
{
    let name = tokens.name(alloc)?;
    tokens.word(Word::As)?;
    let cursor = perhaps_for_cursor(alloc, tokens, levels)?;
    let query = ordered_select(alloc, tokens, levels)?;
    let head = ForHead {
        name,
        cursor,
        query,
    };
    let head = Boxed::new(alloc, head)?;
    let statements = for_body(alloc, tokens, levels)?;
    Ok((head, statements))
}

/// `FOR name AS [name [INSENSITIVE] CURSOR FOR] select [order] DO statements END FOR`
#[cycle(statements)]
#[tactic(auto, using(psm_tree::proofs::Reading::steps))]
pub(crate) fn for_block(
    alloc: Global,
    tokens: &mut Tokens,
    levels: u32,
) -> Result<Boxed<Block>, Halt>
    ensures { Takes (reading levels for_block_part tokens.old.rest.now) result tokens.new.rest.now }
{
    let (place, levels) = tokens.open(Word::For, levels)?;
    let (head, statements) = for_rest(alloc, tokens, levels)?;
    let block = Block::For {
        place,
        head,
        statements,
    };
    Ok(Boxed::new(alloc, block)?)
}
