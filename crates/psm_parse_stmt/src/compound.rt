//! Blocks, and what stands in a compound statement (ISO/IEC 9075-4:1996, compound statement).
ghost use Rattle.psm_tree.specs.Parts.{Declarations};
ghost use Rattle.psm_tree.specs.Readers.{Takes, TakesAs, reading};
ghost use Rattle.psm_tree.specs.StatementGrammar.{block as block_part, begin_rest as begin_rest_part, body_rest};
ghost use Rattle.psm_parse_stmt.specs.Declaring.{heads_body, statements_end as statements_end_part};
ghost use Rattle.psm_parse_stmt.specs.Levels.{compound_block as compound_block_part};

use crate::declaration::atomic;
use crate::declare::declarations;
use crate::item::Heads;
use crate::loops::{for_block, loop_block, repeat_block, while_block};
use crate::statements::ended_statements;
use psm_grammar::Halt;
use psm_list::{Boxed, List};
use psm_parse_token::Tokens;
use psm_token::Word;
use psm_tree::{Block, Statement};
use std::alloc::Global;

/// The declarations of a block, and its statements.
type Body = (Heads, List<Boxed<Statement>>);

/// `BEGIN .. | LOOP .. | WHILE .. | REPEAT .. | FOR ..`
#[cycle(statements)]
#[tactic(auto, using(psm_tree::proofs::Reading::steps), unfolding(psm_tree::specs::StatementGrammar::block))]
pub(crate) fn block(alloc: Global, tokens: &mut Tokens, levels: u32) -> Result<Boxed<Block>, Halt>
    ensures { Takes (reading levels block_part tokens.old.rest.now) result tokens.new.rest.now }
{
    if tokens.at(Word::Begin) {
        return compound_block(alloc, tokens, levels);
    }
    if tokens.at(Word::Loop) {
        return loop_block(alloc, tokens, levels);
    }
    if tokens.at(Word::While) {
        return while_block(alloc, tokens, levels);
    }
    if tokens.at(Word::Repeat) {
        return repeat_block(alloc, tokens, levels);
    }
    for_block(alloc, tokens, levels)
}

/// `BEGIN [[NOT] ATOMIC] body`
#[cycle(statements)]
#[tactic(auto, using(psm_tree::proofs::Reading::steps))]
fn compound_block(alloc: Global, tokens: &mut Tokens, levels: u32) -> Result<Boxed<Block>, Halt>
    ensures { Takes (reading levels compound_block_part tokens.old.rest.now) result tokens.new.rest.now }
{
    let (place, levels) = tokens.open(Word::Begin, levels)?;
    let (atomic, (heads, statements)) = begin_rest(alloc, tokens, levels)?;
    let Heads {
        declarations,
        cursors,
        handlers,
    } = heads;
    let compound = Block::Compound {
        place,
        atomic,
        declarations: List::of(declarations),
        cursors: List::of(cursors),
        handlers: List::of(handlers),
        statements,
    };
    Ok(Boxed::new(alloc, compound)?)
}

/// `[[NOT] ATOMIC] body`, and whether it is ATOMIC.
#[cycle(statements)]
#[tactic(auto, using(psm_tree::proofs::Reading::steps), unfolding(psm_tree::specs::StatementGrammar::begin_rest))]
fn begin_rest(alloc: Global, tokens: &mut Tokens, levels: u32) -> Result<(bool, Body), Halt>
    ensures { TakesAs (λ x. (x.0, heads_body x.1.0 x.1.1)) (reading levels begin_rest_part tokens.old.rest.now) result tokens.new.rest.now }
{
    let atomic = atomic(tokens, levels)?;
    let body = body(alloc, tokens, levels)?;
    Ok((atomic, body))
}

/// The declarations and statements of a block, and END.
#[cycle(statements)]
fn body(alloc: Global, tokens: &mut Tokens, levels: u32) -> Result<Body, Halt>
    ensures { TakesAs (λ x. heads_body x.0 x.1) (reading levels (body_rest Declarations) tokens.old.rest.now) result tokens.new.rest.now }
{
    let heads = declarations(alloc, tokens, levels)?;
    let statements = statements_end(alloc, tokens, levels)?;
    Ok((heads, statements))
}

/// `{statement ";"} END`
#[cycle(statements)]
#[tactic(auto, using(psm_tree::proofs::Reading::steps))]
fn statements_end(
    alloc: Global,
    tokens: &mut Tokens,
    levels: u32,
) -> Result<List<Boxed<Statement>>, Halt>
    ensures { Takes (reading levels statements_end_part tokens.old.rest.now) result tokens.new.rest.now }
{
    let statements = ended_statements(alloc, tokens, levels)?;
    tokens.word(Word::End)?;
    Ok(statements)
}
