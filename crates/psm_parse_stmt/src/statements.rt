//! Statements, and lists of them (ISO/IEC 9075-4:1996).
ghost use Rattle.std.specs.Prelude.{◌≡◌, ◌++◌};
ghost use Rattle.psm_grammar.specs.Readers.{starts};
ghost use Rattle.psm_token.specs.Kinds.{kind, kinds_of};
ghost use Rattle.psm_tree.specs.FirstWords.{statement_words};
ghost use Rattle.psm_tree.specs.Readers.{Takes, reading};
ghost use Rattle.psm_tree.specs.StatementGrammar.{labelled_block as labelled_block_part, labelled_statement as labelled_statement_part, statement as statement_part, ended_statement as ended_statement_part, ended_statements as ended_statements_part, statements as statements_part};
ghost use Rattle.psm_tree.specs.Tests.{name_kinds};
ghost use Rattle.psm_parse_stmt.specs.Levels.{unlabelled_block as unlabelled_block_part};

use crate::branch::{case_statement, if_statement};
use crate::compound::block;
use crate::label::end_label;
use crate::simple::simple_statement;
use psm_grammar::Halt;
use psm_list::{Boxed, List, OneOrMore};
use psm_parse_token::Tokens;
use psm_token::{Sign, Word};
use psm_tree::{Block, Identifier, Label, Statement};
use std::alloc::Global;

/// The words that a block begins with.
const BLOCK_WORDS: [Word; 5] = [
    Word::Begin,
    Word::Loop,
    Word::While,
    Word::Repeat,
    Word::For,
];

/// The words that a statement begins with, where it has no label.
const STATEMENT_WORDS: [Word; 22] = [
    Word::If,
    Word::Case,
    Word::Begin,
    Word::Loop,
    Word::While,
    Word::Repeat,
    Word::For,
    Word::Set,
    Word::Call,
    Word::Return,
    Word::Leave,
    Word::Iterate,
    Word::Signal,
    Word::Resignal,
    Word::Get,
    Word::Select,
    Word::Insert,
    Word::Update,
    Word::Delete,
    Word::Open,
    Word::Fetch,
    Word::Close,
];

/// Whether a statement stands at the front.
fn at_statement(tokens: &Tokens) -> bool
    ensures { result ≡ starts kind (name_kinds ++ kinds_of statement_words) tokens.now.rest.now }
{
    tokens.at_name() || tokens.at_one_of(&STATEMENT_WORDS)
}

/// A statement.
///
/// # Errors
/// `Syntax` and `Deep` with the number of tokens that are left at the fault; `Memory`.
#[cycle(statements)]
#[tactic(auto, using(psm_tree::proofs::Reading::steps, psm_tree::proofs::Firsts::first_labelled_statement, psm_tree::proofs::Firsts::first_if_statement, psm_tree::proofs::Firsts::first_case_statement, psm_tree::proofs::Firsts::first_block), unfolding(psm_tree::specs::StatementGrammar::statement))]
pub fn statement(alloc: Global, tokens: &mut Tokens, levels: u32) -> Result<Boxed<Statement>, Halt>
    ensures { Takes (reading levels statement_part tokens.old.rest.now) result tokens.new.rest.now }
{
    if tokens.at_name() {
        return labelled_statement(alloc, tokens, levels);
    }
    if tokens.at(Word::If) {
        return if_statement(alloc, tokens, levels);
    }
    if tokens.at(Word::Case) {
        return case_statement(alloc, tokens, levels);
    }
    if tokens.at_one_of(&BLOCK_WORDS) {
        return unlabelled_statement(alloc, tokens, levels);
    }
    let simple = simple_statement(alloc, tokens, levels)?;
    Ok(Boxed::new(alloc, Statement::Simple(simple))?)
}

/// A block that has no label.
#[cycle(statements)]
#[tactic(auto, using(psm_tree::proofs::Reading::steps))]
fn unlabelled_statement(
    alloc: Global,
    tokens: &mut Tokens,
    levels: u32,
) -> Result<Boxed<Statement>, Halt>
    ensures { Takes (reading levels unlabelled_block_part tokens.old.rest.now) result tokens.new.rest.now }
{
    let block = block(alloc, tokens, levels)?;
    Ok(Boxed::new(alloc, Statement::Block { label: None, block })?)
}

/// `":" block [name]`, after the label.
#[cycle(statements)]
#[tactic(auto, using(psm_tree::proofs::Reading::steps), unfolding(psm_tree::specs::StatementGrammar::labelled_block))]
fn labelled_block(
    alloc: Global,
    tokens: &mut Tokens,
    levels: u32,
) -> Result<(Boxed<Block>, Option<Identifier>), Halt>
    ensures { Takes (reading levels labelled_block_part tokens.old.rest.now) result tokens.new.rest.now }
{
    tokens.sign(Sign::Colon)?;
    let block = block(alloc, tokens, levels)?;
    let end = end_label(alloc, tokens, levels)?;
    Ok((block, end))
}

/// `name ":" block [name]`
#[cycle(statements)]
#[tactic(auto, using(psm_tree::proofs::Reading::steps), unfolding(psm_tree::specs::StatementGrammar::labelled_statement))]
fn labelled_statement(
    alloc: Global,
    tokens: &mut Tokens,
    levels: u32,
) -> Result<Boxed<Statement>, Halt>
    ensures { Takes (reading levels labelled_statement_part tokens.old.rest.now) result tokens.new.rest.now }
{
    let start = tokens.name(alloc)?;
    let (block, end) = labelled_block(alloc, tokens, levels)?;
    let label = Some(Label { start, end });
    Ok(Boxed::new(alloc, Statement::Block { label, block })?)
}

/// `statement ";"`
#[cycle(statements)]
#[tactic(auto, using(psm_tree::proofs::Reading::steps), unfolding(psm_tree::specs::StatementGrammar::ended_statement))]
fn ended_statement(
    alloc: Global,
    tokens: &mut Tokens,
    levels: u32,
) -> Result<Boxed<Statement>, Halt>
    ensures { Takes (reading levels ended_statement_part tokens.old.rest.now) result tokens.new.rest.now }
{
    let statement = statement(alloc, tokens, levels)?;
    tokens.sign(Sign::Semicolon)?;
    Ok(statement)
}

/// `{statement ";"}`
#[cycle(statements)]
#[tactic(auto, using(psm_tree::proofs::Repeating::turns, psm_tree::proofs::Firsts::first_ended_statement), unfolding(psm_tree::specs::StatementGrammar::ended_statements))]
pub(crate) fn ended_statements(
    alloc: Global,
    tokens: &mut Tokens,
    levels: u32,
) -> Result<List<Boxed<Statement>>, Halt>
    ensures { Takes (reading levels ended_statements_part tokens.old.rest.now) result tokens.new.rest.now }
{
    let mut statements = Vec::new(alloc);
    for _turn in 0..tokens.left() {
        if !at_statement(tokens) {
            break;
        }
        let statement = ended_statement(alloc, tokens, levels)?;
        statements.push(statement)?;
    }
    Ok(List::of(statements))
}

/// `statement ";" {statement ";"}`
#[cycle(statements)]
#[tactic(auto, using(psm_tree::proofs::Reading::steps), unfolding(psm_tree::specs::StatementGrammar::statements))]
pub(crate) fn statements(
    alloc: Global,
    tokens: &mut Tokens,
    levels: u32,
) -> Result<OneOrMore<Boxed<Statement>>, Halt>
    ensures { Takes (reading levels statements_part tokens.old.rest.now) result tokens.new.rest.now }
{
    let first = ended_statement(alloc, tokens, levels)?;
    let rest = ended_statements(alloc, tokens, levels)?;
    Ok(OneOrMore::of(first, rest))
}
