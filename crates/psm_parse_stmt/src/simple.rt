//! Statements that have no statements (ISO/IEC 9075-4:1996, control statements; ISO/IEC 9075:1992, clause 13).
ghost use Rattle.psm_tree.specs.Readers.{Takes, reading};
ghost use Rattle.psm_tree.specs.StatementGrammar.{set_statement as set_statement_part, call_statement as call_statement_part, return_statement as return_statement_part, signal_statement as signal_statement_part, resignal_statement as resignal_statement_part, simple as simple_part};

use crate::condition::{resignalled, signalled};
use crate::data::data_statement;
use crate::diagnostics::diagnostics_statement;
use crate::label::{iterate_statement, leave_statement};
use psm_grammar::Halt;
use psm_list::Boxed;
use psm_parse_expr::{arguments, source};
use psm_parse_token::{Tokens, target};
use psm_token::{Sign, Word};
use psm_tree::Simple;
use std::alloc::Global;

/// `SET target "=" source` (ISO/IEC 9075-4:1996, assignment statement)
#[tactic(auto, using(psm_tree::proofs::Reading::steps), unfolding(psm_tree::specs::StatementGrammar::set_statement))]
fn set_statement(alloc: Global, tokens: &mut Tokens, levels: u32) -> Result<Boxed<Simple>, Halt>
    ensures { Takes (reading levels set_statement_part tokens.old.rest.now) result tokens.new.rest.now }
{
    let place = tokens.word(Word::Set)?;
    let target = target(alloc, tokens, levels)?;
    tokens.sign(Sign::Equal)?;
    let source = source(alloc, tokens, levels)?;
    let set = Simple::Set {
        place,
        target,
        source,
    };
    Ok(Boxed::new(alloc, set)?)
}

/// `CALL name "(" [source {"," source}] ")"`
#[tactic(auto, using(psm_tree::proofs::Reading::steps), unfolding(psm_tree::specs::StatementGrammar::call_statement))]
fn call_statement(alloc: Global, tokens: &mut Tokens, levels: u32) -> Result<Boxed<Simple>, Halt>
    ensures { Takes (reading levels call_statement_part tokens.old.rest.now) result tokens.new.rest.now }
{
    let place = tokens.word(Word::Call)?;
    let procedure = tokens.name(alloc)?;
    tokens.sign(Sign::LeftParen)?;
    let arguments = arguments(alloc, tokens, levels)?;
    let call = Simple::Call {
        place,
        procedure,
        arguments,
    };
    Ok(Boxed::new(alloc, call)?)
}

/// `RETURN source`
#[tactic(auto, using(psm_tree::proofs::Reading::steps), unfolding(psm_tree::specs::StatementGrammar::return_statement))]
fn return_statement(alloc: Global, tokens: &mut Tokens, levels: u32) -> Result<Boxed<Simple>, Halt>
    ensures { Takes (reading levels return_statement_part tokens.old.rest.now) result tokens.new.rest.now }
{
    let place = tokens.word(Word::Return)?;
    let source = source(alloc, tokens, levels)?;
    Ok(Boxed::new(alloc, Simple::Return { place, source })?)
}

/// `SIGNAL (state | name) [SET MESSAGE_TEXT "=" expr]`
#[tactic(auto, using(psm_tree::proofs::Reading::steps), unfolding(psm_tree::specs::StatementGrammar::signal_statement))]
fn signal_statement(alloc: Global, tokens: &mut Tokens, levels: u32) -> Result<Boxed<Simple>, Halt>
    ensures { Takes (reading levels signal_statement_part tokens.old.rest.now) result tokens.new.rest.now }
{
    let place = tokens.word(Word::Signal)?;
    let signalled = signalled(alloc, tokens, levels)?;
    Ok(Boxed::new(alloc, Simple::Signal { place, signalled })?)
}

/// `RESIGNAL [(state | name) [SET MESSAGE_TEXT "=" expr]]`
#[tactic(auto, using(psm_tree::proofs::Reading::steps), unfolding(psm_tree::specs::StatementGrammar::resignal_statement))]
fn resignal_statement(
    alloc: Global,
    tokens: &mut Tokens,
    levels: u32,
) -> Result<Boxed<Simple>, Halt>
    ensures { Takes (reading levels resignal_statement_part tokens.old.rest.now) result tokens.new.rest.now }
{
    let place = tokens.word(Word::Resignal)?;
    let signalled = resignalled(alloc, tokens, levels)?;
    Ok(Boxed::new(alloc, Simple::Resignal { place, signalled })?)
}

/// A statement that has no statements.
#[tactic(auto, using(psm_tree::proofs::Reading::steps, psm_tree::proofs::Firsts::first_set_statement, psm_tree::proofs::Firsts::first_call_statement, psm_tree::proofs::Firsts::first_return_statement, psm_tree::proofs::Firsts::first_leave_statement, psm_tree::proofs::Firsts::first_iterate_statement, psm_tree::proofs::Firsts::first_signal_statement, psm_tree::proofs::Firsts::first_resignal_statement, psm_tree::proofs::Firsts::first_diagnostics_statement), unfolding(psm_tree::specs::StatementGrammar::simple))]
pub(crate) fn simple_statement(
    alloc: Global,
    tokens: &mut Tokens,
    levels: u32,
) -> Result<Boxed<Simple>, Halt>
    ensures { Takes (reading levels simple_part tokens.old.rest.now) result tokens.new.rest.now }
{
    if tokens.at(Word::Set) {
        return set_statement(alloc, tokens, levels);
    }
    if tokens.at(Word::Call) {
        return call_statement(alloc, tokens, levels);
    }
    if tokens.at(Word::Return) {
        return return_statement(alloc, tokens, levels);
    }
    if tokens.at(Word::Leave) {
        return leave_statement(alloc, tokens, levels);
    }
    if tokens.at(Word::Iterate) {
        return iterate_statement(alloc, tokens, levels);
    }
    if tokens.at(Word::Signal) {
        return signal_statement(alloc, tokens, levels);
    }
    if tokens.at(Word::Resignal) {
        return resignal_statement(alloc, tokens, levels);
    }
    if tokens.at(Word::Get) {
        return diagnostics_statement(alloc, tokens, levels);
    }
    data_statement(alloc, tokens, levels)
}
