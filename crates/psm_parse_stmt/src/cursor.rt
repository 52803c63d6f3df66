//! Statements about cursors.
ghost use Rattle.psm_tree.specs.Readers.{Takes, reading};
ghost use Rattle.psm_tree.specs.StatementGrammar.{into_targets as into_targets_part, open_statement as open_statement_part, fetched as fetched_part, fetch_from as fetch_from_part, fetch_rest as fetch_rest_part, fetch_statement as fetch_statement_part, close_statement as close_statement_part};

use psm_grammar::Halt;
use psm_list::Boxed;
use psm_parse_token::{Tokens, targets};
use psm_token::Word;
use psm_tree::{Identifier, Simple, Targets};
use std::alloc::Global;

const NEXT_WORDS: [Word; 1] = [Word::Next];

/// `INTO targets`
#[tactic(auto, using(psm_tree::proofs::Reading::steps), unfolding(psm_tree::specs::StatementGrammar::into_targets))]
pub(crate) fn into_targets(
    alloc: Global,
    tokens: &mut Tokens,
    levels: u32,
) -> Result<Boxed<Targets>, Halt>
    ensures { Takes (reading levels into_targets_part tokens.old.rest.now) result tokens.new.rest.now }
{
    tokens.word(Word::Into)?;
    targets(alloc, tokens, levels)
}

/// `OPEN name` (ISO/IEC 9075:1992, 13.2)
#[tactic(auto, using(psm_tree::proofs::Reading::steps), unfolding(psm_tree::specs::StatementGrammar::open_statement))]
pub(crate) fn open_statement(
    alloc: Global,
    tokens: &mut Tokens,
    levels: u32,
) -> Result<Boxed<Simple>, Halt>
    ensures { Takes (reading levels open_statement_part tokens.old.rest.now) result tokens.new.rest.now }
{
    let place = tokens.word(Word::Open)?;
    let cursor = tokens.name(alloc)?;
    Ok(Boxed::new(alloc, Simple::Open { place, cursor })?)
}

/// `name INTO targets`
#[tactic(auto, using(psm_tree::proofs::Reading::steps), unfolding(psm_tree::specs::StatementGrammar::fetched))]
fn fetched(
    alloc: Global,
    tokens: &mut Tokens,
    levels: u32,
) -> Result<(Identifier, Boxed<Targets>), Halt>
    ensures { Takes (reading levels fetched_part tokens.old.rest.now) result tokens.new.rest.now }
{
    let cursor = tokens.name(alloc)?;
    let targets = into_targets(alloc, tokens, levels)?;
    Ok((cursor, targets))
}

/// `FROM name INTO targets`
#[tactic(auto, using(psm_tree::proofs::Reading::steps), unfolding(psm_tree::specs::StatementGrammar::fetch_from))]
fn fetch_from(
    alloc: Global,
    tokens: &mut Tokens,
    levels: u32,
) -> Result<(Identifier, Boxed<Targets>), Halt>
    ensures { Takes (reading levels fetch_from_part tokens.old.rest.now) result tokens.new.rest.now }
{
    tokens.word(Word::From)?;
    fetched(alloc, tokens, levels)
}

/// `[[NEXT] FROM] name INTO targets`, where NEXT before another word than FROM is the name of a cursor.
#[tactic(auto, using(psm_tree::proofs::Reading::steps, psm_tree::proofs::Firsts::first_fetch_from), unfolding(psm_tree::specs::StatementGrammar::fetch_rest))]
fn fetch_rest(
    alloc: Global,
    tokens: &mut Tokens,
    levels: u32,
) -> Result<(Identifier, Boxed<Targets>), Halt>
    ensures { Takes (reading levels fetch_rest_part tokens.old.rest.now) result tokens.new.rest.now }
{
    if tokens.at(Word::From) {
        return fetch_from(alloc, tokens, levels);
    }
    if tokens.at_two(&NEXT_WORDS, Word::From) {
        tokens.word(Word::Next)?;
        return fetch_from(alloc, tokens, levels);
    }
    fetched(alloc, tokens, levels)
}

/// `FETCH [[NEXT] FROM] name INTO targets` (ISO/IEC 9075:1992, 13.3)
#[tactic(auto, using(psm_tree::proofs::Reading::steps), unfolding(psm_tree::specs::StatementGrammar::fetch_statement))]
pub(crate) fn fetch_statement(
    alloc: Global,
    tokens: &mut Tokens,
    levels: u32,
) -> Result<Boxed<Simple>, Halt>
    ensures { Takes (reading levels fetch_statement_part tokens.old.rest.now) result tokens.new.rest.now }
{
    let place = tokens.word(Word::Fetch)?;
    let (cursor, targets) = fetch_rest(alloc, tokens, levels)?;
    let fetch = Simple::Fetch {
        place,
        cursor,
        targets,
    };
    Ok(Boxed::new(alloc, fetch)?)
}

/// `CLOSE name` (ISO/IEC 9075:1992, 13.4)
#[tactic(auto, using(psm_tree::proofs::Reading::steps), unfolding(psm_tree::specs::StatementGrammar::close_statement))]
pub(crate) fn close_statement(
    alloc: Global,
    tokens: &mut Tokens,
    levels: u32,
) -> Result<Boxed<Simple>, Halt>
    ensures { Takes (reading levels close_statement_part tokens.old.rest.now) result tokens.new.rest.now }
{
    let place = tokens.word(Word::Close)?;
    let cursor = tokens.name(alloc)?;
    Ok(Boxed::new(alloc, Simple::Close { place, cursor })?)
}
