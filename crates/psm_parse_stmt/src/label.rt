//! Labels, and statements about them (ISO/IEC 9075-4:1996, leave and iterate statements).
ghost use Rattle.psm_grammar.specs.Forms.{optional};
ghost use Rattle.psm_grammar.specs.Grammar.{token};
ghost use Rattle.psm_tree.specs.Readers.{Takes, reading};
ghost use Rattle.psm_tree.specs.StatementGrammar.{leave_statement as leave_statement_part, iterate_statement as iterate_statement_part};
ghost use Rattle.psm_tree.specs.Tests.{name as name_test};

use psm_grammar::Halt;
use psm_list::Boxed;
use psm_parse_token::Tokens;
use psm_token::Word;
use psm_tree::{Identifier, Simple};
use std::alloc::Global;

/// `LEAVE name`
#[tactic(auto, using(psm_tree::proofs::Reading::steps), unfolding(psm_tree::specs::StatementGrammar::leave_statement))]
pub(crate) fn leave_statement(
    alloc: Global,
    tokens: &mut Tokens,
    levels: u32,
) -> Result<Boxed<Simple>, Halt>
    ensures { Takes (reading levels leave_statement_part tokens.old.rest.now) result tokens.new.rest.now }
{
    let place = tokens.word(Word::Leave)?;
    let label = tokens.name(alloc)?;
    Ok(Boxed::new(alloc, Simple::Leave { place, label })?)
}

/// `ITERATE name`
#[tactic(auto, using(psm_tree::proofs::Reading::steps), unfolding(psm_tree::specs::StatementGrammar::iterate_statement))]
pub(crate) fn iterate_statement(
    alloc: Global,
    tokens: &mut Tokens,
    levels: u32,
) -> Result<Boxed<Simple>, Halt>
    ensures { Takes (reading levels iterate_statement_part tokens.old.rest.now) result tokens.new.rest.now }
{
    let place = tokens.word(Word::Iterate)?;
    let label = tokens.name(alloc)?;
    Ok(Boxed::new(alloc, Simple::Iterate { place, label })?)
}

/// `[name]`, the label after END.
#[tactic(auto, using(psm_tree::proofs::Reading::steps))]
pub(crate) fn end_label(
    alloc: Global,
    tokens: &mut Tokens,
    levels: u32,
) -> Result<Option<Identifier>, Halt>
    ensures { Takes (reading levels (optional (token name_test)) tokens.old.rest.now) result tokens.new.rest.now }
{
    if !tokens.at_name() {
        return Ok(None);
    }
    Ok(Some(tokens.name(alloc)?))
}
