//! The declarations of a block (ISO/IEC 9075-4:1996, compound statement).
ghost use Rattle.psm_tree.specs.Readers.{Takes, TakesAs, reading};
ghost use Rattle.psm_tree.specs.StatementGrammar.{handler_rest as handler_rest_part};
ghost use Rattle.psm_parse_stmt.specs.Declaring.{TakesHeads, declaration_item, declared_item, handler_item, phase_of};

use crate::declaration::{handler_values, open_handler};
use crate::item::{Heads, Item, Stage};
use crate::named::{named, named_cursor};
use crate::statements::statement;
use psm_grammar::Halt;
use psm_list::{Boxed, OneOrMore};
use psm_parse_token::Tokens;
use psm_token::{Place, Sign, Word};
use psm_tree::{Handler, HandlerValue, Statement};
use std::alloc::Global;

/// The kinds of handlers.
const HANDLER_WORDS: [Word; 3] = [Word::Continue, Word::Exit, Word::Undo];

/// The declarations of a block: variables and conditions, then cursors, then handlers.
#[cycle(statements)]
#[tactic(auto, using(crate::proofs::Declaring::declaring))]
pub(crate) fn declarations(alloc: Global, tokens: &mut Tokens, levels: u32) -> Result<Heads, Halt>
    ensures { TakesHeads levels tokens.old.rest.now result tokens.new.rest.now }
{
    let mut heads = Heads {
        declarations: Vec::new(alloc),
        cursors: Vec::new(alloc),
        handlers: Vec::new(alloc),
    };
    let mut stage = Stage::Declarations;
    for _turn in 0..tokens.left() {
        if !tokens.at(Word::Declare) {
            break;
        }
        let item = declaration(alloc, tokens, levels, stage)?;
        stage = item.stage_after();
        heads.add(item)?;
    }
    Ok(heads)
}

/// `DECLARE`, what is declared and `";"`.
#[cycle(statements)]
#[tactic(auto, using(psm_tree::proofs::Reading::steps), unfolding(crate::specs::Declaring::declaration_item))]
fn declaration(alloc: Global, tokens: &mut Tokens, levels: u32, stage: Stage) -> Result<Item, Halt>
    ensures { Takes (declaration_item (phase_of stage) levels tokens.old.rest.now) result tokens.new.rest.now }
{
    let place = tokens.word(Word::Declare)?;
    let item = declared(alloc, place, tokens, levels, stage)?;
    tokens.sign(Sign::Semicolon)?;
    Ok(item)
}

/// What stands after DECLARE: at the last stage a handler alone.
#[cycle(statements)]
#[tactic(auto, using(psm_tree::proofs::Reading::steps), unfolding(crate::specs::Declaring::declared_item))]
fn declared(
    alloc: Global,
    place: Place,
    tokens: &mut Tokens,
    levels: u32,
    stage: Stage,
) -> Result<Item, Halt>
    ensures { Takes (reading levels (declared_item place (phase_of stage)) tokens.old.rest.now) result tokens.new.rest.now }
{
    match stage {
        Stage::Declarations => {
            if tokens.at_one_of(&HANDLER_WORDS) {
                return handler(alloc, place, tokens, levels);
            }
            named(alloc, place, tokens, levels)
        }
        Stage::Cursors => {
            if tokens.at_one_of(&HANDLER_WORDS) {
                return handler(alloc, place, tokens, levels);
            }
            named_cursor(alloc, place, tokens, levels)
        }
        Stage::Handlers => handler(alloc, place, tokens, levels),
    }
}

/// `(CONTINUE | EXIT | UNDO) HANDLER FOR value {"," value} statement`
#[cycle(statements)]
#[tactic(auto, using(psm_tree::proofs::Reading::steps))]
fn handler(alloc: Global, place: Place, tokens: &mut Tokens, levels: u32) -> Result<Item, Halt>
    ensures { Takes (reading levels (handler_item place) tokens.old.rest.now) result tokens.new.rest.now }
{
    let ((at, kind), levels) = open_handler(tokens, levels)?;
    let (values, action) = handler_rest(alloc, tokens, levels)?;
    let handler = Handler {
        place,
        at,
        kind,
        values,
        action,
    };
    Ok(Item::Handler(Boxed::new(alloc, handler)?))
}

/// `HANDLER FOR value {"," value} statement`
#[cycle(statements)]
#[tactic(auto, using(psm_tree::proofs::Reading::steps), unfolding(psm_tree::specs::StatementGrammar::handler_rest))]
fn handler_rest(
    alloc: Global,
    tokens: &mut Tokens,
    levels: u32,
) -> Result<(OneOrMore<HandlerValue>, Boxed<Statement>), Halt>
    ensures { TakesAs (λ x. record { values = x.0; action = x.1 }) (reading levels handler_rest_part tokens.old.rest.now) result tokens.new.rest.now }
{
    tokens.word(Word::Handler)?;
    tokens.word(Word::For)?;
    let values = handler_values(alloc, tokens, levels)?;
    let action = statement(alloc, tokens, levels)?;
    Ok((values, action))
}
