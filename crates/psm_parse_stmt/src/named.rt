//! What stands after DECLARE and a name (ISO/IEC 9075-4:1996, declarations; ISO/IEC 9075:1992, 13.1).
ghost use Rattle.psm_grammar.specs.Forms.{optional};
ghost use Rattle.psm_grammar.specs.Readers.{made};
ghost use Rattle.psm_tree.specs.Parts.{Condition, Cursor, Variables};
ghost use Rattle.psm_tree.specs.Readers.{Takes, TakesAs, reading};
ghost use Rattle.psm_tree.specs.StatementGrammar.{default_source as default_source_part, typed as typed_part, declaration_rest as declaration_rest_part, cursor_rest as cursor_rest_part};
ghost use Rattle.psm_parse_stmt.specs.Declaring.{any_rest as any_rest_part, condition_rest as condition_rest_part, named as named_part, named_item, variables_rest as variables_rest_part};

use crate::condition::ordered_select;
use crate::declaration::{insensitive, other_variables, perhaps_state, perhaps_updatability};
use crate::item::Item;
use psm_grammar::Halt;
use psm_list::{Boxed, List, OneOrMore};
use psm_parse_expr::source;
use psm_parse_token::{Tokens, data_type};
use psm_token::{Place, Sign, Word};
use psm_tree::{
    CursorDeclaration, DataType, Declaration, Expr, Identifier, OrderedQuery, State, Updatability,
};
use std::alloc::Global;

/// The words that stand after the name of a cursor.
const CURSOR_WORDS: [Word; 2] = [Word::Insensitive, Word::Cursor];

/// `DEFAULT source`
#[tactic(auto, using(psm_tree::proofs::Reading::steps), unfolding(psm_tree::specs::StatementGrammar::default_source))]
fn default_source(alloc: Global, tokens: &mut Tokens, levels: u32) -> Result<Boxed<Expr>, Halt>
    ensures { Takes (reading levels default_source_part tokens.old.rest.now) result tokens.new.rest.now }
{
    tokens.word(Word::Default)?;
    source(alloc, tokens, levels)
}

/// `[DEFAULT source]`
#[tactic(auto, using(psm_tree::proofs::Reading::steps, psm_tree::proofs::Firsts::first_default_source))]
fn perhaps_default(
    alloc: Global,
    tokens: &mut Tokens,
    levels: u32,
) -> Result<Option<Boxed<Expr>>, Halt>
    ensures { Takes (reading levels (optional default_source_part) tokens.old.rest.now) result tokens.new.rest.now }
{
    if !tokens.at(Word::Default) {
        return Ok(None);
    }
    Ok(Some(default_source(alloc, tokens, levels)?))
}

/// `type [DEFAULT source]`
#[tactic(auto, using(psm_tree::proofs::Reading::steps), unfolding(psm_tree::specs::StatementGrammar::typed))]
fn typed(
    alloc: Global,
    tokens: &mut Tokens,
    levels: u32,
) -> Result<(DataType, Option<Boxed<Expr>>), Halt>
    ensures { Takes (reading levels typed_part tokens.old.rest.now) result tokens.new.rest.now }
{
    let kind = data_type(tokens, levels)?;
    let default = perhaps_default(alloc, tokens, levels)?;
    Ok((kind, default))
}

/// `{"," name} type [DEFAULT source]`, after the first name.
#[tactic(auto, using(psm_tree::proofs::Reading::steps), unfolding(psm_tree::specs::StatementGrammar::typed, psm_tree::specs::StatementGrammar::other_variables))]
fn variables_rest(
    alloc: Global,
    tokens: &mut Tokens,
    levels: u32,
) -> Result<(List<Identifier>, DataType, Option<Boxed<Expr>>), Halt>
    ensures { TakesAs (λ x. Variables x.0 x.1 x.2) (reading levels variables_rest_part tokens.old.rest.now) result tokens.new.rest.now }
{
    if tokens.at_sign(Sign::Comma) {
        let others = other_variables(alloc, tokens, levels)?;
        let (kind, default) = typed(alloc, tokens, levels)?;
        return Ok((others, kind, default));
    }
    let (kind, default) = typed(alloc, tokens, levels)?;
    Ok((List::of(Vec::new(alloc)), kind, default))
}

/// Variables, after the name of the first of them.
#[tactic(auto, using(psm_tree::proofs::Reading::steps))]
fn variables(
    alloc: Global,
    place: Place,
    name: Identifier,
    tokens: &mut Tokens,
    levels: u32,
) -> Result<Item, Halt>
    ensures { Takes (made (named_item place name) (reading levels variables_rest_part) tokens.old.rest.now) result tokens.new.rest.now }
{
    let (others, kind, default) = variables_rest(alloc, tokens, levels)?;
    let variables = Declaration::Variables {
        place,
        names: OneOrMore::of(name, others),
        kind,
        default,
    };
    Ok(Item::Declaration(Boxed::new(alloc, variables)?))
}

/// `CONDITION [FOR state]`, after its name.
#[tactic(auto, using(psm_tree::proofs::Reading::steps))]
fn condition_rest(alloc: Global, tokens: &mut Tokens, levels: u32) -> Result<Option<State>, Halt>
    ensures { TakesAs (λ x. Condition x) (reading levels condition_rest_part tokens.old.rest.now) result tokens.new.rest.now }
{
    tokens.word(Word::Condition)?;
    perhaps_state(alloc, tokens, levels)
}

/// A condition, after its name.
#[tactic(auto, using(psm_tree::proofs::Reading::steps))]
fn condition(
    alloc: Global,
    place: Place,
    name: Identifier,
    tokens: &mut Tokens,
    levels: u32,
) -> Result<Item, Halt>
    ensures { Takes (made (named_item place name) (reading levels condition_rest_part) tokens.old.rest.now) result tokens.new.rest.now }
{
    let state = condition_rest(alloc, tokens, levels)?;
    let condition = Declaration::Condition { place, name, state };
    Ok(Item::Declaration(Boxed::new(alloc, condition)?))
}

/// What declares variables or a condition, after the first name.
#[tactic(auto, using(psm_tree::proofs::Reading::steps), unfolding(psm_tree::specs::StatementGrammar::declaration_rest))]
fn declaration_rest(
    alloc: Global,
    place: Place,
    name: Identifier,
    tokens: &mut Tokens,
    levels: u32,
) -> Result<Item, Halt>
    ensures { Takes (made (named_item place name) (reading levels declaration_rest_part) tokens.old.rest.now) result tokens.new.rest.now }
{
    if tokens.at(Word::Condition) {
        return condition(alloc, place, name, tokens, levels);
    }
    variables(alloc, place, name, tokens, levels)
}

/// `[INSENSITIVE] CURSOR FOR select [order] [FOR (READ ONLY | UPDATE)]`, after its name.
#[tactic(auto, using(psm_tree::proofs::Reading::steps), unfolding(psm_tree::specs::StatementGrammar::cursor_rest, psm_tree::specs::StatementGrammar::cursor_query))]
fn cursor_rest(
    alloc: Global,
    tokens: &mut Tokens,
    levels: u32,
) -> Result<(bool, OrderedQuery, Option<Updatability>), Halt>
    ensures { TakesAs (λ x. Cursor x.0 x.1 x.2) (reading levels cursor_rest_part tokens.old.rest.now) result tokens.new.rest.now }
{
    let insensitive = insensitive(tokens, levels)?;
    tokens.word(Word::Cursor)?;
    tokens.word(Word::For)?;
    let query = ordered_select(alloc, tokens, levels)?;
    let updatability = perhaps_updatability(tokens, levels)?;
    Ok((insensitive, query, updatability))
}

/// A cursor, after its name.
#[tactic(auto, using(psm_tree::proofs::Reading::steps))]
fn cursor(
    alloc: Global,
    place: Place,
    name: Identifier,
    tokens: &mut Tokens,
    levels: u32,
) -> Result<Item, Halt>
    ensures { Takes (made (named_item place name) (reading levels cursor_rest_part) tokens.old.rest.now) result tokens.new.rest.now }
{
    let (insensitive, query, updatability) = cursor_rest(alloc, tokens, levels)?;
    let cursor = CursorDeclaration {
        place,
        name,
        insensitive,
        query,
        updatability,
    };
    Ok(Item::Cursor(Boxed::new(alloc, cursor)?))
}

/// A cursor, after DECLARE.
#[tactic(auto, using(psm_tree::proofs::Reading::steps))]
pub(crate) fn named_cursor(
    alloc: Global,
    place: Place,
    tokens: &mut Tokens,
    levels: u32,
) -> Result<Item, Halt>
    ensures { Takes (reading levels (named_part place cursor_rest_part) tokens.old.rest.now) result tokens.new.rest.now }
{
    let name = tokens.name(alloc)?;
    cursor(alloc, place, name, tokens, levels)
}

/// What declares a cursor, variables or a condition, after DECLARE.
#[tactic(auto, using(psm_tree::proofs::Reading::steps, psm_tree::proofs::Firsts::first_cursor_rest))]
pub(crate) fn named(
    alloc: Global,
    place: Place,
    tokens: &mut Tokens,
    levels: u32,
) -> Result<Item, Halt>
    ensures { Takes (reading levels (named_part place any_rest_part) tokens.old.rest.now) result tokens.new.rest.now }
{
    let name = tokens.name(alloc)?;
    if tokens.at_one_of(&CURSOR_WORDS) {
        return cursor(alloc, place, name, tokens, levels);
    }
    declaration_rest(alloc, place, name, tokens, levels)
}
