//! Statements about tables and cursors (ISO/IEC 9075:1992, clause 13).
ghost use Rattle.psm_tree.specs.Readers.{Takes, reading};
ghost use Rattle.psm_tree.specs.StatementGrammar.{values as values_part, next_values as next_values_part, more_values as more_values_part, all_values as all_values_part, insert_values as insert_values_part, insert_source as insert_source_part, insert_statement as insert_statement_part, assignment as assignment_part, next_assignment as next_assignment_part, next_assignments as next_assignments_part, assignments as assignments_part, update_statement as update_statement_part, delete_statement as delete_statement_part, select_statement as select_statement_part, data_statement as data_statement_part};

use crate::condition::perhaps_where;
use crate::cursor::{close_statement, fetch_statement, into_targets, open_statement};
use psm_grammar::Halt;
use psm_list::{Boxed, List, OneOrMore};
use psm_parse_expr::{from_table, picks, select, source, sources};
use psm_parse_token::{Tokens, perhaps_names};
use psm_token::{Sign, Word};
use psm_tree::{Assignment, InsertSource, Select, Simple, Values};
use std::alloc::Global;

/// `"(" source {"," source} ")"`
#[tactic(auto, using(psm_tree::proofs::Reading::steps), unfolding(psm_tree::specs::StatementGrammar::values))]
fn values(alloc: Global, tokens: &mut Tokens, levels: u32) -> Result<Values, Halt>
    ensures { Takes (reading levels values_part tokens.old.rest.now) result tokens.new.rest.now }
{
    let place = tokens.sign(Sign::LeftParen)?;
    let values = sources(alloc, tokens, levels)?;
    tokens.sign(Sign::RightParen)?;
    Ok(Values { place, values })
}

/// `"," "(" source {"," source} ")"`
#[tactic(auto, using(psm_tree::proofs::Reading::steps), unfolding(psm_tree::specs::StatementGrammar::next_values))]
fn next_values(alloc: Global, tokens: &mut Tokens, levels: u32) -> Result<Values, Halt>
    ensures { Takes (reading levels next_values_part tokens.old.rest.now) result tokens.new.rest.now }
{
    tokens.sign(Sign::Comma)?;
    values(alloc, tokens, levels)
}

/// `{"," values}`
#[tactic(auto, using(psm_tree::proofs::Repeating::turns, psm_tree::proofs::Firsts::first_next_values), unfolding(psm_tree::specs::StatementGrammar::more_values))]
fn more_values(alloc: Global, tokens: &mut Tokens, levels: u32) -> Result<List<Values>, Halt>
    ensures { Takes (reading levels more_values_part tokens.old.rest.now) result tokens.new.rest.now }
{
    let mut rows = Vec::new(alloc);
    for _turn in 0..tokens.left() {
        if !tokens.at_sign(Sign::Comma) {
            break;
        }
        let row = next_values(alloc, tokens, levels)?;
        rows.push(row)?;
    }
    Ok(List::of(rows))
}

/// `values {"," values}`
#[tactic(auto, using(psm_tree::proofs::Reading::steps), unfolding(psm_tree::specs::StatementGrammar::all_values))]
fn all_values(alloc: Global, tokens: &mut Tokens, levels: u32) -> Result<OneOrMore<Values>, Halt>
    ensures { Takes (reading levels all_values_part tokens.old.rest.now) result tokens.new.rest.now }
{
    let first = values(alloc, tokens, levels)?;
    let rest = more_values(alloc, tokens, levels)?;
    Ok(OneOrMore::of(first, rest))
}

/// `VALUES values {"," values}`
#[tactic(auto, using(psm_tree::proofs::Reading::steps), unfolding(psm_tree::specs::StatementGrammar::insert_values))]
fn insert_values(
    alloc: Global,
    tokens: &mut Tokens,
    levels: u32,
) -> Result<Boxed<InsertSource>, Halt>
    ensures { Takes (reading levels insert_values_part tokens.old.rest.now) result tokens.new.rest.now }
{
    tokens.word(Word::Values)?;
    let rows = all_values(alloc, tokens, levels)?;
    Ok(Boxed::new(alloc, InsertSource::Values { rows })?)
}

/// `VALUES values {"," values} | select`
#[tactic(auto, using(psm_tree::proofs::Reading::steps, psm_tree::proofs::Firsts::first_insert_values), unfolding(psm_tree::specs::StatementGrammar::insert_source))]
fn insert_source(
    alloc: Global,
    tokens: &mut Tokens,
    levels: u32,
) -> Result<Boxed<InsertSource>, Halt>
    ensures { Takes (reading levels insert_source_part tokens.old.rest.now) result tokens.new.rest.now }
{
    if tokens.at(Word::Values) {
        return insert_values(alloc, tokens, levels);
    }
    let query = select(alloc, tokens, levels)?;
    Ok(Boxed::new(alloc, InsertSource::Query(query))?)
}

/// `INSERT INTO name [names] insert_source` (ISO/IEC 9075:1992, 13.8)
#[tactic(auto, using(psm_tree::proofs::Reading::steps), unfolding(psm_tree::specs::StatementGrammar::insert_statement))]
fn insert_statement(alloc: Global, tokens: &mut Tokens, levels: u32) -> Result<Boxed<Simple>, Halt>
    ensures { Takes (reading levels insert_statement_part tokens.old.rest.now) result tokens.new.rest.now }
{
    let place = tokens.word(Word::Insert)?;
    tokens.word(Word::Into)?;
    let table = tokens.name(alloc)?;
    let columns = perhaps_names(alloc, tokens, levels)?;
    let source = insert_source(alloc, tokens, levels)?;
    let insert = Simple::Insert {
        place,
        table,
        columns,
        source,
    };
    Ok(Boxed::new(alloc, insert)?)
}

/// `name "=" source`
#[tactic(auto, using(psm_tree::proofs::Reading::steps), unfolding(psm_tree::specs::StatementGrammar::assignment))]
fn assignment(alloc: Global, tokens: &mut Tokens, levels: u32) -> Result<Assignment, Halt>
    ensures { Takes (reading levels assignment_part tokens.old.rest.now) result tokens.new.rest.now }
{
    let column = tokens.name(alloc)?;
    tokens.sign(Sign::Equal)?;
    let source = source(alloc, tokens, levels)?;
    Ok(Assignment { column, source })
}

/// `"," name "=" source`
#[tactic(auto, using(psm_tree::proofs::Reading::steps), unfolding(psm_tree::specs::StatementGrammar::next_assignment))]
fn next_assignment(alloc: Global, tokens: &mut Tokens, levels: u32) -> Result<Assignment, Halt>
    ensures { Takes (reading levels next_assignment_part tokens.old.rest.now) result tokens.new.rest.now }
{
    tokens.sign(Sign::Comma)?;
    assignment(alloc, tokens, levels)
}

/// `{"," assignment}`
#[tactic(auto, using(psm_tree::proofs::Repeating::turns, psm_tree::proofs::Firsts::first_next_assignment), unfolding(psm_tree::specs::StatementGrammar::next_assignments))]
fn next_assignments(
    alloc: Global,
    tokens: &mut Tokens,
    levels: u32,
) -> Result<List<Assignment>, Halt>
    ensures { Takes (reading levels next_assignments_part tokens.old.rest.now) result tokens.new.rest.now }
{
    let mut assignments = Vec::new(alloc);
    for _turn in 0..tokens.left() {
        if !tokens.at_sign(Sign::Comma) {
            break;
        }
        let assignment = next_assignment(alloc, tokens, levels)?;
        assignments.push(assignment)?;
    }
    Ok(List::of(assignments))
}

/// `SET assignment {"," assignment}`
#[tactic(auto, using(psm_tree::proofs::Reading::steps), unfolding(psm_tree::specs::StatementGrammar::assignments))]
fn assignments(
    alloc: Global,
    tokens: &mut Tokens,
    levels: u32,
) -> Result<OneOrMore<Assignment>, Halt>
    ensures { Takes (reading levels assignments_part tokens.old.rest.now) result tokens.new.rest.now }
{
    tokens.word(Word::Set)?;
    let first = assignment(alloc, tokens, levels)?;
    let rest = next_assignments(alloc, tokens, levels)?;
    Ok(OneOrMore::of(first, rest))
}

/// `UPDATE name SET assignment {"," assignment} [where]` (ISO/IEC 9075:1992, 13.9 and 13.10)
#[tactic(auto, using(psm_tree::proofs::Reading::steps), unfolding(psm_tree::specs::StatementGrammar::update_statement))]
fn update_statement(alloc: Global, tokens: &mut Tokens, levels: u32) -> Result<Boxed<Simple>, Halt>
    ensures { Takes (reading levels update_statement_part tokens.old.rest.now) result tokens.new.rest.now }
{
    let place = tokens.word(Word::Update)?;
    let table = tokens.name(alloc)?;
    let assignments = assignments(alloc, tokens, levels)?;
    let which = perhaps_where(alloc, tokens, levels)?;
    let update = Simple::Update {
        place,
        table,
        assignments,
        which,
    };
    Ok(Boxed::new(alloc, update)?)
}

/// `DELETE FROM name [where]` (ISO/IEC 9075:1992, 13.6 and 13.7)
#[tactic(auto, using(psm_tree::proofs::Reading::steps), unfolding(psm_tree::specs::StatementGrammar::delete_statement))]
fn delete_statement(alloc: Global, tokens: &mut Tokens, levels: u32) -> Result<Boxed<Simple>, Halt>
    ensures { Takes (reading levels delete_statement_part tokens.old.rest.now) result tokens.new.rest.now }
{
    let place = tokens.word(Word::Delete)?;
    tokens.word(Word::From)?;
    let table = tokens.name(alloc)?;
    let which = perhaps_where(alloc, tokens, levels)?;
    let delete = Simple::Delete {
        place,
        table,
        which,
    };
    Ok(Boxed::new(alloc, delete)?)
}

/// `SELECT picks INTO targets FROM from` (ISO/IEC 9075:1992, 13.5)
#[tactic(auto, using(psm_tree::proofs::Reading::steps), unfolding(psm_tree::specs::StatementGrammar::select_statement))]
fn select_statement(alloc: Global, tokens: &mut Tokens, levels: u32) -> Result<Boxed<Simple>, Halt>
    ensures { Takes (reading levels select_statement_part tokens.old.rest.now) result tokens.new.rest.now }
{
    let place = tokens.word(Word::Select)?;
    let picks = picks(alloc, tokens, levels)?;
    let targets = into_targets(alloc, tokens, levels)?;
    tokens.word(Word::From)?;
    let (table, alias, condition) = from_table(alloc, tokens, levels)?;
    let query = Select {
        place,
        picks,
        table,
        alias,
        condition,
    };
    let query = Boxed::new(alloc, query)?;
    Ok(Boxed::new(alloc, Simple::SelectInto { query, targets })?)
}

/// A statement about cursors or tables.
#[tactic(auto, using(psm_tree::proofs::Reading::steps, psm_tree::proofs::Firsts::first_select_statement, psm_tree::proofs::Firsts::first_insert_statement, psm_tree::proofs::Firsts::first_update_statement, psm_tree::proofs::Firsts::first_delete_statement, psm_tree::proofs::Firsts::first_open_statement, psm_tree::proofs::Firsts::first_fetch_statement), unfolding(psm_tree::specs::StatementGrammar::data_statement))]
pub(crate) fn data_statement(
    alloc: Global,
    tokens: &mut Tokens,
    levels: u32,
) -> Result<Boxed<Simple>, Halt>
    ensures { Takes (reading levels data_statement_part tokens.old.rest.now) result tokens.new.rest.now }
{
    if tokens.at(Word::Select) {
        return select_statement(alloc, tokens, levels);
    }
    if tokens.at(Word::Insert) {
        return insert_statement(alloc, tokens, levels);
    }
    if tokens.at(Word::Update) {
        return update_statement(alloc, tokens, levels);
    }
    if tokens.at(Word::Delete) {
        return delete_statement(alloc, tokens, levels);
    }
    if tokens.at(Word::Open) {
        return open_statement(alloc, tokens, levels);
    }
    if tokens.at(Word::Fetch) {
        return fetch_statement(alloc, tokens, levels);
    }
    close_statement(alloc, tokens, levels)
}
