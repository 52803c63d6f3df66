//! IF and CASE (ISO/IEC 9075-4:1996, if statement and case statement).
ghost use Rattle.std.specs.Prelude.{◌≡◌, IfOk};
ghost use Rattle.psm_grammar.specs.Forms.{optional};
ghost use Rattle.psm_tree.specs.Readers.{Takes, TakesAs, reading};
ghost use Rattle.psm_tree.specs.StatementGrammar.{branch as branch_part, otherwise_statements as otherwise_statements_part, elseif_branch as elseif_branch_part, elseif_branches as elseif_branches_part, if_end as if_end_part, if_branches as if_branches_part, if_rest as if_rest_part, if_statement as if_statement_part, when_branch as when_branch_part, when_branches as when_branches_part, case_end as case_end_part, all_when_branches as all_when_branches_part, case_branches as case_branches_part, case_statement_rest as case_statement_rest_part, case_statement as case_statement_part};
ghost use Rattle.psm_tree.specs.StatementValues.{listed as listed_statements};

use crate::statements::statements;
use psm_grammar::Halt;
use psm_list::{Boxed, List, OneOrMore};
use psm_parse_expr::expr;
use psm_parse_token::Tokens;
use psm_token::Word;
use psm_tree::{Branch, Expr, Statement};
use std::alloc::{AllocError, Global};

/// The branches of IF or CASE, and the statements after ELSE.
type Branches = (OneOrMore<Boxed<Branch>>, List<Boxed<Statement>>);

/// The statements after ELSE, or none; out of memory is the one refusal.
fn listed(
    alloc: Global,
    otherwise: Option<OneOrMore<Boxed<Statement>>>,
) -> Result<List<Boxed<Statement>>, AllocError>
    ensures { IfOk result (λ l. l ≡ listed_statements otherwise) }
{
    match otherwise {
        None => Ok(List::of(Vec::new(alloc))),
        Some(OneOrMore { first, rest }) => {
            let mut statements = rest.into_vec();
            statements.insert(0, first)?;
            Ok(List::of(statements))
        }
    }
}

/// `expr THEN statements`
#[cycle(statements)]
#[tactic(auto, using(psm_tree::proofs::Reading::steps), unfolding(psm_tree::specs::StatementGrammar::branch))]
fn branch(alloc: Global, tokens: &mut Tokens, levels: u32) -> Result<Boxed<Branch>, Halt>
    ensures { Takes (reading levels branch_part tokens.old.rest.now) result tokens.new.rest.now }
{
    let test = expr(alloc, tokens, levels)?;
    tokens.word(Word::Then)?;
    let statements = statements(alloc, tokens, levels)?;
    Ok(Boxed::new(alloc, Branch { test, statements })?)
}

/// `ELSE statements`
#[cycle(statements)]
#[tactic(auto, using(psm_tree::proofs::Reading::steps), unfolding(psm_tree::specs::StatementGrammar::otherwise_statements))]
fn otherwise_statements(
    alloc: Global,
    tokens: &mut Tokens,
    levels: u32,
) -> Result<OneOrMore<Boxed<Statement>>, Halt>
    ensures { Takes (reading levels otherwise_statements_part tokens.old.rest.now) result tokens.new.rest.now }
{
    tokens.word(Word::Else)?;
    statements(alloc, tokens, levels)
}

/// `[ELSE statements]`
#[cycle(statements)]
#[tactic(auto, using(psm_tree::proofs::Reading::steps, psm_tree::proofs::Firsts::first_otherwise_statements))]
fn perhaps_otherwise(
    alloc: Global,
    tokens: &mut Tokens,
    levels: u32,
) -> Result<Option<OneOrMore<Boxed<Statement>>>, Halt>
    ensures { Takes (reading levels (optional otherwise_statements_part) tokens.old.rest.now) result tokens.new.rest.now }
{
    if !tokens.at(Word::Else) {
        return Ok(None);
    }
    Ok(Some(otherwise_statements(alloc, tokens, levels)?))
}

/// `ELSEIF branch`
#[cycle(statements)]
#[tactic(auto, using(psm_tree::proofs::Reading::steps), unfolding(psm_tree::specs::StatementGrammar::elseif_branch))]
fn elseif_branch(alloc: Global, tokens: &mut Tokens, levels: u32) -> Result<Boxed<Branch>, Halt>
    ensures { Takes (reading levels elseif_branch_part tokens.old.rest.now) result tokens.new.rest.now }
{
    tokens.word(Word::ElseIf)?;
    branch(alloc, tokens, levels)
}

/// `{ELSEIF branch}`
#[cycle(statements)]
#[tactic(auto, using(psm_tree::proofs::Repeating::turns, psm_tree::proofs::Firsts::first_elseif_branch), unfolding(psm_tree::specs::StatementGrammar::elseif_branches))]
fn elseif_branches(
    alloc: Global,
    tokens: &mut Tokens,
    levels: u32,
) -> Result<List<Boxed<Branch>>, Halt>
    ensures { Takes (reading levels elseif_branches_part tokens.old.rest.now) result tokens.new.rest.now }
{
    let mut branches = Vec::new(alloc);
    for _turn in 0..tokens.left() {
        if !tokens.at(Word::ElseIf) {
            break;
        }
        let branch = elseif_branch(alloc, tokens, levels)?;
        branches.push(branch)?;
    }
    Ok(List::of(branches))
}

/// `branch {ELSEIF branch}`
#[cycle(statements)]
#[tactic(auto, using(psm_tree::proofs::Reading::steps), unfolding(psm_tree::specs::StatementGrammar::if_branches))]
fn if_branches(
    alloc: Global,
    tokens: &mut Tokens,
    levels: u32,
) -> Result<OneOrMore<Boxed<Branch>>, Halt>
    ensures { Takes (reading levels if_branches_part tokens.old.rest.now) result tokens.new.rest.now }
{
    let first = branch(alloc, tokens, levels)?;
    let rest = elseif_branches(alloc, tokens, levels)?;
    Ok(OneOrMore::of(first, rest))
}

/// `[ELSE statements] END IF`
#[cycle(statements)]
#[tactic(auto, using(psm_tree::proofs::Reading::steps, psm_parse_token::proofs::Ends::reading_two), unfolding(psm_tree::specs::StatementGrammar::if_end))]
fn if_end(
    alloc: Global,
    tokens: &mut Tokens,
    levels: u32,
) -> Result<Option<OneOrMore<Boxed<Statement>>>, Halt>
    ensures { Takes (reading levels if_end_part tokens.old.rest.now) result tokens.new.rest.now }
{
    let otherwise = perhaps_otherwise(alloc, tokens, levels)?;
    tokens.end_of(Word::If)?;
    Ok(otherwise)
}

/// `branch {ELSEIF branch} [ELSE statements] END IF`
#[cycle(statements)]
#[tactic(auto, using(psm_tree::proofs::Reading::steps), unfolding(psm_tree::specs::StatementGrammar::if_rest))]
fn if_rest(alloc: Global, tokens: &mut Tokens, levels: u32) -> Result<Branches, Halt>
    ensures { TakesAs (λ x. record { branches = x.0; otherwise = x.1 }) (reading levels if_rest_part tokens.old.rest.now) result tokens.new.rest.now }
{
    let branches = if_branches(alloc, tokens, levels)?;
    let otherwise = if_end(alloc, tokens, levels)?;
    Ok((branches, listed(alloc, otherwise)?))
}

/// `IF branch {ELSEIF branch} [ELSE statements] END IF`
#[cycle(statements)]
#[tactic(auto, using(psm_tree::proofs::Reading::steps), unfolding(psm_tree::specs::StatementGrammar::if_statement))]
pub(crate) fn if_statement(
    alloc: Global,
    tokens: &mut Tokens,
    levels: u32,
) -> Result<Boxed<Statement>, Halt>
    ensures { Takes (reading levels if_statement_part tokens.old.rest.now) result tokens.new.rest.now }
{
    let (place, levels) = tokens.open(Word::If, levels)?;
    let (branches, otherwise) = if_rest(alloc, tokens, levels)?;
    let statement = Statement::If {
        place,
        branches,
        otherwise,
    };
    Ok(Boxed::new(alloc, statement)?)
}

/// `WHEN branch`
#[cycle(statements)]
#[tactic(auto, using(psm_tree::proofs::Reading::steps), unfolding(psm_tree::specs::StatementGrammar::when_branch))]
fn when_branch(alloc: Global, tokens: &mut Tokens, levels: u32) -> Result<Boxed<Branch>, Halt>
    ensures { Takes (reading levels when_branch_part tokens.old.rest.now) result tokens.new.rest.now }
{
    tokens.word(Word::When)?;
    branch(alloc, tokens, levels)
}

/// `{WHEN branch}`
#[cycle(statements)]
#[tactic(auto, using(psm_tree::proofs::Repeating::turns, psm_tree::proofs::Firsts::first_when_branch), unfolding(psm_tree::specs::StatementGrammar::when_branches))]
fn when_branches(
    alloc: Global,
    tokens: &mut Tokens,
    levels: u32,
) -> Result<List<Boxed<Branch>>, Halt>
    ensures { Takes (reading levels when_branches_part tokens.old.rest.now) result tokens.new.rest.now }
{
    let mut branches = Vec::new(alloc);
    for _turn in 0..tokens.left() {
        if !tokens.at(Word::When) {
            break;
        }
        let branch = when_branch(alloc, tokens, levels)?;
        branches.push(branch)?;
    }
    Ok(List::of(branches))
}

/// `WHEN branch {WHEN branch}`
#[cycle(statements)]
#[tactic(auto, using(psm_tree::proofs::Reading::steps), unfolding(psm_tree::specs::StatementGrammar::all_when_branches))]
fn all_when_branches(
    alloc: Global,
    tokens: &mut Tokens,
    levels: u32,
) -> Result<OneOrMore<Boxed<Branch>>, Halt>
    ensures { Takes (reading levels all_when_branches_part tokens.old.rest.now) result tokens.new.rest.now }
{
    let first = when_branch(alloc, tokens, levels)?;
    let rest = when_branches(alloc, tokens, levels)?;
    Ok(OneOrMore::of(first, rest))
}

/// `[ELSE statements] END CASE`
#[cycle(statements)]
#[tactic(auto, using(psm_tree::proofs::Reading::steps, psm_parse_token::proofs::Ends::reading_two), unfolding(psm_tree::specs::StatementGrammar::case_end))]
fn case_end(
    alloc: Global,
    tokens: &mut Tokens,
    levels: u32,
) -> Result<Option<OneOrMore<Boxed<Statement>>>, Halt>
    ensures { Takes (reading levels case_end_part tokens.old.rest.now) result tokens.new.rest.now }
{
    let otherwise = perhaps_otherwise(alloc, tokens, levels)?;
    tokens.end_of(Word::Case)?;
    Ok(otherwise)
}

/// `WHEN branch {WHEN branch} [ELSE statements] END CASE`
#[cycle(statements)]
#[tactic(auto, using(psm_tree::proofs::Reading::steps), unfolding(psm_tree::specs::StatementGrammar::case_branches))]
fn case_branches(alloc: Global, tokens: &mut Tokens, levels: u32) -> Result<Branches, Halt>
    ensures { TakesAs (λ x. record { branches = x.0; otherwise = x.1 }) (reading levels case_branches_part tokens.old.rest.now) result tokens.new.rest.now }
{
    let branches = all_when_branches(alloc, tokens, levels)?;
    let otherwise = case_end(alloc, tokens, levels)?;
    Ok((branches, listed(alloc, otherwise)?))
}

/// `[expr] WHEN branch {WHEN branch} [ELSE statements] END CASE`
#[cycle(statements)]
#[tactic(auto, using(psm_tree::proofs::Reading::steps, psm_tree::proofs::Firsts::first_case_branches), unfolding(psm_tree::specs::StatementGrammar::case_statement_rest))]
fn case_statement_rest(
    alloc: Global,
    tokens: &mut Tokens,
    levels: u32,
) -> Result<(Option<Boxed<Expr>>, Branches), Halt>
    ensures { TakesAs (λ x. (x.0, record { branches = x.1.0; otherwise = x.1.1 })) (reading levels case_statement_rest_part tokens.old.rest.now) result tokens.new.rest.now }
{
    if tokens.at(Word::When) {
        let branches = case_branches(alloc, tokens, levels)?;
        return Ok((None, branches));
    }
    let operand = expr(alloc, tokens, levels)?;
    let branches = case_branches(alloc, tokens, levels)?;
    Ok((Some(operand), branches))
}

/// `CASE [expr] WHEN branch {WHEN branch} [ELSE statements] END CASE`
#[cycle(statements)]
#[tactic(auto, using(psm_tree::proofs::Reading::steps), unfolding(psm_tree::specs::StatementGrammar::case_statement))]
pub(crate) fn case_statement(
    alloc: Global,
    tokens: &mut Tokens,
    levels: u32,
) -> Result<Boxed<Statement>, Halt>
    ensures { Takes (reading levels case_statement_part tokens.old.rest.now) result tokens.new.rest.now }
{
    let (place, levels) = tokens.open(Word::Case, levels)?;
    let (operand, (branches, otherwise)) = case_statement_rest(alloc, tokens, levels)?;
    let statement = Statement::Case {
        place,
        operand,
        branches,
        otherwise,
    };
    Ok(Boxed::new(alloc, statement)?)
}
