//! Statements that have statements, and handlers.
ghost use Rattle.std.specs.Prelude.{◌≡◌, ◌++◌, [], IfOk, map, option_map};
ghost use Rattle.psm_list.specs.Several.{several_map};
ghost use Rattle.psm_token.specs.declared.word.Word.TheVariants as w;
ghost use Rattle.psm_print.specs.Spelling.{word, perhaps, each, separated, ended, all_of};
ghost use Rattle.psm_print.specs.ExprTokens.{expr_tokens};
ghost use Rattle.psm_print.specs.StatementTokens.{for_head_tokens, else_tokens, block_tokens, statement_tokens, branch_tokens, handler_tokens};

use crate::declarations::{
    atomic, cursors, declarations, end_label, for_cursor, handled, handler_kind, start_label,
};
use crate::exprs::expr;
use crate::names::name;
use crate::parts::ordered_query;
use crate::simple::simple;
use psm_list::{Boxed, List, OneOrMore};
use psm_spell::Writer;
use psm_token::{Sign, Word};
use psm_tree::{Block, Branch, Expr, ForHead, Handler, Statement};
use std::alloc::AllocError;

/// A statement.
#[cycle(statements)]
#[tactic(auto, using(crate::proofs::Equations::statement_equations))]
pub(crate) fn statement(out: &mut Writer, s: &Statement) -> Result<(), AllocError>
    ensures { IfOk result (λ _. out.new ≡ out.old ++ statement_tokens s.now) }
{
    match s {
        Statement::Block {
            label,
            block: labelled,
        } => {
            start_label(out, label)?;
            block(out, labelled.get())?;
            end_label(out, label)
        }
        Statement::If {
            branches: tests,
            otherwise,
            ..
        } => {
            out.word(Word::If)?;
            branches(out, tests, Word::ElseIf)?;
            otherwise_statements(out, otherwise)?;
            end(out, Word::If)
        }
        Statement::Case {
            operand,
            branches: tests,
            otherwise,
            ..
        } => {
            out.word(Word::Case)?;
            perhaps_expr(out, operand)?;
            out.word(Word::When)?;
            branches(out, tests, Word::When)?;
            otherwise_statements(out, otherwise)?;
            end(out, Word::Case)
        }
        Statement::Simple(alone) => simple(out, alone.get()),
    }
}

/// A block.
#[cycle(statements)]
#[tactic(auto, using(crate::proofs::Equations::block_equations))]
fn block(out: &mut Writer, b: &Block) -> Result<(), AllocError>
    ensures { IfOk result (λ _. out.new ≡ out.old ++ block_tokens b.now) }
{
    match b {
        Block::Compound {
            atomic: undoes,
            declarations: declared,
            cursors: open,
            handlers: handle,
            statements: body,
            ..
        } => {
            out.word(Word::Begin)?;
            atomic(out, *undoes)?;
            declarations(out, declared)?;
            cursors(out, open)?;
            handlers(out, handle)?;
            statements(out, body)?;
            out.word(Word::End)
        }
        Block::Loop {
            statements: body,
            ..
        } => {
            out.word(Word::Loop)?;
            all_statements(out, body)?;
            end(out, Word::Loop)
        }
        Block::While {
            test,
            statements: body,
            ..
        } => {
            out.word(Word::While)?;
            expr(out, test.get())?;
            out.word(Word::Do)?;
            all_statements(out, body)?;
            end(out, Word::While)
        }
        Block::Repeat {
            statements: body,
            until,
            ..
        } => {
            out.word(Word::Repeat)?;
            all_statements(out, body)?;
            out.word(Word::Until)?;
            expr(out, until.get())?;
            end(out, Word::Repeat)
        }
        Block::For {
            head,
            statements: body,
            ..
        } => {
            out.word(Word::For)?;
            for_head(out, head.get())?;
            out.word(Word::Do)?;
            all_statements(out, body)?;
            end(out, Word::For)
        }
    }
}

/// END and the word after it.
fn end(out: &mut Writer, of: Word) -> Result<(), AllocError>
    ensures { IfOk result (λ _. out.new ≡ out.old ++ word w.End ++ word of) }
{
    out.word(Word::End)?;
    out.word(of)
}

/// `name AS [cursor] query`.
fn for_head(out: &mut Writer, head: &ForHead) -> Result<(), AllocError>
    ensures { IfOk result (λ _. out.new ≡ out.old ++ for_head_tokens head.now) }
{
    name(out, &head.name)?;
    out.word(Word::As)?;
    match &head.cursor {
        None => {}
        Some(cursor) => for_cursor(out, cursor)?,
    }
    ordered_query(out, &head.query)
}

/// The operand of CASE, where it has one.
fn perhaps_expr(out: &mut Writer, operand: &Option<Boxed<Expr>>) -> Result<(), AllocError>
    ensures { IfOk result (λ _. out.new ≡ out.old ++ perhaps [] (option_map expr_tokens operand.now)) }
{
    match operand {
        None => Ok(()),
        Some(operand) => expr(out, operand.get()),
    }
}

/// Statements, each with a semicolon after it: none or more.
#[cycle(statements)]
fn statements(out: &mut Writer, items: &List<Boxed<Statement>>) -> Result<(), AllocError>
    ensures { IfOk result (λ _. out.new ≡ out.old ++ ended (map statement_tokens items.now)) }
{
    for item in items.items() {
        statement(out, item.get())?;
        out.sign(Sign::Semicolon)?;
    }
    Ok(())
}

/// Statements, each with a semicolon after it: one or more.
#[cycle(statements)]
fn all_statements(out: &mut Writer, items: &OneOrMore<Boxed<Statement>>) -> Result<(), AllocError>
    ensures { IfOk result (λ _. out.new ≡ out.old ++ ended (all_of (several_map statement_tokens items.now))) }
{
    statement(out, items.first.get())?;
    out.sign(Sign::Semicolon)?;
    for item in items.rest.items() {
        statement(out, item.get())?;
        out.sign(Sign::Semicolon)?;
    }
    Ok(())
}

/// The statements after ELSE, which is left out where there are none.
#[cycle(statements)]
fn otherwise_statements(out: &mut Writer, items: &List<Boxed<Statement>>) -> Result<(), AllocError>
    ensures { IfOk result (λ _. out.new ≡ out.old ++ else_tokens (map statement_tokens items.now)) }
{
    if items.items().is_empty() {
        return Ok(());
    }
    out.word(Word::Else)?;
    for item in items.items() {
        statement(out, item.get())?;
        out.sign(Sign::Semicolon)?;
    }
    Ok(())
}

/// A test, and the statements after THEN.
#[cycle(statements)]
#[tactic(auto, using(crate::proofs::Equations::tokens_branch))]
fn branch(out: &mut Writer, branch: &Branch) -> Result<(), AllocError>
    ensures { IfOk result (λ _. out.new ≡ out.old ++ branch_tokens branch.now) }
{
    expr(out, branch.test.get())?;
    out.word(Word::Then)?;
    all_statements(out, &branch.statements)
}

/// Branches with that word between two of them.
#[cycle(statements)]
fn branches(
    out: &mut Writer,
    items: &OneOrMore<Boxed<Branch>>,
    between: Word,
) -> Result<(), AllocError>
    ensures { IfOk result (λ _. out.new ≡ out.old ++ separated (word between) (several_map branch_tokens items.now)) }
{
    branch(out, items.first.get())?;
    for item in items.rest.items() {
        out.word(between)?;
        branch(out, item.get())?;
    }
    Ok(())
}

/// Declarations of handlers, each with a semicolon after it.
#[cycle(statements)]
fn handlers(out: &mut Writer, items: &List<Boxed<Handler>>) -> Result<(), AllocError>
    ensures { IfOk result (λ _. out.new ≡ out.old ++ ended (map handler_tokens items.now)) }
{
    for item in items.items() {
        handler(out, item.get())?;
        out.sign(Sign::Semicolon)?;
    }
    Ok(())
}

/// A declaration of a handler.
#[cycle(statements)]
#[tactic(auto, using(crate::proofs::Equations::tokens_handler))]
fn handler(out: &mut Writer, handler: &Handler) -> Result<(), AllocError>
    ensures { IfOk result (λ _. out.new ≡ out.old ++ handler_tokens handler.now) }
{
    out.word(Word::Declare)?;
    handler_kind(out, handler.kind)?;
    out.word(Word::Handler)?;
    out.word(Word::For)?;
    handled(out, &handler.values)?;
    statement(out, handler.action.get())
}
