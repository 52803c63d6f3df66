//! Statements that have no statements.
ghost use Rattle.std.specs.Prelude.{◌≡◌, ◌++◌, [], IfOk, option_map};
ghost use Rattle.psm_tree.specs.declared.expr.Select.{out-Select};
ghost use Rattle.psm_print.specs.Spelling.{perhaps};
ghost use Rattle.psm_print.specs.ExprTokens.{enclosed_names_tokens};
ghost use Rattle.psm_print.specs.StatementTokens.{signalled_tokens, select_into_tokens, where_tokens, simple_tokens};

use crate::diagnostics::{diagnostics, diagnostics_area};
use crate::exprs::{expr, from_table, listed, picks};
use crate::names::{enclosed_names, name, target, targets};
use crate::parts::{assignments, insert_source, signalled, which_rows};
use psm_list::Boxed;
use psm_spell::Writer;
use psm_token::{Sign, Word};
use psm_tree::{Names, Select, Signalled, Simple, Targets, Where};
use std::alloc::AllocError;

/// A statement that has no statements.
pub(crate) fn simple(out: &mut Writer, statement: &Simple) -> Result<(), AllocError>
    ensures { IfOk result (λ _. out.new ≡ out.old ++ simple_tokens statement.now) }
{
    match statement {
        Simple::Set {
            target: variable,
            source,
            ..
        } => {
            out.word(Word::Set)?;
            target(out, variable)?;
            out.sign(Sign::Equal)?;
            expr(out, source.get())
        }
        Simple::Call {
            procedure,
            arguments,
            ..
        } => {
            out.word(Word::Call)?;
            name(out, procedure)?;
            out.sign(Sign::LeftParen)?;
            listed(out, arguments)?;
            out.sign(Sign::RightParen)
        }
        Simple::Return { source, .. } => {
            out.word(Word::Return)?;
            expr(out, source.get())
        }
        Simple::Leave { label, .. } => {
            out.word(Word::Leave)?;
            name(out, label)
        }
        Simple::Iterate { label, .. } => {
            out.word(Word::Iterate)?;
            name(out, label)
        }
        Simple::Signal {
            signalled: condition,
            ..
        } => {
            out.word(Word::Signal)?;
            signalled(out, condition.get())
        }
        Simple::Resignal {
            signalled: condition,
            ..
        } => {
            out.word(Word::Resignal)?;
            perhaps_signalled(out, condition)
        }
        Simple::GetDiagnostics {
            which,
            diagnostics: gets,
            ..
        } => {
            out.word(Word::Get)?;
            diagnostics_area(out, *which)?;
            out.word(Word::Diagnostics)?;
            diagnostics(out, gets.get())
        }
        Simple::SelectInto {
            query,
            targets: variables,
        } => select_into(out, query.get(), variables.get()),
        Simple::Insert {
            table,
            columns,
            source,
            ..
        } => {
            out.word(Word::Insert)?;
            out.word(Word::Into)?;
            name(out, table)?;
            perhaps_names(out, columns)?;
            insert_source(out, source.get())
        }
        Simple::Update {
            table,
            assignments: sets,
            which,
            ..
        } => {
            out.word(Word::Update)?;
            name(out, table)?;
            out.word(Word::Set)?;
            assignments(out, sets)?;
            perhaps_which(out, which)
        }
        Simple::Delete { table, which, .. } => {
            out.word(Word::Delete)?;
            out.word(Word::From)?;
            name(out, table)?;
            perhaps_which(out, which)
        }
        Simple::Open { cursor, .. } => {
            out.word(Word::Open)?;
            name(out, cursor)
        }
        Simple::Fetch {
            cursor,
            targets: variables,
            ..
        } => {
            out.word(Word::Fetch)?;
            name(out, cursor)?;
            out.word(Word::Into)?;
            targets(out, variables.get())
        }
        Simple::Close { cursor, .. } => {
            out.word(Word::Close)?;
            name(out, cursor)
        }
    }
}

/// The condition of RESIGNAL, where it has one.
fn perhaps_signalled(
    out: &mut Writer,
    condition: &Option<Boxed<Signalled>>,
) -> Result<(), AllocError>
    ensures { IfOk result (λ _. out.new ≡ out.old ++ perhaps [] (option_map signalled_tokens condition.now)) }
{
    match condition {
        None => Ok(()),
        Some(condition) => signalled(out, condition.get()),
    }
}

/// A query whose items go into targets.
fn select_into(out: &mut Writer, query: &Select, variables: &Targets) -> Result<(), AllocError>
    ensures { IfOk result (λ _. out.new ≡ out.old ++ select_into_tokens (out-Select query.now) variables.now) }
{
    out.word(Word::Select)?;
    picks(out, &query.picks)?;
    out.word(Word::Into)?;
    targets(out, variables)?;
    from_table(out, &query.table, &query.alias, &query.condition)
}

/// The columns of INSERT in parentheses, where it has them.
fn perhaps_names(out: &mut Writer, columns: &Option<Boxed<Names>>) -> Result<(), AllocError>
    ensures { IfOk result (λ _. out.new ≡ out.old ++ perhaps [] (option_map enclosed_names_tokens columns.now)) }
{
    match columns {
        None => Ok(()),
        Some(columns) => enclosed_names(out, columns.get()),
    }
}

/// Which rows are changed, where that is said.
fn perhaps_which(out: &mut Writer, which: &Option<Where>) -> Result<(), AllocError>
    ensures { IfOk result (λ _. out.new ≡ out.old ++ perhaps [] (option_map where_tokens which.now)) }
{
    match which {
        None => Ok(()),
        Some(which) => which_rows(out, which),
    }
}
