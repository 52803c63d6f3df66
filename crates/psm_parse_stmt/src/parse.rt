//! The parser of one statement in a list of tokens.
ghost use Rattle.std.specs.Prelude.{◌≤◌, length};
ghost use Rattle.psm_grammar.specs.Grammar.{Spells};
ghost use Rattle.psm_tree.specs.Productions.{productions};
ghost use Rattle.psm_tree.specs.StatementGrammar.{statement as statement_grammar};
ghost use Rattle.psm_tree.specs.Reading.{ReadsRun};

use crate::statements::statement;
use psm_list::Boxed;
use psm_parse_token::{Tokens, fault_of};
use psm_token::TokenList;
use psm_tree::{ParseFault, Statement};
use std::alloc::Global;

/// The most levels of nesting.
const MOST_LEVELS: u32 = 100;

/// The statement that begins at token `at`, where `depth` levels are open, and the number of the token after
/// it (ISO/IEC 9075-4:1996).
///
/// # Errors
/// `Syntax` at the first token that no statement goes on with, or at the end; `Deep` at the token that opens
/// level 101; `Memory`.
pub fn parse_stmt(
    alloc: Global,
    tokens: &TokenList,
    at: usize,
    depth: u32,
) -> Result<(Boxed<Statement>, usize), ParseFault>
    requires inside { at ≤ length tokens.now.tokens }
    requires nested { depth ≤ 100 }
    ensures { ReadsRun (Spells productions depth statement_grammar) (λ t. t) tokens.now at result }
{
    let items = tokens.items();
    let mut cursor = Tokens::of(&items[at..]);
    let read = statement(alloc, &mut cursor, MOST_LEVELS - depth);
    let Tokens { rest } = cursor;
    match read {
        Ok(statement) => Ok((statement, items.len() - rest.len())),
        Err(halt) => Err(fault_of(tokens, halt)),
    }
}
