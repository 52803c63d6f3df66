//! The parsers of expressions, of the items of queries, of targets and of data types in a list of tokens.
ghost use Rattle.std.specs.Prelude.{ℕ, ◌≡◌, ◌≤◌, length};
ghost use Rattle.psm_grammar.specs.Grammar.{Spells};
ghost use Rattle.psm_tree.specs.ExprGrammar.{expr as expr_part, picks as picks_part, target as target_part, data_type as type_part};
ghost use Rattle.psm_tree.specs.Productions.{productions};
ghost use Rattle.psm_tree.specs.Reading.{ReadsRun};
ghost use Rattle.psm_parse_expr.specs.Numbered.{numbered as numbered_of};

use crate::condition::expr;
use crate::query::picks;
use psm_grammar::Halt;
use psm_list::{Boxed, OneOrMore};
use psm_parse_token::{Tokens, data_type, fault_of, target};
use psm_token::TokenList;
use psm_tree::{DataType, Expr, ParseFault, Pick, Target};
use std::alloc::Global;

/// The expression that begins at token `at`, where `depth` levels are open, and the number of the token after
/// it (ISO/IEC 9075:1992, 6.1 to 8.12).
///
/// # Errors
/// `Syntax` at the first token that no spelling goes on with, or at the end; `Deep` at the token that opens
/// level 101; `Memory`.
pub fn parse_expr(
    alloc: Global,
    tokens: &TokenList,
    at: usize,
    depth: u32,
) -> Result<(Boxed<Expr>, usize), ParseFault>
    requires within { at ≤ length tokens.now.tokens }
    requires shallow { depth ≤ 100 }
    ensures { ReadsRun (Spells productions depth expr_part) (λ x. x) tokens.now at result }
{
    let mut cursor = Tokens::of(&tokens.items()[at..]);
    let read = expr(alloc, &mut cursor, 100 - depth);
    let Tokens { rest } = cursor;
    numbered(tokens, rest.len(), read)
}

/// The items of a query that begin at token `at`, where `depth` levels are open, and the number of the token
/// after them (ISO/IEC 9075:1992, 7.9).
///
/// # Errors
/// `Syntax` at the first token that no spelling goes on with, or at the end; `Deep` at the token that opens
/// level 101; `Memory`.
pub fn parse_picks(
    alloc: Global,
    tokens: &TokenList,
    at: usize,
    depth: u32,
) -> Result<(OneOrMore<Boxed<Pick>>, usize), ParseFault>
    requires within { at ≤ length tokens.now.tokens }
    requires shallow { depth ≤ 100 }
    ensures { ReadsRun (Spells productions depth picks_part) (λ x. x) tokens.now at result }
{
    let mut cursor = Tokens::of(&tokens.items()[at..]);
    let read = picks(alloc, &mut cursor, 100 - depth);
    let Tokens { rest } = cursor;
    numbered(tokens, rest.len(), read)
}

/// The target that begins at token `at`, where `depth` levels are open, and the number of the token after it
/// (ISO/IEC 9075:1992, 6.2).
///
/// # Errors
/// `Syntax` at the first token that no spelling goes on with, or at the end; `Memory`.
pub fn parse_target(
    alloc: Global,
    tokens: &TokenList,
    at: usize,
    depth: u32,
) -> Result<(Target, usize), ParseFault>
    requires within { at ≤ length tokens.now.tokens }
    requires shallow { depth ≤ 100 }
    ensures { ReadsRun (Spells productions depth target_part) (λ x. x) tokens.now at result }
{
    let mut cursor = Tokens::of(&tokens.items()[at..]);
    let read = target(alloc, &mut cursor, 100 - depth);
    let Tokens { rest } = cursor;
    numbered(tokens, rest.len(), read)
}

/// The data type that begins at token `at`, where `depth` levels are open, and the number of the token after
/// it (ISO/IEC 9075:1992, 6.1).
///
/// # Errors
/// `Syntax` at the first token that no spelling goes on with, or at the end.
pub fn parse_type(
    alloc: Global,
    tokens: &TokenList,
    at: usize,
    depth: u32,
) -> Result<(DataType, usize), ParseFault>
    requires within { at ≤ length tokens.now.tokens }
    requires shallow { depth ≤ 100 }
    ensures { ReadsRun (Spells productions depth type_part) (λ x. x) tokens.now at result }
{
    // `numbered` does not do here: the borrow checker has no rule for handing a data type on.
    let items = tokens.items();
    let mut cursor = Tokens::of(&items[at..]);
    let read = data_type(&mut cursor, 100 - depth);
    let Tokens { rest } = cursor;
    match read {
        Ok(kind) => Ok((kind, items.len().saturating_sub(rest.len()))),
        Err(halt) => Err(fault_of(tokens, halt)),
    }
}

/// What was read of a list of tokens, with the number of the token after it, where n tokens are left.
fn numbered<X: Drop>(
    tokens: &TokenList,
    left: usize,
    read: Result<X, Halt>,
) -> Result<(X, usize), ParseFault>
    ensures { result ≡ numbered_of tokens.now left read }
{
    match read {
        Ok(value) => Ok((value, tokens.items().len().saturating_sub(left))),
        Err(halt) => Err(fault_of(tokens, halt)),
    }
}
