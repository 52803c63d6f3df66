//! The parsers of module files and scripts.
ghost use Rattle.std.specs.Prelude.{◌≡◌};
ghost use Rattle.psm_grammar.specs.Grammar.{Spells};
ghost use Rattle.psm_tree.specs.FileGrammar.{file as file_grammar, script as script_grammar};
ghost use Rattle.psm_tree.specs.Productions.{productions};
ghost use Rattle.psm_tree.specs.Reading.{ReadsAll};
ghost use Rattle.psm_parse_file.specs.Only.{GivesFault, GivesTree};
ghost use Rattle.psm_parse_file.specs.Whole.{whole as whole_of};

use crate::command::script;
use crate::module_file::file;
use psm_grammar::Halt;
use psm_parse_token::{Tokens, fault_of};
use psm_token::{Placed, TokenList};
use psm_tree::{FileTree, ParseFault, ScriptTree};
use std::alloc::Global;

/// The most levels of nesting.
const MOST_LEVELS: u32 = 100;

/// The tree of a module file, which all the tokens spell (ISO/IEC 9075-4:1996, module definitions).
///
/// `Syntax` comes exactly where no file begins with the tokens and goes on as they do: at the first token
/// that no file has after those before it, or at the end of the tokens where a file needs more. `Deep`
/// comes where each file that begins with the tokens before it opens level 101 of nesting there. `Memory`
/// may come at any tokens, where memory runs out.
pub fn parse_file(alloc: Global, tokens: &TokenList) -> Result<FileTree, ParseFault>
    // The tree or the fault is that of the tokens.
    ensures reads { ReadsAll (Spells productions 0 file_grammar) (λ t. t) tokens.now result }
    // Their tree is given, unless memory runs out.
    ensures only { GivesTree (Spells productions 0 file_grammar) tokens.now result }
    // Their fault is given, unless memory runs out.
    ensures only_fault { GivesFault (Spells productions 0 file_grammar) tokens.now result }
{
    let mut cursor = Tokens::of(tokens.items());
    let read = file(alloc, &mut cursor, MOST_LEVELS);
    let Tokens { rest } = cursor;
    whole(tokens, read, rest)
}

/// The tree of a script, which all the tokens spell.
///
/// `Syntax` comes exactly where no script begins with the tokens and goes on as they do: at the first token
/// that no script has after those before it, or at the end of the tokens where a script needs more. `Deep`
/// comes where each script that begins with the tokens before it opens level 101 of nesting there. `Memory`
/// may come at any tokens, where memory runs out.
pub fn parse_script(alloc: Global, tokens: &TokenList) -> Result<ScriptTree, ParseFault>
    // The tree or the fault is that of the tokens.
    ensures reads { ReadsAll (Spells productions 0 script_grammar) (λ t. t) tokens.now result }
    // Their tree is given, unless memory runs out.
    ensures only { GivesTree (Spells productions 0 script_grammar) tokens.now result }
    // Their fault is given, unless memory runs out.
    ensures only_fault { GivesFault (Spells productions 0 script_grammar) tokens.now result }
{
    let mut cursor = Tokens::of(tokens.items());
    let read = script(alloc, &mut cursor, MOST_LEVELS);
    let Tokens { rest } = cursor;
    whole(tokens, read, rest)
}

/// The tree that was read, if no token is left after it; else the fault.
fn whole<X: Drop>(
    tokens: &TokenList,
    read: Result<X, Halt>,
    rest: &[Placed],
) -> Result<X, ParseFault>
    ensures { result ≡ whole_of tokens.now read rest.now }
{
    match read {
        Ok(tree) => match rest {
            [] => Ok(tree),
            _ => Err(fault_of(tokens, Halt::Syntax(rest.len()))),
        },
        Err(halt) => Err(fault_of(tokens, halt)),
    }
}
