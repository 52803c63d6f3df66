//! That all bytes and all tokens are read, or have a fault.
ghost use Rattle.std.specs.Prelude.{ℕ, List};
ghost use Rattle.psm_token.specs.Listed.{Tokens};
ghost use Rattle.psm_grammar.specs.Grammar.{Spells};
ghost use Rattle.psm_tree.specs.FileGrammar.{file, script};
ghost use Rattle.psm_tree.specs.Productions.{productions};
ghost use Rattle.psm_total.specs.Total.{TokensOrFault, TreeOrFault};

/// All bytes spell tokens or have a first fault, and all tokens spell a tree or have a fault other than out of memory.
pub fn files_are_read()
    // Tokens and separators up to the end, or the first token that is faulty (ISO/IEC 9075:1992, 5.1 to 5.4).
    ensures tokens { (bytes : List ℕ) → TokensOrFault bytes }
    // Tables and a module (ISO/IEC 9075:1992, 11.3; ISO/IEC 9075-4:1996), or the first token that these don't go on with, or that opens a level too many.
    ensures module_files { (tokens : Tokens) → TreeOrFault (Spells productions 0 file) tokens }
    // The commands of a script, or the first token that these don't go on with, or that opens a level too many.
    ensures scripts { (tokens : Tokens) → TreeOrFault (Spells productions 0 script) tokens }
{}
