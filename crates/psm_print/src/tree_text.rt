//! The text of a tree.
ghost use Rattle.std.specs.Prelude.{IfOk, string_bytes};
ghost use Rattle.psm_print.specs.Printing.{IsSpelledTree, IsFileOfTree};

use crate::files::file;
use psm_spell::Writer;
use psm_tree::FileTree;
use std::alloc::{AllocError, Global};

/// The text of a module file with that tree, by the shortest of its spellings: each name is delimited, words
/// that may be left out are left out, a line ends after each semicolon, and a blank stands between two tokens
/// else (ISO/IEC 9075-4:1996, module definitions).
///
/// The tree is to be one that some tokens spell, wherever they stand: tokens that can be written, 2,000,000 at
/// most. The tokens of the text spell a tree that is this one, up to positions, so that reading the text gives
/// the tree again but for the places; set where the tree has its parts, they spell exactly it.
///
/// # Errors
/// Out of memory alone.
pub fn print(alloc: Global, tree: &FileTree) -> Result<String, AllocError>
    requires { IsSpelledTree tree.now }
    ensures { IfOk result (λ text. IsFileOfTree (string_bytes text) tree.now) }
{
    let mut out = Writer::new(alloc);
    file(&mut out, tree)?;
    Ok(out.into_text())
}
