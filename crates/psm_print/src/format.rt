//! From the bytes of a module file to its text.
ghost use Rattle.std.specs.Prelude.{◌<◌, length};
ghost use Rattle.psm_print.specs.Formatting.{Formats};

use crate::tree_text::print;
use psm_parse_file::parse_file;
use psm_token::{LexFault, tokens};
use psm_tree::ParseFault;
use std::alloc::{AllocError, Global};

/// Why a module file isn't written anew.
#[derive(Clone, Copy, Debug, PartialEq, Eq)]
pub enum FormatFault {
    /// The file has no tokens.
    Lex(LexFault),
    /// Its tokens spell no tree within the limit of nesting.
    Parse(ParseFault),
    /// There is no memory for the text.
    Memory,
}

impl From<AllocError> for FormatFault {
    ghost use Rattle.std.specs.Prelude.{◌≡◌};
    ghost use Rattle.psm_print.specs.declared.format.FormatFault.TheVariants.{Memory};

    ghost from_gives = { λ _ e. e ≡ Memory };

    fn from(_error: AllocError) -> FormatFault {
        FormatFault::Memory
    }
}

/// The text of a module file, printed anew (ISO/IEC 9075-4:1996, module definitions): without comments and
/// words that mean nothing, each name delimited, a line for each semicolon.
///
/// The text is a file whose tokens spell, up to positions, exactly the tree of the file that was read.
///
/// # Errors
/// `Lex` with the first fault of the file's tokens; `Parse` with the place where they stop to spell a module
/// file, or open level 101; `Memory`.
pub fn format_module(alloc: Global, bytes: &[u8]) -> Result<String, FormatFault>
    requires { length bytes.now < 4294967295 }
    ensures { Formats bytes.now result }
{
    let list = match tokens(alloc, bytes) {
        Ok(list) => list,
        Err(fault) => return Err(FormatFault::Lex(fault)),
    };
    match parse_file(alloc, &list) {
        Ok(tree) => Ok(print(alloc, &tree)?),
        Err(fault) => Err(FormatFault::Parse(fault)),
    }
}
