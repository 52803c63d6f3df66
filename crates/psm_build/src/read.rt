//! From the bytes of a file to its tree.
ghost use Rattle.std.specs.Prelude.{◌<◌, length};
ghost use Rattle.psm_faults.specs.Source.{module_files, scripts};
ghost use Rattle.psm_build.specs.Building.{ReadsTokens, ReadsTree};

use psm_faults::{BuildFault, refused_tokens, refused_tree};
use psm_parse_file::{parse_file, parse_script};
use psm_token::{TokenList, tokens};
use psm_tree::{FileTree, ScriptTree};
use std::alloc::Global;

/// The tokens of a file.
#[tactic(auto, using(crate::proofs::Reading::tokens_refused))]
fn tokens_of(alloc: Global, bytes: &[u8]) -> Result<TokenList, BuildFault>
    requires { length bytes.now < 4294967295 }
    ensures { ReadsTokens bytes.now result }
{
    match tokens(alloc, bytes) {
        Ok(tokens) => Ok(tokens),
        Err(fault) => Err(refused_tokens(fault)),
    }
}

/// The tree of a module file.
#[tactic(auto, using(crate::proofs::Reading::tree_refused))]
pub(crate) fn module_tree(alloc: Global, bytes: &[u8]) -> Result<FileTree, BuildFault>
    requires { length bytes.now < 4294967295 }
    ensures { ReadsTree module_files bytes.now result }
{
    let tokens = tokens_of(alloc, bytes)?;
    match parse_file(alloc, &tokens) {
        Ok(tree) => Ok(tree),
        Err(fault) => Err(refused_tree(fault)),
    }
}

/// The tree of a script.
#[tactic(auto, using(crate::proofs::Reading::tree_refused))]
pub(crate) fn script_tree(alloc: Global, bytes: &[u8]) -> Result<ScriptTree, BuildFault>
    requires { length bytes.now < 4294967295 }
    ensures { ReadsTree scripts bytes.now result }
{
    let tokens = tokens_of(alloc, bytes)?;
    match parse_script(alloc, &tokens) {
        Ok(tree) => Ok(tree),
        Err(fault) => Err(refused_tree(fault)),
    }
}
