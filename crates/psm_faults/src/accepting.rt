//! Whether the tree of a module file has a fault.
ghost use Rattle.psm_faults.specs.Source.{Accepts};

use crate::fault::{BuildFault, refused_rule};
use psm_check_stmt::file_fault;
use psm_tree::FileTree;
use std::alloc::Global;

/// Accepts the tree of a module file (ISO/IEC 9075:1992, the syntax rules, and ISO/IEC 9075-4:1996, module definitions).
///
/// # Errors
/// `Refused` exactly where a part of the tree breaks a rule, with the earliest such part. `Memory`.
pub fn accept(alloc: Global, tree: &FileTree) -> Result<(), BuildFault>
    ensures { Accepts tree.now result }
{
    match file_fault(alloc, tree) {
        Ok(None) => Ok(()),
        Ok(Some(fault)) => Err(refused_rule(fault)),
        Err(_) => Err(BuildFault::Memory),
    }
}
