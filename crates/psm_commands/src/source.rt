//! From the names of files to code and the commands of a script, or the first thing that fails.
ghost use Rattle.std.specs.Prelude.{◌≡◌, ◌≤◌, ℕ, List as Seq, length};
ghost use Rattle.psm_build.specs.ModuleCode.{IsScriptFaultOver};
ghost use Rattle.psm_build.specs.Program.{IsModuleFault, StandsFor};
ghost use Rattle.psm_files.specs.Fetches.{fetches_of, most_bytes};
ghost use Rattle.psm_load.specs.Loading.{IsObject};
ghost use Rattle.psm_commands.specs.Reading.{GivesBytes, GivesModule, GivesObject, GivesScript, IsFaultOf, IsFaultOfObject, IsScriptBy, Makes, refusal_of, refusal_of_load};
ghost use Rattle.psm_commands.specs.declared.source.Which.TheVariants as which;

use psm_build::{BuildFault, Code, Fault, ScriptCode, build, build_script};
use psm_files::{FetchFault, fetch};
use psm_io::Shelf;
use psm_load::{LoadFault, ObjectFault, load};
use std::alloc::Global;

/// Which kind of source file.
#[derive(Clone, Copy, Debug, PartialEq, Eq)]
pub enum Which {
    Module,
    Script,
}

/// Why a file gives no code and no script.
#[derive(Clone, Copy, Debug, PartialEq, Eq)]
pub enum Refusal {
    /// The file could not be read.
    Unread,
    /// The file is too long.
    TooLong,
    /// The module file or the script has this first fault, at that line and column.
    Refused {
        which: Which,
        line: u32,
        column: u32,
        fault: Fault,
    },
    /// The file is no object, by this fault of that line.
    NoObject {
        line: u32,
        fault: ObjectFault,
    },
    Memory,
}

/// The code of the module file of that name. Its length decides before its content.
pub(crate) fn module_code<F: Shelf>(
    alloc: Global,
    name: &str,
    shelf: &mut F,
) -> Result<Code, Refusal>
    ensures gives { GivesModule (fetches_of F.held F.faults shelf.old shelf.new) name.now result }
    ensures held { (n : Seq ℕ) → F.held shelf.new n ≡ F.held shelf.old n }
{
    let bytes = bytes_of(alloc, name, shelf)?;
    code_of(alloc, &bytes)
}

/// The code that the object of that name lists. Its length decides before its content.
pub(crate) fn object_code<F: Shelf>(
    alloc: Global,
    name: &str,
    shelf: &mut F,
) -> Result<Code, Refusal>
    ensures gives { GivesObject (fetches_of F.held F.faults shelf.old shelf.new) name.now result }
    ensures held { (n : Seq ℕ) → F.held shelf.new n ≡ F.held shelf.old n }
{
    let bytes = bytes_of(alloc, name, shelf)?;
    loaded(alloc, &bytes)
}

/// The commands of the script of that name over the code. Its length decides before its content.
pub(crate) fn script_over<F: Shelf>(
    alloc: Global,
    code: &Code,
    name: &str,
    shelf: &mut F,
) -> Result<ScriptCode, Refusal>
    ensures { GivesScript (fetches_of F.held F.faults shelf.old shelf.new) code.now name.now result }
{
    let bytes = bytes_of(alloc, name, shelf)?;
    commands_of(alloc, code, &bytes)
}

// The bytes of a file.
fn bytes_of<F: Shelf>(alloc: Global, name: &str, shelf: &mut F) -> Result<Vec<u8>, Refusal>
    ensures gives { GivesBytes (fetches_of F.held F.faults shelf.old shelf.new) name.now result }
    ensures held { (n : Seq ℕ) → F.held shelf.new n ≡ F.held shelf.old n }
{
    match fetch(alloc, name, shelf) {
        Ok(bytes) => Ok(bytes),
        Err(FetchFault::Unread) => Err(Refusal::Unread),
        Err(FetchFault::TooLong) => Err(Refusal::TooLong),
        Err(FetchFault::Memory) => Err(Refusal::Memory),
    }
}

/// The code of a module file's bytes.
pub(crate) fn code_of(alloc: Global, bytes: &[u8]) -> Result<Code, Refusal>
    requires { length bytes.now ≤ most_bytes }
    ensures { Makes (StandsFor bytes.now) (IsFaultOf which.Module (IsModuleFault bytes.now)) result }
{
    match build(alloc, bytes) {
        Ok(code) => Ok(code),
        Err(fault) => Err(refused_by(Which::Module, fault)),
    }
}

// The code that an object's bytes list.
fn loaded(alloc: Global, bytes: &[u8]) -> Result<Code, Refusal>
    requires { length bytes.now ≤ most_bytes }
    ensures { Makes (IsObject bytes.now) (IsFaultOfObject bytes.now) result }
{
    match load(alloc, bytes) {
        Ok(code) => Ok(code),
        Err(fault) => Err(not_loaded_by(fault)),
    }
}

/// The commands of a script's bytes over the code.
pub(crate) fn commands_of(alloc: Global, code: &Code, bytes: &[u8]) -> Result<ScriptCode, Refusal>
    requires { length bytes.now ≤ most_bytes }
    ensures { Makes (IsScriptBy code.now bytes.now) (IsFaultOf which.Script (IsScriptFaultOver code.now bytes.now)) result }
{
    match build_script(alloc, code, bytes) {
        Ok(script) => Ok(script),
        Err(fault) => Err(refused_by(Which::Script, fault)),
    }
}

// The refusal of a file that the build refuses.
fn refused_by(which: Which, fault: BuildFault) -> Refusal
    ensures { result ≡ refusal_of which fault }
{
    match fault {
        BuildFault::Refused {
            line,
            column,
            fault,
        } => Refusal::Refused {
            which,
            line,
            column,
            fault,
        },
        BuildFault::Memory => Refusal::Memory,
    }
}

// The refusal of a file that isn't loaded.
fn not_loaded_by(fault: LoadFault) -> Refusal
    ensures { result ≡ refusal_of_load fault }
{
    match fault {
        LoadFault::Refused { line, fault } => Refusal::NoObject { line, fault },
        LoadFault::Memory => Refusal::Memory,
    }
}
