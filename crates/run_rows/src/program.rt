//! The code of a case and its scripts.
ghost use Rattle.std.specs.Prelude.{IfOk, IfSome};
ghost use Rattle.psm_build.specs.Outcome.{CanRun};
ghost use Rattle.run_rows.specs.Built.{IsBuilt};

use crate::case::Case;
use psm_build::{BuildFault, Code, Fault, ScriptCode, build, build_script};
use std::alloc::{AllocError, Global};

/// The code of a case, its script, and the one that is run after that.
#[derive(Drop)]
pub struct Program {
    pub code: Code,
    pub script: ScriptCode,
    pub following: Option<ScriptCode>,
}

/// Why a case isn't run.
#[derive(Drop)]
pub enum Refusal {
    /// A file is refused with this line.
    Reported(String),
    /// A file is too long.
    Long,
    Memory,
}

impl From<AllocError> for Refusal {
    fn from(_error: AllocError) -> Refusal {
        Refusal::Memory
    }
}

/// The code of a case and its scripts.
pub fn prepare(alloc: Global, case: &Case) -> Result<Program, Refusal>
    ensures first { IfOk result (λ p. CanRun p.code p.script.commands) }
    ensures second { IfOk result (λ p. IfSome p.following (λ s. CanRun p.code s.commands)) }
{
    let code = code_of(alloc, case.module.as_bytes())?;
    let script = script_over(alloc, &code, case.script.as_bytes())?;
    let following = match &case.following {
        Some(following) => Some(script_over(alloc, &code, following.as_bytes())?),
        None => None,
    };
    Ok(Program {
        code,
        script,
        following,
    })
}

// The code of a module file.
#[tactic(auto, using(crate::proofs::Runnable::built))]
fn code_of(alloc: Global, bytes: &[u8]) -> Result<Code, Refusal>
    ensures { IfOk result IsBuilt }
{
    if bytes.len() >= 4_294_967_295 {
        return Err(Refusal::Long);
    }
    match build(alloc, bytes) {
        Ok(code) => Ok(code),
        Err(fault) => Err(refused(alloc, "module", fault)),
    }
}

// A script over the code.
fn script_over(alloc: Global, code: &Code, bytes: &[u8]) -> Result<ScriptCode, Refusal>
    requires { IsBuilt code.now }
    ensures { IfOk result (λ s. CanRun code.now s.commands) }
{
    if bytes.len() >= 4_294_967_295 {
        return Err(Refusal::Long);
    }
    match build_script(alloc, code, bytes) {
        Ok(script) => Ok(script),
        Err(fault) => Err(refused(alloc, "script", fault)),
    }
}

// The refusal of a file.
fn refused(alloc: Global, file: &str, fault: BuildFault) -> Refusal {
    match fault {
        BuildFault::Refused {
            line,
            column,
            fault,
        } => match fault_line(alloc, file, line, column, fault) {
            Ok(line) => Refusal::Reported(line),
            Err(_) => Refusal::Memory,
        },
        BuildFault::Memory => Refusal::Memory,
    }
}

fn fault_line(
    alloc: Global,
    file: &str,
    line: u32,
    column: u32,
    fault: Fault,
) -> Result<String, AllocError> {
    let text = fault.text();
    format!(in alloc; "{file} {line}:{column} {text}\n")
}
