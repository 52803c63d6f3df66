//! The runs of a case over a store.
ghost use Rattle.std.specs.Prelude.{◌≡◌, IfSome};
ghost use Rattle.psm_code.specs.MachineInvariant.{AreLawful};
ghost use Rattle.psm_build.specs.Outcome.{CanRun, empty_tables};

use crate::case::{Case, DEFAULT_TURNS};
use crate::program::Program;
use crate::sink::{FrailSink, Trouble};
use anyhow::{Result, bail};
use psm_build::{Code, ScriptCode};
use psm_session::{ScriptEnd, run_script};
use psm_store::Store;
use std::alloc::{AllocError, Global};

/// What the scripts of a case write, and how they end, over the tables of a store.
pub fn run_session<S: Store>(
    alloc: Global,
    case: &Case,
    program: &Program,
    store: &mut S,
) -> Result<String>
    requires first { CanRun program.now.code program.now.script.commands }
    requires second { IfSome program.now.following (λ s. CanRun program.now.code s.commands) }
    requires empty { S.tables store.old ≡ empty_tables program.now.code }
    requires unmarked { S.marks store.old ≡ 0 }
{
    let mut text = Vec::new(alloc);
    run(
        alloc,
        &program.code,
        &program.script,
        case.turns,
        case.trouble,
        store,
        &mut text,
    )?;
    match &program.following {
        Some(following) => run(
            alloc,
            &program.code,
            following,
            DEFAULT_TURNS,
            None,
            store,
            &mut text,
        )?,
        None => {}
    }
    match String::from_utf8(text) {
        Ok(text) => Ok(text),
        Err(_) => bail!("a character is cut"),
    }
}

// Runs a script, and answers what it wrote and how it ended.
fn run<S: Store>(
    alloc: Global,
    code: &Code,
    script: &ScriptCode,
    turns: u64,
    trouble: Option<Trouble>,
    store: &mut S,
    text: &mut Vec<u8>,
) -> Result<(), AllocError>
    requires runs { CanRun code.now script.now.commands }
    requires kept { AreLawful code.now (S.tables store.old) }
    requires unmarked { S.marks store.old ≡ 0 }
    ensures kept { AreLawful code.now (S.tables store.new) }
    ensures unmarked { S.marks store.new ≡ 0 }
{
    let mut out = FrailSink::new(alloc, trouble)?;
    let mut left = turns;
    let end = run_script(alloc, code, script, store, &mut out, &mut left);
    print_written(out.bytes(), text)?;
    print_end(end, text)
}

fn print_written(written: &[u8], text: &mut Vec<u8>) -> Result<(), AllocError> {
    text.extend_from_slice(written)?;
    match written.last() {
        None => Ok(()),
        Some(b'\n') => Ok(()),
        Some(_) => text.extend_from_slice(b" ..\n"),
    }
}

fn print_end(end: ScriptEnd, text: &mut Vec<u8>) -> Result<(), AllocError> {
    text.extend_from_slice(match end {
        ScriptEnd::Done => b"= done\n".as_slice(),
        ScriptEnd::TurnsUsed => b"= turns used\n",
        ScriptEnd::WriteFault => b"= write fault\n",
        ScriptEnd::Memory => b"= no memory\n",
    })
}
