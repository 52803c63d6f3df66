//! The command `gen`: a summary of a session of generated calls.
ghost use Rattle.std.specs.Prelude.{◌≡◌, ◌≤◌, ◌++◌, IfOk, OnOk, length};
ghost use Rattle.psm_build.specs.ModuleCode.{IsScriptFaultOver};
ghost use Rattle.psm_build.specs.Outcome.{CanRun, empty_tables};
ghost use Rattle.psm_build.specs.Program.{IsModuleFault, StandsFor};
ghost use Rattle.psm_files.specs.Answer.{PutsLine, Says};
ghost use Rattle.psm_files.specs.Fetches.{Fetches, NoneFailed, most_bytes};
ghost use Rattle.psm_files.specs.Given.{as_fetched};
ghost use Rattle.psm_session.specs.Ends.{EndsWith, beginning};
ghost use Rattle.psm_session.specs.Put.{sunk_of};
ghost use Rattle.psm_commands.specs.Generate.{ForGenerate, after_line, expected_after, first_line_of, line_length, summary};
ghost use Rattle.psm_commands.specs.Generated.{generated_call, generated_module, generated_script, generated_turns, most_calls};
ghost use Rattle.psm_commands.specs.Reading.{Generates, IsFaultOf, IsScriptBy, Makes};
ghost use Rattle.psm_commands.specs.declared.source.Which.TheVariants.{Module, Script};

use crate::refusal::report;
use crate::session_run::empty_store;
use crate::source::{Refusal, code_of, commands_of};
use itoa::Buffer;
use psm_build::{Code, ScriptCode, code_means_its_module};
use psm_code_session::code_has_the_sessions_of_its_module;
use psm_files::{Status, put_line};
use psm_io::Sink;
use psm_session::{SilentEnd, run_silently};
use std::alloc::{AllocError, Global};

/// The module file. Its procedure inserts a row, or adds to the row that has the key.
const MODULE: &str =
    "CREATE TABLE t (k INTEGER PRIMARY KEY, v NUMERIC(18,0), n INTEGER);\nCREATE MODULE gen\nPROCEDURE put (IN pk INTEGER, IN pv INTEGER) BEGIN\n  DECLARE EXIT HANDLER FOR SQLSTATE '23000' UPDATE t SET v = v + pv, n = n + 1 WHERE k = pk;\n  INSERT INTO t VALUES (pk, pv, 1);\nEND;\nEND MODULE\n";

/// The most calls of a generated script.
pub const MOST_CALLS: u32 = 200_000;

/// The turns of the session.
const TURNS: u64 = 1_000_000;

/// Runs a script of that many calls over a module file of its own, and puts how many there were, the turns that they used, and the row
/// that they leave.
pub(crate) fn generate<K: Sink>(alloc: Global, calls: u32, out: &mut K) -> Status
    requires { calls ≤ most_calls }
    ensures { (fetches : Fetches) → NoneFailed fetches → Says (ForGenerate (as_fetched fetches) calls) (sunk_of K.written K.faults out.old out.new) result }
{
    match session(alloc, calls) {
        Ok(end) => put_summary(alloc, calls, &end, out),
        Err(refusal) => report(alloc, "", refusal, out),
    }
}

// The end of the session.
fn session(alloc: Global, calls: u32) -> Result<SilentEnd, Refusal>
    requires { calls ≤ most_calls }
    ensures { Generates calls result }
{
    match module_code(alloc) {
        Ok(code) => session_over(alloc, &code, calls),
        Err(refusal) => Err(refusal),
    }
}

// The code of the module file.
fn module_code(alloc: Global) -> Result<Code, Refusal>
    ensures { Makes (StandsFor generated_module) (IsFaultOf Module (IsModuleFault generated_module)) result }
{
    code_of(alloc, MODULE.as_bytes())
}

// The end of the session over the code of the module file.
fn session_over(alloc: Global, code: &Code, calls: u32) -> Result<SilentEnd, Refusal>
    requires few { calls ≤ most_calls }
    requires stands { StandsFor generated_module code.now }
    ensures { Generates calls result }
{
    code_means_its_module();
    code_has_the_sessions_of_its_module();
    match script_over(alloc, code, calls) {
        Ok(script) => match run(alloc, code, &script) {
            Ok(end) => Ok(end),
            Err(_) => Err(Refusal::Memory),
        },
        Err(refusal) => Err(refusal),
    }
}

// The commands of a script of that many calls over the code.
fn script_over(alloc: Global, code: &Code, calls: u32) -> Result<ScriptCode, Refusal>
    requires { calls ≤ most_calls }
    ensures { Makes (IsScriptBy code.now (generated_script calls)) (IsFaultOf Script (IsScriptFaultOver code.now (generated_script calls))) result }
{
    match script_text(alloc, calls) {
        Ok(text) => commands_of(alloc, code, &text),
        Err(_) => Err(Refusal::Memory),
    }
}

// Runs the commands over the code and empty tables.
fn run(alloc: Global, code: &Code, script: &ScriptCode) -> Result<SilentEnd, AllocError>
    requires { CanRun code.now script.now.commands }
    ensures { IfOk result (λ e. EndsWith code.now script.now.commands (beginning (empty_tables code.now) generated_turns) e.last.goes_on e.last.piece.items e.turns) }
{
    let store = empty_store(alloc, code)?;
    run_silently(alloc, code, script, store, TURNS)
}

// The text of a script of that many calls.
fn script_text(alloc: Global, calls: u32) -> Result<Vec<u8>, AllocError>
    requires { calls ≤ most_calls }
    ensures text { IfOk result (λ text. text.items ≡ generated_script calls) }
    ensures short { IfOk result (λ text. length text.items ≤ most_bytes) }
{
    let mut text = Vec::new(alloc);
    for call in 0..calls {
        push_call(&mut text, call + 1)?;
    }
    text.extend_from_slice(b"SELECT COUNT(*), SUM(v) FROM t;\n")?;
    Ok(text)
}

// The call with that number.
fn push_call(text: &mut Vec<u8>, number: u32) -> Result<(), AllocError>
    ensures { OnOk result (text.new.items ≡ text.old.items ++ generated_call number) }
{
    text.extend_from_slice(b"CALL put(")?;
    text.extend_from_slice(Buffer::new().format(number % 97).as_bytes())?;
    text.extend_from_slice(b", ")?;
    text.extend_from_slice(Buffer::new().format(number).as_bytes())?;
    text.extend_from_slice(b");\n")?;
    Ok(())
}

// Puts the summary of a session, or that its turns ran out.
fn put_summary<K: Sink>(alloc: Global, calls: u32, end: &SilentEnd, out: &mut K) -> Status
    ensures { PutsLine (expected_after calls end.now.last.goes_on end.now.last.piece.items end.now.turns) (sunk_of K.written K.faults out.old out.new) result }
{
    if !end.last.goes_on {
        return put_line(b"TURNS USED\n", Status::TurnsUsed, out);
    }
    let used = TURNS.saturating_sub(end.turns);
    match summary(alloc, calls, used, &end.last.piece) {
        Ok(lines) => put_line(&lines, Status::Done, out),
        Err(_) => Status::Memory,
    }
}

// How many calls there were, the turns that they used, and the second line of the last piece.
fn summary(alloc: Global, calls: u32, used: u64, piece: &[u8]) -> Result<Vec<u8>, AllocError>
    ensures { IfOk result (λ lines. lines.items ≡ summary calls used piece.now) }
{
    let mut lines = Vec::from_slice(alloc, b"CALLS ")?;
    lines.extend_from_slice(Buffer::new().format(calls).as_bytes())?;
    lines.extend_from_slice(b"\nTURNS ")?;
    lines.extend_from_slice(Buffer::new().format(used).as_bytes())?;
    lines.extend_from_slice(b"\n")?;
    lines.extend_from_slice(first_line(after_line(piece)))?;
    Ok(lines)
}

fn after_line(text: &[u8]) -> &[u8]
    ensures { result.now ≡ after_line text.now }
{
    &text[line_length(text)..]
}

fn first_line(text: &[u8]) -> &[u8]
    ensures { result.now ≡ first_line_of text.now }
{
    &text[..line_length(text)]
}

// How many bytes the first line has, with its line feed.
fn line_length(text: &[u8]) -> usize
    ensures length { result ≡ line_length text.now }
    ensures inside { result ≤ length text.now }
{
    for (index, byte) in text.iter().enumerate() {
        if *byte == b'\n' {
            return index + 1;
        }
    }
    text.len()
}
