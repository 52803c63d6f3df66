//! Expressions over columns and variables of known letters (ISO/IEC 9075:1992, clause 6).
ghost use Rattle.std.specs.Prelude.{◌≡◌, ◌&&◌, IfOk};
ghost use Rattle.psm_exprcode.specs.Kinds.{some_letter};
ghost use Rattle.psm_code.specs.Instructions.{known_end as known_end_of};
ghost use Rattle.psm_code.specs.TableRules as rules;
ghost use Rattle.psm_verify.specs.Checked.{Finds, checked};
ghost use Rattle.psm_verify.specs.Placed.{due_of, is_due_end};

use crate::fault::{CodeFault, Stop};
use crate::listing::{next, skip};
use crate::placed::{EndTest, Placed};
use psm_code::CodeRule;
use psm_exprcode::{ExprCode, Letter};
use std::alloc::{AllocError, Global};

/// The letters with which an expression may end.
#[derive(Clone, Copy, Debug, PartialEq, Eq)]
pub(crate) enum Due {
    /// That of a number or that of a text.
    Value,
    Only(Letter),
}

impl Due {
    fn is(self, letter: Letter) -> bool
        ensures { result ≡ due_of self letter }
    {
        match self {
            Due::Value => letter != Letter::B,
            Due::Only(due) => due == letter,
        }
    }
}

/// The letter with which an expression over columns and variables of these letters ends, if it fits them.
pub(crate) fn known_end(columns: &[Letter], variables: &[Letter], code: &ExprCode) -> Option<Letter>
    ensures { result ≡ known_end_of columns.now variables.now code.now }
{
    if code.fits(columns, variables, Letter::N) {
        Some(Letter::N)
    } else if code.fits(columns, variables, Letter::T) {
        Some(Letter::T)
    } else if code.fits(columns, variables, Letter::B) {
        Some(Letter::B)
    } else {
        None
    }
}

/// An expression: its own line, and those of its code. One that fits is seen as a whole, and its lines are looked at one by one only
/// where it doesn't.
#[tactic(auto, using(crate::proofs::Placing::passing_is))]
pub(crate) fn expression(
    alloc: Global,
    line: u64,
    columns: &[Letter],
    variables: &[Letter],
    due: Due,
    code: &ExprCode,
) -> Result<u64, Stop>
    ensures { Finds (checked line (rules.expr_faults columns.now variables.now (due_of due) code.now)) result }
{
    if is_due(due, known_end(columns, variables, code)) {
        skip(next(line)?, code.lines().len())
    } else {
        let lines = code.lines();
        unknown(
            alloc,
            line,
            due,
            Placed {
                lines,
                columns,
                variables,
            },
        )
    }
}

// Whether there is a letter, and it is due.
fn is_due(due: Due, end: Option<Letter>) -> bool
    ensures { result ≡ is_due_end (due_of due) end }
{
    match end {
        Some(end) => due.is(end),
        None => false,
    }
}

// One that doesn't fit, or ends with another letter.
fn unknown(alloc: Global, line: u64, due: Due, placed: Placed<'_>) -> Result<u64, Stop>
    ensures { Finds (checked line (rules.expr_faults placed.entry.columns.now placed.entry.variables.now (due_of due) placed.entry.lines.now)) result }
{
    if ends_due(alloc, due, &placed)? {
        placed.each(alloc, next(line)?)
    } else {
        Err(Stop::Fault(CodeFault {
            line,
            rule: CodeRule::Stack,
        }))
    }
}

// Whether some line goes on at the end, and those that do bring one operand there, of one letter that is due. That isn't asked where
// one of them breaks a rule by itself.
fn ends_due(alloc: Global, due: Due, placed: &Placed<'_>) -> Result<bool, AllocError>
    ensures { IfOk result (λ b. b ≡ rules.ends_due placed.now.columns.now placed.now.variables.now (due_of due) placed.now.lines.now) }
{
    if !placed.at_ends(alloc, EndTest::Faultless)? {
        return Ok(true);
    }
    if placed.at_ends(alloc, EndTest::Absent)? {
        return Ok(false);
    }
    some_bring(alloc, due, placed)
}

fn some_bring(alloc: Global, due: Due, placed: &Placed<'_>) -> Result<bool, AllocError>
    ensures { IfOk result (λ b. b ≡ some_letter (λ k. due_of due k && rules.all_bring placed.now.columns.now placed.now.variables.now placed.now.lines.now k)) }
{
    if all_bring(alloc, due, placed, Letter::N)? {
        return Ok(true);
    }
    if all_bring(alloc, due, placed, Letter::T)? {
        return Ok(true);
    }
    all_bring(alloc, due, placed, Letter::B)
}

fn all_bring(
    alloc: Global,
    due: Due,
    placed: &Placed<'_>,
    letter: Letter,
) -> Result<bool, AllocError>
    ensures { IfOk result (λ b. b ≡ (due_of due letter && rules.all_bring placed.now.columns.now placed.now.variables.now placed.now.lines.now letter)) }
{
    if due.is(letter) {
        placed.at_ends(alloc, EndTest::Brings(letter))
    } else {
        Ok(false)
    }
}
