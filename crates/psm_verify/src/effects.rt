//! What the instructions of a routine take from the operands, and what they put in their place.
ghost use Rattle.std.specs.Prelude.{◌≡◌, ◌++◌, ◌&&◌, ◌<◌, length, reverse, slice_get, option_map, Some, IfOk};
ghost use Rattle.std.specs.Option.{option_copied};
ghost use Rattle.psm_exprcode.specs.WellFormed.{left_of, same_stack};
ghost use Rattle.psm_code.specs.Parts.{line_at};
ghost use Rattle.psm_code.specs.RoutineRules.{is_stated, stated_fall_through, stated_branch};
ghost use Rattle.psm_verify.specs.Moves.{fall_through_of, branch_of, effect_of, moves_follow, run_of};

use psm_code::{Lines, RawRoutine};
use psm_exprcode::{Letter, Letters};
use psm_verify_line::{are_same, are_stated, left};
use std::alloc::{AllocError, Global};

/// Letters of operands, the last one first.
#[derive(Clone, Copy)]
pub(crate) enum Run<'a> {
    Few(Letters),
    Items(&'a [Letter]),
}

/// What an instruction takes, what it puts where it goes on at the line that follows, if it ever does, and the line at which it may go
/// on instead, with what it puts there.
#[derive(Clone, Copy)]
pub(crate) struct Effect<'a> {
    pub(crate) takes: Run<'a>,
    pub(crate) fall_through: Option<Run<'a>>,
    pub(crate) branching: Option<(u32, Run<'a>)>,
}

/// The operands that a line states, the last one first.
pub(crate) fn operands_of(
    alloc: Global,
    lines: &Lines,
    at: usize,
) -> Result<Vec<Letter>, AllocError>
    requires { at < length lines.now }
    ensures { IfOk result (λ letters. Some letters.items ≡ option_map (λ l. reverse l.stack) (slice_get lines.now at)) }
{
    let mut letters = Vec::new(alloc);
    lines.stack(at, &mut letters)?;
    letters.reverse();
    Ok(letters)
}

// The same, if the line is there.
fn operands_at(alloc: Global, lines: &Lines, at: usize) -> Result<Option<Vec<Letter>>, AllocError>
    ensures { IfOk result (λ letters. option_map (λ v. v.items) letters ≡ option_map (λ l. reverse l.stack) (slice_get lines.now at)) }
{
    if at < lines.len() {
        Ok(Some(operands_of(alloc, lines, at)?))
    } else {
        Ok(None)
    }
}

pub(crate) fn left_by<'a>(stack: &'a [Letter], taken: &[Letter]) -> Option<&'a [Letter]>
    ensures { option_copied result ≡ left_of taken.now stack.now }
{
    let mut rest = stack;
    let mut more = taken;
    while let Some((letter, others)) = more.split_first() {
        match rest.split_first() {
            Some((last, below)) if *letter == *last => rest = below,
            _ => return None,
        }
        more = others;
    }
    Some(rest)
}

/// What is left of the operands where a run is taken; none where other letters stand there.
pub(crate) fn left_run<'a>(stack: &'a [Letter], taken: Run<'_>) -> Option<&'a [Letter]>
    ensures { option_copied result ≡ left_of (run_of taken.entry) stack.now }
{
    match taken {
        Run::Few(letters) => left(stack, letters),
        Run::Items(letters) => left_by(stack, letters),
    }
}

#[tactic(auto, using(psm_exprcode::proofs::Stripping::same_on_some, psm_exprcode::proofs::Stripping::same_on_none))]
fn are_items_stated(put: &[Letter], below: &[Letter], stated: &[Letter]) -> bool
    ensures { result ≡ same_stack (put.now ++ below.now) stated.now }
{
    match left_by(stated, put) {
        Some(rest) => are_same(below, rest),
        None => false,
    }
}

fn is_run_stated(put: Run<'_>, below: &[Letter], stated: &[Letter]) -> bool
    ensures { result ≡ same_stack (run_of put.entry ++ below.now) stated.now }
{
    match put {
        Run::Few(letters) => are_stated(letters, below, stated),
        Run::Items(letters) => are_items_stated(letters, below, stated),
    }
}

// Whether the operands are those that a line states, if it is there.
fn lands(
    alloc: Global,
    routine: &RawRoutine,
    index: usize,
    put: Run<'_>,
    rest: &[Letter],
) -> Result<bool, AllocError>
    ensures { IfOk result (λ b. b ≡ is_stated (line_at routine.now index) (run_of put.entry ++ rest.now)) }
{
    match operands_at(alloc, &routine.lines, index)? {
        Some(stated) => Ok(is_run_stated(put, rest, stated.as_slice())),
        None => Ok(true),
    }
}

fn falls_through(
    alloc: Global,
    routine: &RawRoutine,
    at: usize,
    put: Option<Run<'_>>,
    rest: &[Letter],
) -> Result<bool, AllocError>
    requires { at < length routine.now.lines }
    ensures { IfOk result (λ b. b ≡ stated_fall_through routine.now at (fall_through_of put.entry) rest.now) }
{
    let _ = routine.lines.len();
    match put {
        Some(put) => lands(alloc, routine, at + 1, put, rest),
        None => Ok(true),
    }
}

fn branches(
    alloc: Global,
    routine: &RawRoutine,
    jump: Option<(u32, Run<'_>)>,
    rest: &[Letter],
) -> Result<bool, AllocError>
    ensures { IfOk result (λ b. b ≡ stated_branch routine.now (branch_of jump.entry) rest.now) }
{
    match jump {
        Some((index, put)) => lands(alloc, routine, index as usize, put, rest),
        None => Ok(true),
    }
}

pub(crate) fn goes_on(
    alloc: Global,
    routine: &RawRoutine,
    at: usize,
    effect: &Effect<'_>,
    rest: &[Letter],
) -> Result<bool, AllocError>
    requires { at < length routine.now.lines }
    ensures { IfOk result (λ b. b ≡ (stated_fall_through routine.now at (fall_through_of effect.now.fall_through) rest.now && stated_branch routine.now (branch_of effect.now.branching) rest.now)) }
{
    if falls_through(alloc, routine, at, effect.fall_through, rest)? {
        branches(alloc, routine, effect.branching, rest)
    } else {
        Ok(false)
    }
}

/// Whether the operands that an instruction takes are there, and those that it leaves are stated wherever it goes on.
pub(crate) fn follows(
    alloc: Global,
    routine: &RawRoutine,
    at: usize,
    operands: &[Letter],
    effect: &Effect<'_>,
) -> Result<bool, AllocError>
    requires { at < length routine.now.lines }
    ensures { IfOk result (λ b. b ≡ moves_follow routine.now at operands.now (effect_of effect.now)) }
{
    match left_run(operands, effect.takes) {
        Some(rest) => goes_on(alloc, routine, at, effect, rest),
        None => Ok(false),
    }
}
