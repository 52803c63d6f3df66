//! The values to which a test makes the first columns of a key equal, where it asks for nothing else (ISO/IEC 9075:1992, 8.2 and
//! 8.12).
ghost use Rattle.std.specs.Prelude.{◌≡◌, ◌+◌, ◌≤◌, drop, length, IfOk, IfSome, Some};
ghost use Rattle.std.specs.Option.{option_copied};
ghost use Rattle.psm_tablecode.specs.Asked as asked;
ghost use Rattle.psm_tablecode.specs.Tests.{first_three};
ghost use Rattle.psm_tablecode.specs.Tests as tests;
ghost use Rattle.psm_query.specs.Ends as ends;

use psm_exprcode::{ExprCode, Op, RawExpr};
use psm_table::Key;
use psm_value::Datum;
use std::alloc::{AllocError, Global};

/// The values, none of them null, to which a test makes the first columns of a key equal, if it asks for nothing else: by equalities
/// with these columns in order, joined by AND. Without a test there are none.
pub(crate) fn firsts_of(
    alloc: Global,
    key: &[u32],
    test: &Option<ExprCode>,
    vars: &[Datum],
) -> Result<Option<Key>, AllocError>
    ensures { IfOk result (λ firsts. firsts ≡ ends.firsts_of key.now vars.now test.now) }
{
    match test {
        None => Ok(Some(Key::of(Vec::new(alloc)))),
        Some(code) => firsts_in(alloc, key, code.lines(), vars),
    }
}

fn firsts_in(
    alloc: Global,
    key: &[u32],
    lines: &RawExpr,
    vars: &[Datum],
) -> Result<Option<Key>, AllocError>
    ensures { IfOk result (λ firsts. firsts ≡ ends.firsts_in key.now vars.now lines.now) }
{
    let [column, columns @ ..] = key else {
        return Ok(None);
    };
    if lines.len() < 3 {
        return Ok(None);
    }
    match equal_at(*column, lines, 0, vars) {
        Some(value) => more_firsts(alloc, columns, lines, vars, value),
        None => Ok(None),
    }
}

/// With the values of further columns, where the lines after the first three are an equality with each of the first of these, in
/// order, and AND after each.
#[tactic(auto, using(crate::proofs::FirstLaws::joins_first, crate::proofs::FirstLaws::joins_next, crate::proofs::FirstLaws::joins_other, crate::proofs::FirstLaws::joins_past, crate::proofs::FirstLaws::joins_end))]
fn more_firsts(
    alloc: Global,
    columns: &[u32],
    lines: &RawExpr,
    vars: &[Datum],
    first: &Datum,
) -> Result<Option<Key>, AllocError>
    requires { 3 ≤ length lines.now }
    ensures { IfOk result (λ firsts. firsts ≡ tests.with_first (Some first.now) (ends.more_firsts columns.now vars.now (drop 3 lines.now))) }
{
    let mut firsts = Vec::new(alloc);
    firsts.push(first.copy(alloc)?)?;
    let mut next = 0;
    let mut at = 3;
    'lines: while at < lines.len() {
        let Some(column) = columns.get(next) else {
            return Ok(None);
        };
        let Some(value) = joined_at(*column, lines, at, vars) else {
            return Ok(None);
        };
        firsts.push(value.copy(alloc)?)?;
        next += 1;
        at += 4;
    }
    Ok(Some(Key::of(firsts)))
}

/// The value to which an equality at a line makes a column equal, if AND is after it.
fn joined_at<'a>(column: u32, lines: &'a RawExpr, at: usize, vars: &'a [Datum]) -> Option<&'a Datum>
    requires { at ≤ length lines.now }
    ensures value { option_copied result ≡ ends.joined_value column vars.now (drop at lines.now) }
    ensures within { IfSome result (λ _. at + 4 ≤ length lines.now) }
{
    if lines.len() - at >= 4 && is_and_at(lines, at + 3) {
        equal_at(column, lines, at, vars)
    } else {
        None
    }
}

fn is_and_at(lines: &RawExpr, at: usize) -> bool
    ensures { result ≡ ends.is_and_first (drop at lines.now) }
{
    match lines.op(at) {
        Some(op) => is_and(op),
        None => false,
    }
}

fn is_and(op: &Op) -> bool
    ensures { result ≡ tests.is_and op.now }
{
    match op {
        Op::And => true,
        _ => false,
    }
}

/// The value, which isn't null, to which the equality at a line makes a column equal.
fn equal_at<'a>(column: u32, lines: &'a RawExpr, at: usize, vars: &'a [Datum]) -> Option<&'a Datum>
    requires { at + 3 ≤ length lines.now }
    ensures { option_copied result ≡ ends.equal_value column vars.now (drop at lines.now) }
{
    filled(three_at(column, lines, at, vars))
}

fn filled(value: Option<&Datum>) -> Option<&Datum>
    ensures { option_copied result ≡ asked.filled (option_copied value.entry) }
{
    match value {
        None | Some(Datum::Null) => None,
        Some(value) => Some(value),
    }
}

fn three_at<'a>(column: u32, lines: &'a RawExpr, at: usize, vars: &'a [Datum]) -> Option<&'a Datum>
    requires { at + 3 ≤ length lines.now }
    ensures { option_copied result ≡ first_three (tests.made_equal column vars.now) (drop at lines.now) }
{
    let left = lines.op(at)?;
    let right = lines.op(at + 1)?;
    let test = lines.op(at + 2)?;
    made_equal(column, left, right, test, vars)
}

fn made_equal<'a>(
    column: u32,
    left: &'a Op,
    right: &'a Op,
    test: &Op,
    vars: &'a [Datum],
) -> Option<&'a Datum>
    ensures { option_copied result ≡ tests.made_equal column vars.now left.now right.now test.now }
{
    match test {
        Op::Equal if is_column(column, left) => fixed(right, vars),
        Op::Equal if is_column(column, right) => fixed(left, vars),
        _ => None,
    }
}

pub(crate) fn is_column(column: u32, op: &Op) -> bool
    ensures { result ≡ tests.is_column column op.now }
{
    match op {
        Op::Column(at) => *at == column,
        _ => false,
    }
}

/// The value that an operation puts on whichever row.
fn fixed<'a>(op: &'a Op, vars: &'a [Datum]) -> Option<&'a Datum>
    ensures { option_copied result ≡ tests.fixed vars.now op.now }
{
    match op {
        Op::Constant(_, value) => Some(value),
        Op::Variable(at) => vars.get(*at as usize),
        _ => None,
    }
}
