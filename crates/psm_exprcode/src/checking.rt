//! Whether lines are well formed, and whether they fit columns and variables of known kinds. No call here
//! takes memory.
ghost use Rattle.std.specs.Prelude.{◌≡◌, ◌-◌, ◌<◌, ◌++◌, ◌&&◌, suc, nat_lt, length, reverse, slice_get, option_map};
ghost use Rattle.psm_exprcode.specs.Kinds.{some_letter};
ghost use Rattle.psm_exprcode.specs.Lent.{lines_in};
ghost use Rattle.psm_exprcode.specs.Numbered.{line_of};
ghost use Rattle.psm_exprcode.specs.Operations.{effect};
ghost use Rattle.psm_exprcode.specs.Stacks.{stack_at};
ghost use Rattle.psm_exprcode.specs.Table.{effect_of, letters_of, jump_of};
ghost use Rattle.psm_exprcode.specs.Ways.{allowed};
ghost use Rattle.psm_exprcode.specs.WellFormed.{is_type as is_type_within, is_bounded as is_op_bounded, lands as letters_land, falls_through as letters_go_fall_through, branches as letters_go_branch, leads as letters_lead, is_line, are_lines, ends_with as lines_end_with, is_well_formed as are_well_formed};

use crate::lent::NumberedLines;
use crate::letters::{are_stated, is_known, left};
use crate::op::{Letter, Op};
use crate::raw::NumberedLine;
use crate::table::{Entry, Letters};
use psm_value::{Datum, SqlType};

/// The kinds of the columns and of the variables, where they are known.
#[derive(Clone, Copy)]
pub(crate) enum Kinds<'a> {
    Any,
    Of {
        columns: &'a [Letter],
        variables: &'a [Letter],
    },
}

/// Whether the lines end with the same letter on every way, and each of them is right.
pub(crate) fn is_well_formed(lines: &NumberedLines<'_>) -> bool
    ensures { result ≡ are_well_formed (lines_in lines.now) }
{
    ends_with(Kinds::Any, lines, Letter::N)
        || ends_with(Kinds::Any, lines, Letter::T)
        || ends_with(Kinds::Any, lines, Letter::B)
}

/// Whether the first line states no operand, each line is right, and the lines end with that letter.
pub(crate) fn ends_with(kinds: Kinds<'_>, lines: &NumberedLines<'_>, end: Letter) -> bool
    ensures { result ≡ lines_end_with (allowed kinds.entry) (lines_in lines.now) end }
{
    lands(end, lines, 0, Letters::none(), lines.stacks.empty()) && are_right(kinds, end, lines)
}

fn are_right(kinds: Kinds<'_>, end: Letter, lines: &NumberedLines<'_>) -> bool
    ensures { result ≡ are_lines (allowed kinds.entry) end 0 (lines_in lines.now) }
{
    for (at, line) in lines.lines.iter().enumerate() {
        if !is_right(kinds, end, at, line, &lines.after(at)) {
            return false;
        }
    }
    true
}

// Whether a line at an index is right, with the lines after it.
fn is_right(
    kinds: Kinds<'_>,
    end: Letter,
    at: usize,
    line: &NumberedLine,
    after: &NumberedLines<'_>,
) -> bool
    requires { line.now.stack < length after.now.stacks.now }
    ensures { result ≡ is_line (allowed kinds.entry) end at (line_of after.now.stacks.now line.now) (lines_in after.now) }
{
    is_bounded(&line.op)
        && (is_right_of(kinds, Letter::N, end, at, line, after)
            || is_right_of(kinds, Letter::T, end, at, line, after))
}

// The same where a value that may be of either kind is of that one.
fn is_right_of(
    kinds: Kinds<'_>,
    kind: Letter,
    end: Letter,
    at: usize,
    line: &NumberedLine,
    after: &NumberedLines<'_>,
) -> bool
    requires { line.now.stack < length after.now.stacks.now }
    ensures { result ≡ (allowed kinds.entry line.now.op kind && some_letter (λ x. letters_lead end at (effect line.now.op kind x) (reverse (line_of after.now.stacks.now line.now).stack) (lines_in after.now))) }
{
    let stack = line.stack;
    allows(kinds, &line.op, kind)
        && (leads(end, at, line.op.entry(kind, Letter::N), stack, after)
            || leads(end, at, line.op.entry(kind, Letter::T), stack, after)
            || leads(end, at, line.op.entry(kind, Letter::B), stack, after))
}

// Whether the variable or the column that the operation names may be of the kind.
fn allows(kinds: Kinds<'_>, op: &Op, kind: Letter) -> bool
    ensures { result ≡ allowed kinds.entry op.now kind }
{
    match kinds {
        Kinds::Any => true,
        Kinds::Of { columns, variables } => match op {
            Op::Variable(index) => is_known(kind, variables, *index as usize),
            Op::Column(index) => is_known(kind, columns, *index as usize),
            _ => true,
        },
    }
}

// Whether what stands in the operation is within bounds.
fn is_bounded(op: &Op) -> bool
    ensures { result ≡ is_op_bounded op.now }
{
    match op {
        Op::Constant(letter, value) => letter.is_of(value),
        Op::Rescale(scale) => *scale <= 18,
        Op::Cast(to) => is_type(*to),
        _ => true,
    }
}

#[tactic(auto, using(crate::proofs::Types::within_is))]
fn is_type(to: SqlType) -> bool
    ensures { result ≡ is_type_within to }
{
    to.is_within_bounds()
}

// Whether an operation at an index finds what it takes, and brings what is stated wherever it goes on.
fn leads(end: Letter, at: usize, entry: Entry, stack: usize, after: &NumberedLines<'_>) -> bool
    requires { stack < length after.now.stacks.now }
    ensures { result ≡ letters_lead end at (effect_of entry) (stack_at after.now.stacks.now stack) (lines_in after.now) }
{
    match left(after.stacks, stack, entry.takes) {
        Some(rest) => {
            falls_through(end, entry.fall_through, rest, after)
                && branches(end, at, entry.branching, rest, after)
        }
        None => false,
    }
}

fn falls_through(end: Letter, puts: Option<Letters>, rest: usize, after: &NumberedLines<'_>) -> bool
    requires { rest < length after.now.stacks.now }
    ensures { result ≡ letters_go_fall_through end (option_map letters_of puts) (stack_at after.now.stacks.now rest) (lines_in after.now) }
{
    match puts {
        Some(puts) => lands(end, after, 0, puts, rest),
        None => true,
    }
}

fn branches(
    end: Letter,
    at: usize,
    jump: Option<(u32, Letters)>,
    rest: usize,
    after: &NumberedLines<'_>,
) -> bool
    requires { rest < length after.now.stacks.now }
    ensures { result ≡ letters_go_branch end at (option_map jump_of jump) (stack_at after.now.stacks.now rest) (lines_in after.now) }
{
    match jump {
        Some((index, puts)) => jumps(end, at, index, puts, rest, after),
        None => true,
    }
}

// Whether an index follows, and the letters are those that are stated there.
fn jumps(
    end: Letter,
    at: usize,
    index: u32,
    puts: Letters,
    rest: usize,
    after: &NumberedLines<'_>,
) -> bool
    requires { rest < length after.now.stacks.now }
    ensures { result ≡ (nat_lt at index && letters_land end (lines_in after.now) (index - suc at) (letters_of puts ++ stack_at after.now.stacks.now rest)) }
{
    let index = index as usize;
    at < index && lands(end, after, index - at - 1, puts, rest)
}

// Whether the letters are those that a line states, n below the first, or the one at the end.
fn lands(
    end: Letter,
    after: &NumberedLines<'_>,
    distance: usize,
    puts: Letters,
    rest: usize,
) -> bool
    requires { rest < length after.now.stacks.now }
    ensures { result ≡ letters_land end (lines_in after.now) distance (letters_of puts ++ stack_at after.now.stacks.now rest) }
{
    let stacks = after.stacks;
    match after.stack(distance) {
        Some(stated) => are_stated(stacks, puts, rest, stated),
        None => {
            distance == after.lines.len() && are_stated(stacks, puts, rest, stacks.single(end))
        }
    }
}
