//! Constant folding: operations on constants and variables alone are replaced by their values (ISO/IEC 9075:1992, clause 6).
ghost use Rattle.std.specs.Prelude.{◌≡◌, ◌+◌, ◌∷◌, ◌≤◌, [], drop, length, map, reverse, true, false, IfOk, IsTrue, MatchOption, Some, None, if◌then◌else◌};
ghost use Rattle.std.specs.Option.{option_map};
ghost use Rattle.psm_exprcode.specs.declared.operand.Next.TheVariants.{FallThrough};
ghost use Rattle.psm_exprcode.specs.declared.operand.Operand.TheVariants.{Value};
ghost use Rattle.psm_exprcode.specs.Applied.{applied, Went};
ghost use Rattle.psm_exprcode.specs.Fits.{Fits};
ghost use Rattle.psm_exprcode.specs.WellFormed.{is_type};
ghost use Rattle.psm_tablecode.specs.Folding as folding;
ghost use Rattle.psm_tablecode.specs.Tests as asked;

use crate::asking::fixed;
use psm_exprcode::{Letter, Next, Op, Operand, RawExpr, apply};
use psm_value::{Datum, SqlType, ValueFault};
use std::alloc::{AllocError, Global};

/// The lines once they are folded, if they raise nothing then.
#[tactic(auto, using(crate::proofs::FoldSteps::done_first, crate::proofs::FoldSteps::done_all, crate::proofs::FoldSteps::quiet_end))]
pub(crate) fn folded(
    alloc: Global,
    lines: &RawExpr,
    vars: &[Datum],
) -> Result<Option<RawExpr>, AllocError>
    ensures { IfOk result (λ found. MatchOption found (asked.are_quiet (folding.folded vars.now lines.now) ≡ false) (λ quiet. (quiet ≡ folding.folded vars.now lines.now) × (asked.are_quiet quiet ≡ true))) }
{
    let mut done = Vec::new(alloc);
    for at in 0..lines.len() {
        if !fold_at(alloc, lines, at, vars, &mut done)? {
            return Ok(None);
        }
    }
    Ok(Some(bare(alloc, done)?))
}

// The operation at an index is folded into those that are done, unless it stays there and could raise a condition.
#[tactic(auto, using(crate::proofs::FoldSteps::done_next, crate::proofs::FoldSteps::done_past, crate::proofs::FoldSteps::loud_next))]
fn fold_at(
    alloc: Global,
    lines: &RawExpr,
    at: usize,
    vars: &[Datum],
    done: &mut Vec<Op>,
) -> Result<bool, AllocError>
    requires { folding.IsDone vars.now lines.now at (reverse done.old.items) }
    ensures done { IfOk result (λ goes_on. IsTrue goes_on → folding.IsDone vars.now lines.now (at + 1) (reverse done.new.items)) }
    ensures loud { IfOk result (λ goes_on. goes_on ≡ false → asked.are_quiet (folding.folded vars.now lines.now) ≡ false) }
{
    match lines.op(at) {
        Some(op) => fold(alloc, op, vars, done),
        None => Ok(true),
    }
}

#[tactic(auto, using(crate::proofs::FoldSteps::there_on, crate::proofs::FoldSteps::fold_put, crate::proofs::FoldSteps::fold_kept, crate::proofs::FoldSteps::quiet_put, crate::proofs::FoldSteps::quiet_kept))]
fn fold(alloc: Global, op: &Op, vars: &[Datum], done: &mut Vec<Op>) -> Result<bool, AllocError>
    requires { folding.all_quiet (reverse done.old.items) ≡ true }
    ensures done { IfOk result (λ goes_on. IsTrue goes_on → reverse done.new.items ≡ folding.fold_op vars.now (reverse done.old.items) op.now) }
    ensures quiet { IfOk result (λ goes_on. goes_on ≡ folding.all_quiet (folding.fold_op vars.now (reverse done.old.items) op.now)) }
{
    match value_on(alloc, op, done.as_slice(), vars)? {
        Some(value) => {
            cut(done, folds(op));
            done.push(constant(value))?;
            Ok(true)
        }
        None => keep(alloc, op, done),
    }
}

// One more operation, if it raises nothing.
fn keep(alloc: Global, op: &Op, done: &mut Vec<Op>) -> Result<bool, AllocError>
    ensures done { IfOk result (λ goes_on. IsTrue goes_on → reverse done.new.items ≡ op.now ∷ reverse done.old.items) }
    ensures quiet { IfOk result (λ goes_on. goes_on ≡ asked.is_quiet op.now) }
{
    match quiet_copy(alloc, op)? {
        Some(copy) => {
            done.push(copy)?;
            Ok(true)
        }
        None => Ok(false),
    }
}

fn quiet_copy(alloc: Global, op: &Op) -> Result<Option<Op>, AllocError>
    ensures { IfOk result (λ copy. copy ≡ (if asked.is_quiet op.now then Some op.now else None)) }
{
    Ok(match op {
        Op::Constant(letter, value) => Some(Op::Constant(*letter, value.copy(alloc)?)),
        Op::Variable(at) => Some(Op::Variable(*at)),
        Op::Column(at) => Some(Op::Column(*at)),
        Op::In(count) => Some(Op::In(*count)),
        _ => quiet_test(op),
    })
}

// The same of an operation in which nothing stands.
fn quiet_test(op: &Op) -> Option<Op>
    ensures { result ≡ folding.quiet_test op.now }
{
    match op {
        Op::Equal => Some(Op::Equal),
        Op::NotEqual => Some(Op::NotEqual),
        Op::Less => Some(Op::Less),
        Op::LessOrEqual => Some(Op::LessOrEqual),
        Op::Greater => Some(Op::Greater),
        Op::GreaterOrEqual => Some(Op::GreaterOrEqual),
        Op::IsNull => Some(Op::IsNull),
        Op::Between => Some(Op::Between),
        Op::Like => Some(Op::Like),
        Op::And => Some(Op::And),
        Op::Or => Some(Op::Or),
        Op::Not => Some(Op::Not),
        _ => None,
    }
}

// The last `count` are taken off.
#[tactic(auto, using(crate::proofs::FoldSteps::cut_back))]
fn cut(done: &mut Vec<Op>, count: usize)
    requires { count ≤ length done.old.items }
    ensures { reverse done.new.items ≡ drop count (reverse done.old.items) }
{
    done.truncate(done.len() - count);
}

fn constant(value: Datum) -> Op
    ensures { result ≡ folding.constant value }
{
    let letter = match &value {
        Datum::Text(_) => Letter::T,
        _ => Letter::N,
    };
    Op::Constant(letter, value)
}

// How many values are folded into one by an operation.
fn folds(op: &Op) -> usize
    ensures { result ≡ folding.folds op.now }
{
    match op {
        Op::Negate | Op::CharacterLength | Op::Trim(_) | Op::Upper | Op::Lower => 1,
        Op::Rescale(scale) if *scale <= 18 => 1,
        Op::Cast(to) if is_type(*to) => 1,
        Op::Add | Op::Subtract | Op::Multiply | Op::Divide | Op::NullIf => 2,
        Op::Concatenate | Op::Position | Op::SubstringFrom => 2,
        Op::SubstringFromFor => 3,
        _ => 0,
    }
}

// ---- values

// The value of an operation on those that were put last, if it folds values and raises no condition.
fn value_on(
    alloc: Global,
    op: &Op,
    done: &[Op],
    vars: &[Datum],
) -> Result<Option<Datum>, AllocError>
    ensures { IfOk result (λ value. value ≡ folding.value_on vars.now (folding.folds op.now) (reverse done.now) op.now) }
{
    let count = folds(op);
    if count == 0 {
        return Ok(None);
    }
    match last_values(alloc, count, done, vars)? {
        Some(operands) => put(alloc, op, operands),
        None => Ok(None),
    }
}

// The values that the last `count` operations put, as operands.
#[tactic(auto, using(crate::proofs::FoldSteps::values_zero, crate::proofs::FoldSteps::values_none))]
fn last_values(
    alloc: Global,
    count: usize,
    done: &[Op],
    vars: &[Datum],
) -> Result<Option<Vec<Operand>>, AllocError>
    ensures { IfOk result (λ found. option_map (λ os. reverse os.items) found ≡ option_map (λ ds. map Value ds) (folding.last_values vars.now count (reverse done.now))) }
{
    if count == 0 {
        return Ok(Some(Vec::new(alloc)));
    }
    let Some((op, below)) = last_of(done) else {
        return Ok(None);
    };
    let Some(value) = fixed(op, vars) else {
        return Ok(None);
    };
    let Some(mut operands) = last_values(alloc, count - 1, below, vars)? else {
        return Ok(None);
    };
    operands.push(Operand::Value(value.copy(alloc)?))?;
    Ok(Some(operands))
}

// The last operation, and those before it.
fn last_of(done: &[Op]) -> Option<(&Op, &[Op])>
    ensures { MatchOption result (reverse done.now ≡ []) (λ p. reverse done.now ≡ p.0.now ∷ reverse p.1.now) }
{
    match done.split_last() {
        Some((op, below)) => Some((op, below)),
        None => None,
    }
}

// The value that an operation puts in place of operands, unless it raises a condition.
fn put(alloc: Global, op: &Op, operands: Vec<Operand>) -> Result<Option<Datum>, AllocError>
    requires { Fits op.now (reverse operands.items) [] [] }
    ensures { IfOk result (λ value. value ≡ folding.value_alone (applied op.now (reverse operands.items) [] [])) }
{
    let mut operands = operands;
    match apply(alloc, op, &mut operands, &[], &[]) {
        Ok(Next::FallThrough) => Ok(alone(operands)),
        Ok(Next::Jump(_)) | Err(ValueFault::Condition(_)) => Ok(None),
        Err(ValueFault::Memory) => Err(AllocError),
    }
}

// The value of operands that are no more than it.
fn alone(operands: Vec<Operand>) -> Option<Datum>
    ensures { result ≡ folding.value_alone (Went FallThrough (reverse operands.items)) }
{
    let mut operands = operands;
    match operands.pop() {
        Some(Operand::Value(value)) if operands.is_empty() => Some(value),
        _ => None,
    }
}

#[tactic(auto, using(psm_exprcode::proofs::Types::within_is))]
fn is_type(to: SqlType) -> bool
    ensures { result ≡ is_type to }
{
    to.is_within_bounds()
}

// ---- lines

// The operations as lines that state no operands.
fn bare(alloc: Global, ops: Vec<Op>) -> Result<RawExpr, AllocError>
    ensures { IfOk result (λ lines. lines ≡ map folding.bare ops.items) }
{
    let mut lines = RawExpr::new(alloc);
    for op in ops {
        lines.push(&[], op)?;
    }
    Ok(lines)
}
