//! The code of row expressions, where they are of the letter that is asked for.
ghost use Rattle.std.specs.Prelude.{◌≡◌, IsTrue, true, IfOk};
ghost use Rattle.std.specs.List.{list_all};
ghost use Rattle.psm_exprcode.specs.WellFormed.{does_fit, is_well_formed};
ghost use Rattle.psm_resolved.specs.RowType.{goes_as, row_type_of};
ghost use Rattle.psm_exprgen.specs.Nulls.{null_lines};
ghost use Rattle.psm_exprcode.specs.declared.op.Letter.TheVariants.{B};
ghost use Rattle.psm_exprgen.specs.Queries.{ExprFits, ExprIs, ExprsAre, ExprsFit, FitsAs, OperandFits, PerhapsIs, RowTestFits, RowTestsFit, is_test, is_test_perhaps, is_value_of, is_value_perhaps};

use crate::row_types::row_type_of;
use psm_exprcode::{ExprCode, Letter, Op, RawExpr};
use psm_list::{Boxed, List};
use psm_resolved::{ResolvedExpr, row_code};
use psm_value::Datum;
use std::alloc::{AllocError, Global};

/// Code of that letter over columns and variables of these: that of the expression (ISO/IEC 9075:1992, clause 6) where it is of that
/// letter, and else that of NULL. Out of memory is the one error.
#[tactic(auto, using(crate::proofs::ExprLetters::null_fits))]
pub fn row(
    alloc: Global,
    e: &ResolvedExpr,
    columns: &[Letter],
    variables: &[Letter],
    letter: Letter,
) -> Result<ExprCode, AllocError>
    ensures fits { IfOk result (λ code. IsTrue (does_fit columns.now variables.now code letter)) }
    ensures value { IfOk result (λ code. goes_as letter (row_type_of columns.now variables.now e.now) ≡ true → ExprIs e.now code) }
{
    if row_type_of(columns, variables, e).goes_as(letter) {
        row_code(alloc, e, columns, variables, letter)
    } else {
        null_code(alloc, letter)
    }
}

#[tactic(auto, using(crate::proofs::ExprLetters::null_well_formed))]
fn null_code(alloc: Global, letter: Letter) -> Result<ExprCode, AllocError>
    ensures { IfOk result (λ code. code ≡ null_lines letter) }
{
    Ok(coded(null_of(alloc, letter)?))
}

fn null_of(alloc: Global, letter: Letter) -> Result<RawExpr, AllocError>
    ensures { IfOk result (λ lines. lines ≡ null_lines letter) }
{
    let mut lines = RawExpr::new(alloc);
    match letter {
        Letter::N => lines.push(&[], Op::Constant(Letter::N, Datum::Null))?,
        Letter::T => lines.push(&[], Op::Constant(Letter::T, Datum::Null))?,
        Letter::B => {
            lines.push(&[], Op::Constant(Letter::N, Datum::Null))?;
            lines.push(&[Letter::N], Op::IsNull)?;
        }
    }
    Ok(lines)
}

fn coded(lines: RawExpr) -> ExprCode
    requires { IsTrue (is_well_formed lines) }
    ensures { result ≡ lines }
{
    match ExprCode::of(lines) {
        Ok(code) => code,
        Err(_) => unreachable!(),
    }
}

/// Code of the letter of the expression.
#[tactic(auto, using(crate::proofs::ExprLetters::value_goes))]
pub(crate) fn value(
    alloc: Global,
    e: &ResolvedExpr,
    columns: &[Letter],
    variables: &[Letter],
) -> Result<ExprCode, AllocError>
    ensures fits { IfOk result (λ code. ExprFits columns.now variables.now e.now code) }
    ensures value { IfOk result (λ code. is_value_of columns.now variables.now e.now ≡ true → ExprIs e.now code) }
{
    let letter = row_type_of(columns, variables, e).letter();
    row(alloc, e, columns, variables, letter)
}

/// The same of an expression that may be absent.
pub(crate) fn value_perhaps(
    alloc: Global,
    e: &Option<Boxed<ResolvedExpr>>,
    columns: &[Letter],
    variables: &[Letter],
) -> Result<Option<ExprCode>, AllocError>
    ensures fits { IfOk result (λ code. OperandFits columns.now variables.now e.now code) }
    ensures value { IfOk result (λ code. is_value_perhaps columns.now variables.now e.now ≡ true → PerhapsIs e.now code) }
{
    match e {
        None => Ok(None),
        Some(e) => Ok(Some(value(alloc, e.get(), columns, variables)?)),
    }
}

/// The same of each expression.
pub(crate) fn values(
    alloc: Global,
    es: &List<Boxed<ResolvedExpr>>,
    columns: &[Letter],
    variables: &[Letter],
) -> Result<List<ExprCode>, AllocError>
    ensures fits { IfOk result (λ codes. ExprsFit columns.now variables.now es.now codes) }
    ensures value { IfOk result (λ codes. list_all (is_value_of columns.now variables.now) es.now ≡ true → ExprsAre es.now codes) }
{
    let mut codes = Vec::new(alloc);
    for e in es.items() {
        codes.push(value(alloc, e.get(), columns, variables)?)?;
    }
    Ok(List::of(codes))
}

/// Code of a search condition (ISO/IEC 9075:1992, clause 8.12). Out of memory is the one error.
#[tactic(auto, using(crate::proofs::ExprLetters::test_goes))]
pub fn test(
    alloc: Global,
    e: &ResolvedExpr,
    columns: &[Letter],
    variables: &[Letter],
) -> Result<ExprCode, AllocError>
    ensures fits { IfOk result (λ code. FitsAs columns.now variables.now B code) }
    ensures value { IfOk result (λ code. is_test columns.now variables.now e.now ≡ true → ExprIs e.now code) }
{
    row(alloc, e, columns, variables, Letter::B)
}

/// The same of one that may be absent.
pub(crate) fn test_perhaps(
    alloc: Global,
    e: &Option<Boxed<ResolvedExpr>>,
    columns: &[Letter],
    variables: &[Letter],
) -> Result<Option<ExprCode>, AllocError>
    ensures fits { IfOk result (λ code. RowTestFits columns.now variables.now e.now code) }
    ensures value { IfOk result (λ code. is_test_perhaps columns.now variables.now e.now ≡ true → PerhapsIs e.now code) }
{
    match e {
        None => Ok(None),
        Some(e) => Ok(Some(test(alloc, e.get(), columns, variables)?)),
    }
}

/// The same of each search condition. Out of memory is the one error.
pub fn tests(
    alloc: Global,
    es: &List<Boxed<ResolvedExpr>>,
    columns: &[Letter],
    variables: &[Letter],
) -> Result<List<ExprCode>, AllocError>
    ensures fits { IfOk result (λ codes. RowTestsFit columns.now variables.now codes) }
    ensures value { IfOk result (λ codes. list_all (is_test columns.now variables.now) es.now ≡ true → ExprsAre es.now codes) }
{
    let mut codes = Vec::new(alloc);
    for e in es.items() {
        codes.push(test(alloc, e.get(), columns, variables)?)?;
    }
    Ok(List::of(codes))
}
