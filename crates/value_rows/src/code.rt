//! Code of expressions.
ghost use Rattle.std.specs.Prelude.{IsTrue};
ghost use Rattle.psm_exprcode.specs.Kinds.{are_of};
ghost use Rattle.psm_exprcode.specs.WellFormed.{does_fit};

use crate::fault::Fault;
use crate::lines::lines;
use crate::operands::Operands;
use crate::shown;
use psm_exprcode::{ExprCode, Letter, Operand, eval};
use psm_num::Dec;
use psm_text::Text;
use psm_value::Datum;
use std::alloc::Global;

/// The letter and the value of the code, over a number and a text as columns, and null and a text as variables.
pub fn reported(alloc: Global, operands: &mut Operands<'_>) -> Result<String, Fault> {
    let code = ExprCode::of(lines(alloc, operands)?)
        .ok()
        .ok_or(Fault::IllFormed)?;
    let row = vec![in alloc; Datum::Num(Dec::read("7")?), text(alloc, "ab")?]?;
    let vars = vec![in alloc; Datum::Null, text(alloc, "x")?]?;
    over(alloc, &code, row.as_slice(), vars.as_slice())
}

fn text(alloc: Global, characters: &str) -> Result<Datum, Fault> {
    Ok(Datum::Text(Text::make(alloc, characters)?))
}

fn over(alloc: Global, code: &ExprCode, row: &[Datum], vars: &[Datum]) -> Result<String, Fault> {
    let kinds = &[Letter::N, Letter::T];
    if !Letter::are_of(kinds, row) || !Letter::are_of(kinds, vars) {
        return Err(Fault::Unfit);
    }
    for end in [Letter::N, Letter::T, Letter::B] {
        if code.fits(kinds, kinds, end) {
            let operand = evaluated(alloc, code, kinds, row, vars, end)?;
            return with_letter(alloc, end, &operand);
        }
    }
    Err(Fault::Unfit)
}

fn evaluated(
    alloc: Global,
    code: &ExprCode,
    kinds: &[Letter],
    row: &[Datum],
    vars: &[Datum],
    end: Letter,
) -> Result<Operand, Fault>
    requires fits { IsTrue (does_fit kinds.now kinds.now code.now end) }
    requires row { IsTrue (are_of kinds.now row.now) }
    requires vars { IsTrue (are_of kinds.now vars.now) }
{
    Ok(eval(alloc, code, row, vars)?)
}

fn with_letter(alloc: Global, end: Letter, operand: &Operand) -> Result<String, Fault> {
    let letter = match end {
        Letter::N => "N",
        Letter::T => "T",
        Letter::B => "B",
    };
    let value = match operand {
        Operand::Value(value) => shown::value(alloc, value)?,
        Operand::Truth(truth) => shown::truth(alloc, *truth)?,
    };
    Ok(format!(in alloc; "{letter} {value}")?)
}
