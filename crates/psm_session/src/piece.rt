//! The pieces of text that commands print.
ghost use Rattle.std.specs.Prelude.{◌≡◌, ◌++◌, IfOk, OnOk, codes};
ghost use Rattle.std.specs.Option.{option_copied};
ghost use Rattle.psm_unwind.specs.View.{end_of};
ghost use Rattle.psm_meaning.specs.Acts.{of_state};
ghost use Rattle.psm_meaning.specs.Lines.{condition_lines, first_line, naming};
ghost use Rattle.psm_meaning.specs.Session.{end_of_rows};
ghost use Rattle.psm_session.specs.CommandSteps.{rows_shown};
ghost use Rattle.psm_session.specs.Pieces.{end_lines, raised_lines};

use crate::lines::{put_condition, put_first_line, put_ok, put_rows, put_value_lines};
use psm_code::{Parameter, RawRoutine};
use psm_cond::Condition;
use psm_query::Answer;
use psm_sqlstate::SqlState;
use psm_unwind::Ending;
use std::alloc::{AllocError, Global};

/// The piece of a CALL whose run ended so.
pub(crate) fn piece_of_call(
    alloc: Global,
    number: u64,
    routine: &RawRoutine,
    ending: &Ending,
) -> Result<Vec<u8>, AllocError>
    ensures { IfOk result (λ piece. piece.items ≡ first_line number (naming (codes "CALL ") routine.now.name) ++ end_lines routine.now.parameters (end_of ending.now)) }
{
    let mut out = Vec::new(alloc);
    put_first_line(&mut out, number, "CALL ", routine.name.as_str())?;
    put_end_lines(alloc, &mut out, routine.parameters.items(), ending)?;
    Ok(out)
}

fn put_end_lines(
    alloc: Global,
    out: &mut Vec<u8>,
    parameters: &[Parameter],
    ending: &Ending,
) -> Result<(), AllocError>
    ensures { OnOk result (out.new.items ≡ out.old.items ++ end_lines parameters.now (end_of ending.now)) }
{
    match ending {
        Ending::Ended(values) => {
            put_value_lines(out, parameters, values.get().items())?;
            put_ok(out)
        }
        Ending::Raised(condition) => put_condition(alloc, out, condition.get()),
        Ending::NoTurns => {
            out.extend_from_slice(b"TURNS USED\n")?;
            Ok(())
        }
        Ending::Stuck => Ok(()),
    }
}

/// The piece of a query with that answer.
pub(crate) fn piece_of_answer(
    alloc: Global,
    number: u64,
    answer: &Answer,
) -> Result<Vec<u8>, AllocError>
    ensures { IfOk result (λ piece. piece.items ≡ first_line number (codes "SELECT") ++ rows_shown answer.now.skipped answer.now.rows) }
{
    let mut out = Vec::new(alloc);
    put_first_line(&mut out, number, "SELECT", "")?;
    put_answer(alloc, &mut out, answer)?;
    Ok(out)
}

fn put_answer(alloc: Global, out: &mut Vec<u8>, answer: &Answer) -> Result<(), AllocError>
    ensures { OnOk result (out.new.items ≡ out.old.items ++ rows_shown answer.now.skipped answer.now.rows) }
{
    let rows = answer.rows();
    if rows.is_empty() {
        return put_state(alloc, out, SqlState::NO_DATA);
    }
    put_rows(out, rows)?;
    put_end_of_rows(alloc, out, answer.skipped())
}

// Nulls that a set function skipped are a warning after the rows.
fn put_end_of_rows(alloc: Global, out: &mut Vec<u8>, skipped: bool) -> Result<(), AllocError>
    ensures { OnOk result (out.new.items ≡ out.old.items ++ end_of_rows skipped) }
{
    if skipped {
        put_state(alloc, out, SqlState::NULL_ELIMINATED)
    } else {
        put_ok(out)
    }
}

/// The lines of the condition of an SQLSTATE alone.
pub(crate) fn put_state(alloc: Global, out: &mut Vec<u8>, state: SqlState) -> Result<(), AllocError>
    ensures { OnOk result (out.new.items ≡ out.old.items ++ condition_lines (of_state state)) }
{
    let condition = Condition::raised(alloc, state)?;
    put_condition(alloc, out, condition.get())
}

/// The piece of another command: what it is, the name that it names, if any, and the condition that it raises, or OK.
pub(crate) fn piece_of(
    alloc: Global,
    number: u64,
    word: &str,
    name: &str,
    raised: Option<&Condition>,
) -> Result<Vec<u8>, AllocError>
    ensures { IfOk result (λ piece. piece.items ≡ first_line number (word.now ++ name.now) ++ raised_lines (option_copied raised.entry)) }
{
    let mut out = Vec::new(alloc);
    put_first_line(&mut out, number, word, name)?;
    match raised {
        None => put_ok(&mut out)?,
        Some(condition) => put_condition(alloc, &mut out, condition)?,
    }
    Ok(out)
}
