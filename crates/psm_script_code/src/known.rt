//! What is known of code before the commands of a script are made.
ghost use Rattle.std.specs.Prelude.{◌≡◌, map, IfOk};
ghost use Rattle.psm_code.specs.Instructions as instructions;
ghost use Rattle.psm_script_code.specs.Lowered.{procedure_numbers};
ghost use Rattle.psm_script_code.specs.Made.{known_of_tables};

use psm_code::{CodeTable, RawCode, RawRoutine};
use psm_exprcode::Letter;
use psm_exprgen::Known;
use psm_list::List;
use psm_symbols::next_number;
use psm_tablecode::column_letters;
use std::alloc::{AllocError, Global};

/// What a query of a script sees: the columns of tables.
pub(crate) fn known_of_tables(alloc: Global, code: &RawCode) -> Result<Known, AllocError>
    ensures { IfOk result (λ known. known ≡ known_of_tables code.now) }
{
    let columns = columns_of(alloc, code.tables.items())?;
    Ok(Known {
        functions: List::of(Vec::new(alloc)),
        procedures: List::of(Vec::new(alloc)),
        columns,
        takes: List::of(Vec::new(alloc)),
        gives: List::of(Vec::new(alloc)),
        results: List::of(Vec::new(alloc)),
        variables: List::of(Vec::new(alloc)),
        result: Letter::N,
    })
}

fn columns_of(alloc: Global, tables: &[CodeTable]) -> Result<List<List<Letter>>, AllocError>
    ensures { IfOk result (λ letters. letters ≡ map instructions.column_letters tables.now) }
{
    let mut letters = Vec::new(alloc);
    for table in tables {
        letters.push(List::of(column_letters(alloc, &table.definition)?))?;
    }
    Ok(List::of(letters))
}

/// The numbers of the procedures among routines, in order.
pub(crate) fn procedures_of(alloc: Global, routines: &[RawRoutine]) -> Result<Vec<u32>, AllocError>
    ensures { IfOk result (λ numbers. numbers.items ≡ procedure_numbers 0 routines.now) }
{
    let mut numbers = Vec::new(alloc);
    let mut number = 0;
    for routine in routines {
        if !routine.is_function {
            numbers.push(number)?;
        }
        number = next_number(number)?;
    }
    Ok(numbers)
}
