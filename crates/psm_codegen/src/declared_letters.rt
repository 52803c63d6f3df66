//! What is known of a file and of a routine.
ghost use Rattle.std.specs.Prelude.{◌≡◌, map, IfOk, OnErr, OnOk};
ghost use Rattle.psm_exprgen.specs.Queries as queries;
ghost use Rattle.psm_codegen.specs.FileKnown.{known_of_file, with_routine};

use crate::routines::{all_letters, letter_of_result, numbers_of, results_of, slot_letters};
use psm_exprcode::Letter;
use psm_exprgen::Known;
use psm_list::List;
use psm_resolved::{ResolvedFile, ResolvedRoutine, ResolvedTable};
use psm_tablecode::column_letters;
use std::alloc::{AllocError, Global};

/// What is known of a file. No routine is chosen yet.
pub(crate) fn file_known(alloc: Global, file: &ResolvedFile) -> Result<Known, AllocError>
    ensures { IfOk result (λ known. known ≡ known_of_file file.now) }
{
    let routines = &file.routines;
    Ok(Known {
        functions: numbers_of(alloc, routines, true)?,
        procedures: numbers_of(alloc, routines, false)?,
        columns: columns_of(alloc, &file.tables)?,
        takes: all_letters(alloc, routines, false)?,
        gives: all_letters(alloc, routines, true)?,
        results: results_of(alloc, routines)?,
        variables: List::of(Vec::new(alloc)),
        result: Letter::N,
    })
}

/// The letters of the columns of each table, one a column: N for a number, T for a text. Out of memory is the one error.
pub fn columns_of(
    alloc: Global,
    tables: &List<ResolvedTable>,
) -> Result<List<List<Letter>>, AllocError>
    ensures { IfOk result (λ letters. letters ≡ map queries.column_letters tables.now) }
{
    let mut letters = Vec::new(alloc);
    for table in tables.items() {
        letters.push(List::of(column_letters(alloc, &table.definition)?))?;
    }
    Ok(List::of(letters))
}

/// Takes the variables and the result of a routine in place of those of another one. Where memory runs out nothing is changed.
pub(crate) fn for_routine(
    known: &mut Known,
    alloc: Global,
    routine: &ResolvedRoutine,
) -> Result<(), AllocError>
    ensures ok { OnOk result (known.new ≡ with_routine routine.now known.old) }
    ensures err { OnErr result (known.new ≡ known.old) }
{
    let variables = slot_letters(alloc, routine)?;
    known.variables = variables;
    known.result = letter_of_result(routine.returns);
    Ok(())
}
