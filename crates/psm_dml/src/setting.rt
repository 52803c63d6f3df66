//! The row that UPDATE makes of an old one (ISO/IEC 9075:1992, 13.10).
ghost use Rattle.std.specs.Prelude.{◌≡◌, ◌<◌, All, length, map};
ghost use Rattle.psm_value.specs.Answer.{Gives};
ghost use Rattle.psm_value.specs.SqlType.{IsType};
ghost use Rattle.psm_exprcode.specs.Evaluated.{evaluated};
ghost use Rattle.psm_table.specs.Changing.{with_values as row_with_values};
ghost use Rattle.psm_table.specs.Definition.{kinds_of, HasColumns};
ghost use Rattle.psm_table.specs.Evaluator.{collected};
ghost use Rattle.psm_tablecode.specs.Codes.{value_in};
ghost use Rattle.psm_tablecode.specs.TypeChecks.{Runs};
ghost use Rattle.psm_dml.specs.Changes.{row_set, set_of};
ghost use Rattle.psm_dml.specs.TypeChecks.{Assigns};

use crate::storing::stored_value;
use psm_exprcode::{Operand, SetItem};
use psm_table::{List, Row, TableDef};
use psm_tablecode::value;
use psm_value::{Datum, ValueFault};
use std::alloc::Global;

/// The row with the new values as its columns store them. All are evaluated over the old row, from the left, before the
/// first is stored.
pub(crate) fn set_row(
    alloc: Global,
    stack: &mut Vec<Operand>,
    def: &TableDef,
    sets: &[SetItem],
    row: &Row,
    vars: &[Datum],
) -> Result<Row, ValueFault>
    requires types { All IsType (kinds_of def.now.columns) }
    requires long { HasColumns def.now row.now }
    requires sets { All (Assigns def.now row.now vars.now) sets.now }
    ensures { Gives (row_set vars.now def.now sets.now row.now) result }
{
    let values = new_values(alloc, stack, sets, row.values(), vars)?;
    with_values(alloc, def, sets, values.items(), row)
}

fn new_values(
    alloc: Global,
    stack: &mut Vec<Operand>,
    sets: &[SetItem],
    row: &[Datum],
    vars: &[Datum],
) -> Result<List<Datum>, ValueFault>
    requires { All (λ s. Runs row.now vars.now s.source) sets.now }
    ensures { Gives (collected (λ s. value_in (evaluated s.source row.now vars.now)) sets.now) result }
{
    let mut values = Vec::new(alloc);
    for set in sets {
        values.push(value(alloc, stack, &set.source, row, vars)?)?;
    }
    Ok(List::of(values))
}

// The row with the values stored in their columns, from the left.
fn with_values(
    alloc: Global,
    def: &TableDef,
    sets: &[SetItem],
    values: &[Datum],
    row: &Row,
) -> Result<Row, ValueFault>
    requires types { All IsType (kinds_of def.now.columns) }
    requires long { HasColumns def.now row.now }
    requires columns { All (λ s. s.column < length def.now.columns) sets.now }
    requires values { length values.now ≡ length sets.now }
    ensures { Gives (row_with_values def.now (map set_of sets.now) values.now row.now) result }
{
    let mut made = row.copy(alloc)?.into_vec();
    for at in 0..sets.len() {
        let column = sets[at].column as usize;
        made[column] = stored_value(alloc, &def.columns.items()[column], &values[at])?;
    }
    Ok(Row::of(made))
}
