//! What is known of a file and a routine before lines are written.
ghost use Rattle.std.specs.Prelude.{◌≡◌};
ghost use Rattle.psm_exprgen.specs.Written.{letters_at};

use psm_exprcode::Letter;
use psm_list::List;

/// Numbers of routines by those of functions and of procedures, and letters: of the columns of each table, of the arguments that each
/// routine takes, of the values that it gives back and of its result, and, in the routine whose lines are written, of its variables and
/// of its result, where N stands where it has none. Conditions without an SQLSTATE have the first numbers among those declared.
#[derive(Debug, Drop)]
pub struct Known {
    pub functions: List<u32>,
    pub procedures: List<u32>,
    pub columns: List<List<Letter>>,
    pub takes: List<List<Letter>>,
    pub gives: List<List<Letter>>,
    pub results: List<Letter>,
    pub variables: List<Letter>,
    pub result: Letter,
}

impl Known {
    /// The letters of a table's columns; none where it isn't there.
    pub fn columns_at(&self, table: u32) -> &[Letter]
        ensures { result.now ≡ letters_at self.now.columns table }
    {
        match self.columns.items().get(table as usize) {
            Some(letters) => letters.items(),
            None => &[],
        }
    }
}
