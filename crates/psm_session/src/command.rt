//! The commands of a script over code.
use psm_exprcode::Query;
use psm_list::List;
use psm_store::Row;
use psm_value::Datum;

/// A command (ISO/IEC 9075-4:1996, call statement, and ISO/IEC 9075:1992, 13.8, 14.3 and 14.4). Routines and tables are those of the
/// code by their numbers, and columns those of the table by their places.
#[derive(Drop)]
pub enum ScriptCommand {
    /// A procedure, with the values for its IN and INOUT parameters in order.
    Call {
        routine: u32,
        values: List<Datum>,
    },
    /// Rows of values for some columns.
    Insert {
        table: u32,
        columns: List<u32>,
        rows: List<Row>,
    },
    /// A query, which sees no variable.
    Select(Query),
    Commit,
    Rollback,
}

/// The commands of a script, in order.
#[derive(Drop)]
pub struct ScriptCode {
    pub commands: List<ScriptCommand>,
}
