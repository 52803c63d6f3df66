//! Resolved commands.
use psm_list::{Boxed, List};
use psm_resolved::ResolvedQuery;
use psm_value::Datum;

/// A command of a resolved script (ISO/IEC 9075-4:1996, call statement, and ISO/IEC 9075:1992, 13.8, 14.3 and 14.4).
#[derive(Drop)]
pub enum ResolvedCommand {
    /// The procedure with that number among the procedures, with the values for its IN and INOUT parameters in order.
    Call {
        procedure: u32,
        values: List<Datum>,
    },
    /// The table in that place, the places of the columns for which there are values, and the rows of these.
    Insert {
        table: u32,
        columns: List<u32>,
        rows: List<List<Datum>>,
    },
    Select(Boxed<ResolvedQuery>),
    Commit,
    Rollback,
}

/// The commands of a script, in order.
#[derive(Drop)]
pub struct ResolvedScript {
    pub commands: List<ResolvedCommand>,
}
