//! What a run of code changes beside the tables.

use psm_cond::{Area, Condition};
use psm_cursor::Cursor;
use psm_list::Boxed;
use psm_operands::OperandStack;
use psm_sqlstate::SqlState;
use psm_store::Mark;
use psm_value::Datum;

/// A block that has been entered, or the action of a handler that runs. A condition is boxed, so that the frame of a block is small.
#[derive(Debug, Drop)]
pub enum Frame {
    /// A block by its context, with a mark of the tables that it found where it is ATOMIC.
    Block {
        context: u32,
        found: Option<Mark>,
    },
    /// The action of the handler with that number, with the line at which CONTINUE goes on, and the condition that activated it and
    /// the number of rows that the area had then.
    Action {
        handler: u32,
        resume: Option<u32>,
        condition: Boxed<Condition>,
        rows: u32,
    },
}

/// The activation of a routine.
#[derive(Debug, Drop)]
pub struct Activation {
    /// The number of the routine.
    pub routine: u32,
    /// The line that comes next. In an activation that called another one it is that of the call.
    pub line: usize,
    /// By their slots.
    pub variables: Vec<Datum>,
    /// By their numbers.
    pub cursors: Vec<Cursor>,
    /// The innermost one at the end.
    pub frames: Vec<Frame>,
}

/// A run of code. Its tables are in a store, which holds the marks of the blocks that have been entered.
#[derive(Debug, Drop)]
pub struct Run {
    /// The activation that runs.
    pub running: Activation,
    /// Those that called it, the innermost one at the end.
    pub callers: Vec<Activation>,
    /// Those of the activation that runs, and below them those that each caller keeps.
    pub operands: OperandStack,
    pub area: Area,
    /// The warning that is pending.
    pub pending: Option<SqlState>,
    /// The turns that are left.
    pub turns: u64,
    /// How many marks were open in the store when the run began.
    pub base: u128,
    /// The store has no more marks than n.
    pub marks: u128,
}
