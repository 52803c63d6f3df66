//! What COMMIT and ROLLBACK do to the transaction (ISO/IEC 9075:1992, 14.3 and 14.4).
ghost use Rattle.std.specs.Prelude.{◌≡◌, ◌<◌, ◌+◌, ℕ};
ghost use Rattle.psm_store.specs.Marks.{IsOutside, Keeps, most_marks};
ghost use Rattle.psm_session.specs.Steps.{Marked, Settles, standing, tables_after};
ghost use Rattle.psm_session.specs.declared.command.ScriptCommand.TheVariants as commands;

use crate::command::ScriptCommand;
use crate::step::Step;
use psm_store::{Mark, Store, go_back};
use std::alloc::{AllocError, Global};

/// Settles the transaction after the step of a command. After COMMIT it has a new mark, which stands for the tables of now; where there
/// is no memory for it, it has none. After ROLLBACK the tables are put back to its mark, which stays.
pub(crate) fn settle<S: Store>(
    alloc: Global,
    step: Step,
    command: &ScriptCommand,
    mark: &mut Mark,
    store: &mut S,
) -> Result<Step, AllocError>
    requires held { S.holds store.old mark.old }
    requires counted { S.marks store.old ≡ mark.old.depth + 1 }
    requires few { mark.old.depth < most_marks }
    ensures settles { (turns : ℕ) → Settles step command.now (standing (S.tables store.old) turns (S.at store.old mark.old)) (standing (S.tables store.new) turns (S.at store.new mark.new)) result }
    ensures marked { Marked (S.holds store.old) mark.old (S.holds store.new) (S.marks store.new) mark.new result }
    ensures keeps { Keeps (IsOutside mark.old) (S.holds store.old) (S.at store.old) (S.holds store.new) (S.at store.new) }
{
    match command {
        ScriptCommand::Commit => commit(alloc, step, mark, store),
        ScriptCommand::Rollback => {
            roll_back(step, *mark, store);
            Ok(step)
        }
        ScriptCommand::Call { .. } => Ok(step),
        ScriptCommand::Insert { .. } => Ok(step),
        ScriptCommand::Select(_) => Ok(step),
    }
}

// The transaction has a new mark, if the next command is due.
fn commit<S: Store>(
    alloc: Global,
    step: Step,
    mark: &mut Mark,
    store: &mut S,
) -> Result<Step, AllocError>
    requires held { S.holds store.old mark.old }
    requires counted { S.marks store.old ≡ mark.old.depth + 1 }
    requires few { mark.old.depth < most_marks }
    ensures settles { (turns : ℕ) → Settles step commands.Commit (standing (S.tables store.old) turns (S.at store.old mark.old)) (standing (S.tables store.new) turns (S.at store.new mark.new)) result }
    ensures marked { Marked (S.holds store.old) mark.old (S.holds store.new) (S.marks store.new) mark.new result }
    ensures keeps { Keeps (IsOutside mark.old) (S.holds store.old) (S.at store.old) (S.holds store.new) (S.at store.new) }
{
    match step {
        Step::Next => {
            store.release(*mark);
            *mark = store.mark(alloc)?;
            Ok(step)
        }
        Step::TurnsUsed | Step::WriteFault | Step::Memory => Ok(step),
    }
}

// Puts the tables back to a mark after a step, unless memory ran out.
fn roll_back<S: Store>(step: Step, mark: Mark, store: &mut S)
    requires held { S.holds store.old mark }
    requires counted { S.marks store.old ≡ mark.depth + 1 }
    ensures tables { S.tables store.new ≡ tables_after step (S.at store.old mark) (S.tables store.old) }
    ensures stands { S.at store.new mark ≡ S.at store.old mark }
    ensures held { S.holds store.new mark }
    ensures marks { S.marks store.new ≡ mark.depth + 1 }
    ensures keeps { Keeps (IsOutside mark) (S.holds store.old) (S.at store.old) (S.holds store.new) (S.at store.new) }
{
    match step {
        Step::Memory => {}
        Step::Next | Step::TurnsUsed | Step::WriteFault => go_back(store, mark),
    }
}
