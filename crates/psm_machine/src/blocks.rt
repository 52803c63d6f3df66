//! Blocks that are entered and left (ISO/IEC 9075-4:1996, compound statement).
ghost use Rattle.std.specs.Prelude.{◌≡◌, ◌∷◌, ◌++◌, [], true, false, reverse, List, None, Some, IfNone, IfSome};
ghost use Rattle.psm_table.specs.Table.{Contents};
ghost use Rattle.psm_store.specs.declared.store.Mark.{Mark as MarkValue};
ghost use Rattle.psm_store.specs.Marks.{AnyMark, Keeps};
ghost use Rattle.psm_code.specs.Raising.{is_block};
ghost use Rattle.psm_code.specs.Run.{enter, exit, with_frames};
ghost use Rattle.psm_code.specs.State.{InBlock};
ghost use Rattle.psm_code.specs.Steps.{change};
ghost use Rattle.psm_unwind.specs.Marks.{Encloses, MarksStand, Nested, Stays, Unwinds, open_marks};
ghost use Rattle.psm_unwind.specs.View.{frame_of, frames_of, machine_of};
ghost use Rattle.psm_machine.specs.ActResults.{Evaluates, Does};
ghost use Rattle.psm_machine.specs.Successors.{SameMarks, StandStill};
ghost use Rattle.psm_machine.specs.Innermost.{is_innermost};

use crate::stop::Stop;
use psm_code::RawRoutine;
use psm_store::Store;
use psm_unwind::{Frame, Run, block_at, leave_frame};
use std::alloc::Global;

/// N marks are open in a store whose run opens another one, at most.
const MOST_OPEN: u128 = 633_825_300_114_114_700_748_351_602_688;

/// Enters the block of a context. An ATOMIC one finds the tables as they are now, to which a mark puts them back.
///
/// The marks of the run have to stand, and they stand afterwards, also where memory runs out.
pub fn enter<S: Store>(
    alloc: Global,
    routine: &RawRoutine,
    run: &mut Run,
    store: &mut S,
    context: u32,
) -> Result<(), Stop>
    requires { MarksStand (S.holds store.old) (S.marks store.old) run.old }
    ensures expected { Evaluates (enter routine.now context (machine_of (S.tables store.old) (S.at store.old) run.old)) result (machine_of (S.tables store.new) (S.at store.new) run.new) }
    ensures stand { MarksStand (S.holds store.new) (S.marks store.new) run.new }
    ensures keeps { Keeps AnyMark (S.holds store.old) (S.at store.old) (S.holds store.new) (S.at store.new) }
    ensures still { StandStill (S.holds store.old) (S.at store.old) (S.marks store.old) run.old (S.holds store.new) (S.at store.new) (S.marks store.new) run.new }
    ensures callers { run.new.callers ≡ run.old.callers }
{
    match block_at(routine, context) {
        None => Err(Stop::Stuck),
        Some(block) => {
            if block.atomic {
                enter_atomic(alloc, run, store, context)
            } else {
                enter_plain(run, context)
            }
        }
    }
}

// Enters a block that isn't ATOMIC.
fn enter_plain(run: &mut Run, context: u32) -> Result<(), Stop>
    ensures expected { Does (change (λ m. with_frames (InBlock context None ∷ m.running.frames) m)) run.old result run.new }
    ensures marks { SameMarks run.old run.new }
    ensures callers { run.new.callers ≡ run.old.callers }
{
    run.running.frames.push(Frame::Block {
        context,
        found: None,
    })?;
    Ok(())
}

// Enters a block that is ATOMIC. Where there is no memory for its frame, its mark is closed again.
fn enter_atomic<S: Store>(
    alloc: Global,
    run: &mut Run,
    store: &mut S,
    context: u32,
) -> Result<(), Stop>
    requires { MarksStand (S.holds store.old) (S.marks store.old) run.old }
    ensures expected { Evaluates (change (λ m. with_frames (InBlock context (Some m.tables) ∷ m.running.frames) m) (machine_of (S.tables store.old) (S.at store.old) run.old)) result (machine_of (S.tables store.new) (S.at store.new) run.new) }
    ensures stand { MarksStand (S.holds store.new) (S.marks store.new) run.new }
    ensures keeps { Keeps AnyMark (S.holds store.old) (S.at store.old) (S.holds store.new) (S.at store.new) }
    ensures outer { (m : MarkValue) → S.holds store.old m → Encloses (open_marks run.old) m → Stays (S.at store.old) (S.holds store.new) (S.at store.new) m × Encloses (open_marks run.new) m }
    ensures callers { run.new.callers ≡ run.old.callers }
{
    if run.marks >= MOST_OPEN {
        return Err(Stop::Memory);
    }
    run.marks += 1;
    let mark = store.mark(alloc)?;
    let frame = Frame::Block {
        context,
        found: Some(mark),
    };
    if let Err(_) = run.running.frames.push(frame) {
        store.release(mark);
        return Err(Stop::Memory);
    }
    Ok(())
}

/// Leaves the block of a context, whose frame has to be the innermost one: its cursors are closed.
pub fn exit<S: Store>(
    routine: &RawRoutine,
    run: &mut Run,
    store: &mut S,
    context: u32,
) -> Result<(), Stop>
    requires { Nested (S.holds store.old) (open_marks run.old) }
    ensures expected { Evaluates (exit routine.now context (machine_of (S.tables store.old) (S.at store.old) run.old)) result (machine_of (S.tables store.new) (S.at store.new) run.new) }
    ensures unwinds { Unwinds (S.holds store.old) (S.at store.old) (S.marks store.old) (S.tables store.old) run.old (S.holds store.new) (S.at store.new) (S.marks store.new) (S.tables store.new) run.new }
    ensures still { StandStill (S.holds store.old) (S.at store.old) (S.marks store.old) run.old (S.holds store.new) (S.at store.new) (S.marks store.new) run.new }
{
    match pop_block(context, &mut run.running.frames) {
        None => Err(Stop::Stuck),
        Some(frame) => {
            leave_frame(routine, false, frame, &mut run.running.cursors, store);
            Ok(())
        }
    }
}

// Takes the innermost frame off, if it is that of the block of a context.
fn pop_block(context: u32, frames: &mut Vec<Frame>) -> Option<Frame>
    ensures some { IfSome result (λ f. frames.old.items ≡ frames.new.items ++ f ∷ []) }
    ensures block { IfSome result (λ f. (at : MarkValue → List Contents) → is_block context (frame_of at f) ≡ true) }
    ensures none { IfNone result (frames.new.items ≡ frames.old.items) }
    ensures other { IfNone result ((at : MarkValue → List Contents) → is_innermost context (frames_of at (reverse frames.old.items)) ≡ false) }
{
    if is_innermost(context, frames.as_slice()) {
        frames.pop()
    } else {
        None
    }
}

// Whether the innermost frame is that of the block of a context.
fn is_innermost(context: u32, frames: &[Frame]) -> bool
    ensures { (at : MarkValue → List Contents) → result ≡ is_innermost context (frames_of at (reverse frames.now)) }
{
    match frames.last() {
        None => false,
        Some(frame) => is_block(context, frame),
    }
}

fn is_block(context: u32, frame: &Frame) -> bool
    ensures { (at : MarkValue → List Contents) → result ≡ is_block context (frame_of at frame.now) }
{
    match frame {
        Frame::Block { context: block, .. } => context == *block,
        Frame::Action { .. } => false,
    }
}
