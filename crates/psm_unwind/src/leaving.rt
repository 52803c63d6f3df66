//! Frames that are left.
ghost use Rattle.std.specs.Prelude.{◌≡◌, false, List, [], ◌∷◌, ◌++◌, reverse, Some, IfNone, IfSome};
ghost use Rattle.psm_table.specs.Table.{Contents};
ghost use Rattle.psm_store.specs.declared.store.Mark.{Mark as MarkValue};
ghost use Rattle.psm_store.specs.Marks.{IsOutside, Keeps, defs_of};
ghost use Rattle.psm_code.specs.Parts.{block_at};
ghost use Rattle.psm_code.specs.Raising.{cursors_of, found_by, put_back};
ghost use Rattle.psm_code.specs.State.{closed_cursors};
ghost use Rattle.psm_unwind.specs.Leaving.{cursors_by, cursors_left, inside, is_at, is_innermost_inside, outward, tables_left};
ghost use Rattle.psm_unwind.specs.Marks.{Leaves, Nested, StayDeepest, marks_in};
ghost use Rattle.psm_unwind.specs.View.{frame_of, frames_of};

use crate::parts::block_at;
use crate::run::Frame;
use psm_code::RawRoutine;
use psm_cursor::Cursor;
use psm_store::{Mark, Store, put_back};

/// Leaves the frames of an activation up to that of the block of a context, or all of them: the cursors of their blocks are
/// closed, and where `undo` says so, what an ATOMIC block changed is taken back.
///
/// The store has to hold the marks of the frames. Those of the frames that are left are closed.
pub fn leave_until<S: Store>(
    routine: &RawRoutine,
    undo: bool,
    stop: Option<u32>,
    frames: &mut Vec<Frame>,
    cursors: &mut Vec<Cursor>,
    store: &mut S,
)
    requires { Nested (S.holds store.old) (marks_in (reverse frames.old.items)) }
    ensures frames { frames_of (S.at store.new) (reverse frames.new.items) ≡ outward stop (frames_of (S.at store.old) (reverse frames.old.items)) }
    ensures cursors { cursors.new.items ≡ cursors_left routine.now (inside stop (frames_of (S.at store.old) (reverse frames.old.items))) cursors.old.items }
    ensures tables { S.tables store.new ≡ tables_left undo (inside stop (frames_of (S.at store.old) (reverse frames.old.items))) (S.tables store.old) }
    ensures defs { defs_of (S.tables store.new) ≡ defs_of (S.tables store.old) }
    ensures deepest { StayDeepest (marks_in (reverse frames.old.items)) (S.marks store.old) (marks_in (reverse frames.new.items)) (S.marks store.new) }
    ensures leaves { Leaves (S.holds store.old) (S.at store.old) (marks_in (reverse frames.old.items)) (S.holds store.new) (S.at store.new) (marks_in (reverse frames.new.items)) }
{
    while let Some(frame) = pop_inside(stop, frames) {
        leave_frame(routine, undo, frame, cursors, store);
    }
}

// Takes the innermost frame off, unless it is that of the block of the context.
fn pop_inside(stop: Option<u32>, frames: &mut Vec<Frame>) -> Option<Frame>
    ensures some { IfSome result (λ f. frames.old.items ≡ frames.new.items ++ f ∷ []) }
    ensures inside { IfSome result (λ f. (at : MarkValue → List Contents) → is_at stop (frame_of at f) ≡ false) }
    ensures none { IfNone result (frames.new.items ≡ frames.old.items) }
    ensures outside { IfNone result ((at : MarkValue → List Contents) → is_innermost_inside stop (frames_of at (reverse frames.new.items)) ≡ false) }
{
    if is_innermost_inside(stop, frames.as_slice()) {
        frames.pop()
    } else {
        None
    }
}

// Whether the innermost frame, if there is one, isn't that of the block of the context.
fn is_innermost_inside(stop: Option<u32>, frames: &[Frame]) -> bool
    ensures { (at : MarkValue → List Contents) → result ≡ is_innermost_inside stop (frames_of at (reverse frames.now)) }
{
    match frames.last() {
        None => false,
        Some(frame) => !is_at(stop, frame),
    }
}

// Whether a frame is that of the block of the context.
fn is_at(stop: Option<u32>, frame: &Frame) -> bool
    ensures { (at : MarkValue → List Contents) → result ≡ is_at stop (frame_of at frame.now) }
{
    match frame {
        Frame::Action { .. } => false,
        Frame::Block { context, .. } => match stop {
            None => false,
            Some(block) => block == *context,
        },
    }
}

/// Leaves a frame: the cursors of its block are closed, and where `undo` says so, what the block changed is taken back if it is
/// ATOMIC.
///
/// The store has to hold its mark, which is closed.
pub fn leave_frame<S: Store>(
    routine: &RawRoutine,
    undo: bool,
    frame: Frame,
    cursors: &mut Vec<Cursor>,
    store: &mut S,
)
    requires { Nested (S.holds store.old) (marks_in (frame ∷ [])) }
    ensures cursors { cursors.new.items ≡ cursors_by routine.now (frame_of (S.at store.old) frame) cursors.old.items }
    ensures tables { S.tables store.new ≡ put_back undo (found_by (frame_of (S.at store.old) frame)) (S.tables store.old) }
    ensures defs { defs_of (S.tables store.new) ≡ defs_of (S.tables store.old) }
    ensures deepest { StayDeepest (marks_in (frame ∷ [])) (S.marks store.old) [] (S.marks store.new) }
    ensures leaves { Leaves (S.holds store.old) (S.at store.old) (marks_in (frame ∷ [])) (S.holds store.new) (S.at store.new) [] }
{
    if let Frame::Block { context, found } = frame {
        close_cursors(routine, context, cursors);
        if let Some(mark) = found {
            let_go(undo, mark, store);
        }
    }
}

// Closes a mark, and where `undo` says so, puts the tables back to it first.
fn let_go<S: Store>(undo: bool, mark: Mark, store: &mut S)
    requires { S.holds store.old mark }
    ensures tables { S.tables store.new ≡ put_back undo (Some (S.at store.old mark)) (S.tables store.old) }
    ensures defs { defs_of (S.tables store.new) ≡ defs_of (S.tables store.old) }
    ensures closed { S.marks store.new ≡ mark.depth }
    ensures keeps { Keeps (IsOutside mark) (S.holds store.old) (S.at store.old) (S.holds store.new) (S.at store.new) }
{
    if undo {
        put_back(store, mark);
    } else {
        store.release(mark);
    }
}

// Closes the cursors of the block of a context.
fn close_cursors(routine: &RawRoutine, context: u32, cursors: &mut Vec<Cursor>)
    ensures { cursors.new.items ≡ closed_cursors (cursors_of (block_at routine.now context)) cursors.old.items }
{
    if let Some(block) = block_at(routine, context) {
        close_each(block.cursors.items(), cursors);
    }
}

fn close_each(numbers: &[u32], cursors: &mut Vec<Cursor>)
    ensures { cursors.new.items ≡ closed_cursors numbers.now cursors.old.items }
{
    for number in numbers {
        close(*number as usize, cursors);
    }
}

fn close(number: usize, cursors: &mut Vec<Cursor>)
    ensures { cursors.new.items ≡ closed_cursors (number ∷ []) cursors.old.items }
{
    if number < cursors.len() {
        cursors[number] = Cursor::closed();
    }
}
