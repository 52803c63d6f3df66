//! A stack that grows by segments and moves no item.
ghost use Rattle.std.specs.Prelude.{◌≡◌, ◌+◌, ◌-◌, ◌≤◌, [], ◌∷◌, ◌++◌, length, take, slice_get, IfNone, OnOk, OnErr};
ghost use Rattle.std.specs.Option.{option_copied, option_to_list};

use crate::segment::{ROOM, Segment};
use std::alloc::{AllocError, Global};
use std::marker::Model;

/// More segments than this would hold more items than a number counts.
const MOST_SEGMENTS: usize = 1 << 53;

/// A stack that grows by segments and moves no item. It is seen as its items, the last on top, and as how
/// many more it has room for.
#[derive(Drop)]
pub struct SegStack<T> {
    alloc: Global,
    segments: Vec<Segment<T>>,
    len: usize,
}

impl<T> Model for SegStack<T> {
    ghost use Rattle.std.specs.Prelude.{◌≤◌, ◌^◌, length};
    ghost use Rattle.psm_segstack.specs.Segments.{AreFilled};
    ghost use Rattle.psm_segstack.specs.Stack.{Stack, stack_of};

    ghost Value = { Stack T };

    ghost view = { λ s. stack_of s.segments.items s.len };

    ghost invariant = { λ s. AreFilled s.segments.items s.len × (length s.segments.items ≤ 2 ^ 53) };
}

impl<T> SegStack<T> {
    /// The number of items.
    pub fn len(&self) -> usize
        ensures { result ≡ length self.now.items }
    {
        self.len
    }

    /// Lends the item at an index, the first at 0.
    pub fn get(&self, at: usize) -> Option<&T>
        ensures { option_copied result ≡ slice_get self.now.items at }
    {
        if at >= self.len {
            return None;
        }
        self.segments[at / ROOM].get(at % ROOM)
    }

    /// Lends the last item.
    pub fn top(&self) -> Option<&T>
        ensures { option_copied result ≡ slice_get self.now.items (length self.now.items - 1) }
    {
        if self.len == 0 {
            return None;
        }
        self.get(self.len - 1)
    }

    /// Takes the last item out. Its room stays.
    pub fn pop(&mut self) -> Option<T>
        ensures items { self.old.items ≡ self.new.items ++ option_to_list result }
        ensures spare { self.new.spare ≡ self.old.spare + length (option_to_list result) }
        ensures none { IfNone result (self.old.items ≡ []) }
    {
        if self.len == 0 {
            return None;
        }
        self.len -= 1;
        self.segments[self.len / ROOM].pop()
    }
}

impl<T: Drop> SegStack<T> {
    /// An empty stack, for which no memory is taken.
    pub fn new(alloc: Global) -> SegStack<T>
        ensures { result ≡ record { items = []; spare = 0 } }
    {
        SegStack {
            alloc,
            segments: Vec::new(alloc),
            len: 0,
        }
    }

    /// Makes room for one more item. Where there is some already, no memory is taken.
    pub fn reserve(&mut self) -> Result<(), AllocError>
        ensures items { self.new.items ≡ self.old.items }
        ensures room { OnOk result (1 ≤ self.new.spare) }
        ensures grown { self.old.spare ≤ self.new.spare }
        ensures same { 1 ≤ self.old.spare → self.new ≡ self.old }
        ensures full { OnErr result (self.old.spare ≡ 0) }
        ensures err { OnErr result (self.new ≡ self.old) }
    {
        if self.len / ROOM < self.segments.len() {
            return Ok(());
        }
        if self.segments.len() == MOST_SEGMENTS {
            return Err(AllocError);
        }
        self.segments.push(Segment::new(self.alloc)?)?;
        Ok(())
    }

    /// Puts an item on top, which takes no memory.
    pub fn push(&mut self, value: T)
        requires { 1 ≤ self.old.spare }
        ensures { self.new ≡ record { items = self.old.items ++ value ∷ []; spare = self.old.spare - 1 } }
    {
        self.segments[self.len / ROOM].push(value);
        self.len += 1;
    }

    /// Keeps n of the first items and drops the others, the last first. Their room stays.
    pub fn cut(&mut self, len: usize)
        ensures items { self.new.items ≡ take len self.old.items }
        ensures room { length self.new.items + self.new.spare ≡ length self.old.items + self.old.spare }
    {
        while len < self.len {
            let _ = self.pop();
        }
    }
}
