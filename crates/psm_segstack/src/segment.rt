//! A segment of a stack: room for a fixed number of items.
ghost use Rattle.std.specs.Prelude.{◌≡◌, ◌<◌, [], ◌∷◌, ◌++◌, length, slice_get, IfOk, IfNone};
ghost use Rattle.std.specs.Option.{option_copied, option_to_list};
ghost use Rattle.psm_segstack.specs.Segments.{segment_room};

use std::alloc::{AllocError, Global};
use std::marker::Model;

/// How many items a segment has room for.
pub(crate) const ROOM: usize = 1024;

/// Room for n items that is never outgrown, seen as the items in it.
#[derive(Drop)]
pub(crate) struct Segment<T> {
    items: Vec<T>,
}

impl<T> Model for Segment<T> {
    ghost use Rattle.std.specs.Prelude.{List, ◌≤◌, vec_capacity};
    ghost use Rattle.std.specs.Coded.{coded_list};
    ghost use Rattle.psm_segstack.specs.Segments.{segment_room};

    ghost Value = { List T };

    ghost coded = { coded_list T.code };

    ghost view = { λ s. s.items.items };

    ghost invariant = { λ s. segment_room ≤ vec_capacity s.items };
}

impl<T> Segment<T> {
    /// Lends the item at an index.
    pub(crate) fn get(&self, at: usize) -> Option<&T>
        ensures { option_copied result ≡ slice_get self.now at }
    {
        self.items.get(at)
    }

    /// Takes the last item out.
    pub(crate) fn pop(&mut self) -> Option<T>
        ensures items { self.old ≡ self.new ++ option_to_list result }
        ensures none { IfNone result (self.old ≡ []) }
    {
        self.items.pop()
    }
}

impl<T: Drop> Segment<T> {
    /// An empty segment.
    pub(crate) fn new(alloc: Global) -> Result<Segment<T>, AllocError>
        ensures { IfOk result (λ s. s ≡ []) }
    {
        Ok(Segment {
            items: Vec::with_capacity(alloc, ROOM)?,
        })
    }

    /// Puts an item at the end, which takes no memory.
    pub(crate) fn push(&mut self, value: T)
        requires { length self.old < segment_room }
        ensures { self.new ≡ self.old ++ value ∷ [] }
    {
        self.items.push(value).unwrap();
    }
}
