//! A heap whose lowest element comes first.
ghost use Rattle.std.specs.Prelude.{◌≡◌, ◌+◌, [], IfSome, IfNone, OnOk, false, length};
ghost use Rattle.std.specs.Ordering.{is_lt};
ghost use Rattle.border_graph.specs.Heaps.{IsAdded, IsTaken};

use std::alloc::{AllocError, Global};
use std::cmp::Reverse;
use std::collections::BinaryHeap;
use std::marker::Model;

/// A heap; the lowest element is removed first.
#[derive(Drop)]
pub(crate) struct LowestFirst<T: Ord> {
    items: BinaryHeap<Reverse<T>>,
}

impl<T: Ord> Model for LowestFirst<T> {
    ghost use Rattle.std.specs.Prelude.{List, map};
    ghost use Rattle.std.specs.BinaryHeap.{heap_items, IsHeap};

    ghost Value = { List T };

    ghost view = { λ h. map (λ r. r.0) (heap_items h.items) };

    ghost invariant = { λ h. IsHeap (λ x y. T.cmp y.0 x.0) (heap_items h.items) };
}

impl<T: Ord + Copy> LowestFirst<T> {
    /// An empty heap.
    pub(crate) fn new(alloc: Global) -> LowestFirst<T>
        ensures { result ≡ [] }
    {
        LowestFirst {
            items: BinaryHeap::new(alloc),
        }
    }

    /// Adds the element to the heap.
    pub(crate) fn push(&mut self, item: T) -> Result<(), AllocError>
        ensures added { OnOk result (IsAdded self.old self.new item) }
        ensures count { OnOk result (length self.new ≡ length self.old + 1) }
    {
        self.items.push(Reverse(item))?;
        Ok(())
    }

    /// Removes an element that is lowest in the heap, and returns it.
    pub(crate) fn pop(&mut self) -> Option<T>
        ensures none { IfNone result (self.old ≡ []) }
        ensures taken { IfSome result (λ item. IsTaken (λ x y. is_lt (T.cmp y x) ≡ false) self.old self.new item) }
        ensures count { IfSome result (λ _. length self.old ≡ length self.new + 1) }
    {
        let Reverse(item) = self.items.pop()?;
        Some(item)
    }
}
