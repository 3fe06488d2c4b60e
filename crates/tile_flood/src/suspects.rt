//! Suspects: points whose levels and labels may be wrong. They are right if a lower neighbour supports them.
ghost use Rattle.std.specs.Prelude.{◌≡◌, ◌<◌, ◌≤ℤ◌, ◌<ℤ◌, ◌*◌, ◌⊎◌, ◌++◌, ◌∷◌, [], ℕ, ℤ, false, OnOk, IfSome, IfNone, IsTrue, length, slice_set, slice_index, slice_index_or};
ghost use Rattle.lattice.specs.Mosaic.{void};
ghost use Rattle.lattice.specs.Block.{is_solid, is_exit, is_beside};
ghost use Rattle.tile_flood.specs.Views.{viewed_block};
ghost use Rattle.labelling.specs.Blocks.{is_marked};
ghost use Rattle.tile_flood.specs.Restoring.{AreMarks};
ghost use Rattle.tile_flood.specs.Waiting.{Waits, WaitStill, IsTaken};
ghost use Rattle.tile_flood.specs.Suspects.{IsHeldUp, IsIn, IsInOr, IsBesideWith};
ghost use Rattle.tile_flood.specs.Floods.{IsMendingIn, AreMendingIn, StayListedIn};

use crate::affected::{Affected, window_point};
use crate::cells::{Cell, VOID_CELL};
use crate::flood::Flood;
use crate::outlets::own_label;
use crate::queue::QueueEntry;
use crate::values::{at, label_at};
use crate::views::BlockView;
use std::alloc::AllocError;

impl Flood {
    // Removes a suspect of the lowest level and returns it, unless a point waits at a lower level.
    pub(crate) fn take_suspect(&mut self) -> Option<QueueEntry>
        ensures levels { self.new.levels.items ≡ self.old.levels.items }
        ensures labels { self.new.labels.items ≡ self.old.labels.items }
        ensures queue { self.new.queue ≡ self.old.queue }
        ensures affected { self.new.affected ≡ self.old.affected }
        ensures taken { IfSome result (λ entry. IsTaken self.old.suspects self.new.suspects entry.level entry.point) }
        ensures same { IfNone result (self.new.suspects ≡ self.old.suspects) }
        ensures none { IfNone result (((l : ℤ) (e : ℕ) → Waits self.old.queue l e → ⊥)
            → (l : ℤ) (e : ℕ) → Waits self.old.suspects l e → ⊥) }
    {
        let suspect = self.suspects.lowest_level()?;
        if let Some(waiting) = self.queue.lowest_level() {
            if waiting < suspect {
                return None;
            }
        }
        let Some(entry) = self.suspects.pop() else {
            return None;
        };
        Some(entry)
    }

    // Examines a suspect point: if a neighbour supports it at this level, it waits, otherwise its level and label are
    // removed.
    pub(crate) fn examine(&mut self, block: &BlockView, entry: QueueEntry) -> Result<(), AllocError>
        requires state { IsMendingIn block.now self.old (IsIn self.old.queue self.old.levels.items) (IsInOr self.old.suspects self.old.levels.items entry.point entry.level) }
        ensures state { OnOk result (AreMendingIn block.now self.new) }
        ensures listed { OnOk result (StayListedIn block.now self.old self.new) }
    {
        if !self.is_current(entry) {
            return Ok(());
        }
        let e = entry.point as usize;
        if self.is_held(block, e) {
            self.queue.push(entry.level, entry.point)?;
            return Ok(());
        }
        self.reset(block.n, e, VOID_CELL, entry.level)?;
        Ok(())
    }

    // Whether the point still has this level.
    pub(crate) fn is_current(&self, entry: QueueEntry) -> bool
        ensures current { IsTrue result → IsTrue (is_marked self.now.levels.items entry.point) }
        ensures level { IsTrue result
            → slice_index_or self.now.levels.items entry.point void ≡ entry.level }
        ensures inside { IsTrue result → entry.point < length self.now.levels.items }
        ensures stale { result ≡ false → IsTrue (is_marked self.now.levels.items entry.point)
            → slice_index_or self.now.levels.items entry.point void ≡ entry.level → ⊥ }
    {
        let e = entry.point as usize;
        if !self.is_marked(e) {
            return false;
        }
        at(&self.levels, e) == entry.level
    }

    // Whether the point is an outlet, or a lower neighbour supports its level and label. Neighbours at an equal level don't
    // count, since two points could support each other.
    fn is_held(&self, block: &BlockView, e: usize) -> bool
        requires marks { AreMarks block.now.n self.now.levels.items self.now.labels.items }
        requires ground { (z : ℕ) → IsTrue (is_marked self.now.levels.items z)
            → IsTrue (is_solid (viewed_block block.now) z) }
        requires marked { IsTrue (is_marked self.now.levels.items e) }
        requires e { e < block.now.n * block.now.n }
        ensures held { IsTrue result
            → IsTrue (is_exit (viewed_block block.now) e)
            ⊎ ((z : ℕ)
            × (IsHeldUp block.now.n block.now.heights.now block.now.sinks.now self.now.levels.items self.now.labels.items e z
            × (slice_index_or self.now.levels.items z void
            <ℤ slice_index_or self.now.levels.items e void))) }
        ensures inner { result ≡ false → is_exit (viewed_block block.now) e ≡ false }
    {
        let level = at(&self.levels, e);
        match own_label(block, e / block.n, e % block.n) {
            Some(_) => true,
            None => {
                at(block.heights, e) <= level
                    && self.has_beside(block.n, e, label_at(&self.labels, e), level - 1)
            }
        }
    }

    // Whether a neighbour of the point has this label and at most this level.
    pub(crate) fn has_beside(&self, n: usize, point: usize, label: u16, most: i16) -> bool
        requires marks { AreMarks n self.now.levels.items self.now.labels.items }
        requires point { point < n * n }
        ensures { IsTrue result
            → IsBesideWith n self.now.levels.items self.now.labels.items point label most }
    {
        for d in 0..9 {
            if let Some(e) = window_point(n, point, d) {
                if !self.is_unmarked(e)
                    && label_at(&self.labels, e) == label
                    && at(&self.levels, e) <= most
                {
                    return true;
                }
            }
        }
        false
    }

    // Sets the point's level and label to those of the cell, and lists the point with its old label. Neighbours with the old
    // label, from the level `from` on, become suspect; all other neighbours wait.
    pub(crate) fn reset(
        &mut self,
        n: usize,
        e: usize,
        cell: Cell,
        level: i16,
    ) -> Result<(), AllocError>
        requires marks { AreMarks n self.old.levels.items self.old.labels.items }
        requires e { e < n * n }
        ensures levels { OnOk result (self.new.levels.items ≡ slice_set self.old.levels.items e cell.level) }
        ensures labels { OnOk result (self.new.labels.items ≡ slice_set self.old.labels.items e cell.label) }
        ensures affected { OnOk result (self.new.affected.items ≡ self.old.affected.items
            ++ record { point = e; label = slice_index self.old.labels.items e } ∷ []) }
        ensures waiting { OnOk result (WaitStill self.old.queue self.new.queue) }
        ensures suspect { OnOk result (WaitStill self.old.suspects self.new.suspects) }
        ensures suspected { OnOk result ((y : ℕ) → y < n * n → IsTrue (is_beside n e y)
            → IsTrue (is_marked self.new.levels.items y)
            → slice_index self.new.labels.items y ≡ slice_index self.old.labels.items e
            → level ≤ℤ slice_index_or self.new.levels.items y void
            → IsIn self.new.suspects self.new.levels.items y) }
        ensures others { OnOk result ((y : ℕ) → y < n * n → IsTrue (is_beside n e y)
            → IsTrue (is_marked self.new.levels.items y)
            → IsIn self.new.queue self.new.levels.items y
            ⊎ IsIn self.new.suspects self.new.levels.items y) }
    {
        let label = label_at(&self.labels, e);
        self.affected.push(Affected {
            point: e as u32,
            label,
        })?;
        self.levels[e] = cell.level;
        self.labels[e] = cell.label;
        self.suspect_beside(n, e, Cell { level, label }, true)?;
        Ok(())
    }
}
