//! Waiting points pass their levels and labels on to their neighbours, the lowest point first.
ghost use Rattle.std.specs.Prelude.{◌≡◌, ◌<◌, ◌≤ℤ◌, ◌<ℤ◌, ◌*◌, ℕ, OnOk, IfOk, IsTrue, slice_index_or};
ghost use Rattle.std.specs.Int.{int_max};
ghost use Rattle.lattice.specs.Mosaic.{void};
ghost use Rattle.lattice.specs.Block.{is_solid, is_beside};
ghost use Rattle.tile_flood.specs.Views.{viewed_block};
ghost use Rattle.labelling.specs.Labelling.{IsLabelling};
ghost use Rattle.tile_flood.specs.Carried.{AreCarried};
ghost use Rattle.labelling.specs.Blocks.{is_marked};
ghost use Rattle.tile_flood.specs.Suspects.{IsIn, IsInOr, IsBesideWith, AreAtMost};
ghost use Rattle.tile_flood.specs.Floods.{IsMendingIn, AreMendingIn, IsPassingOnIn, StayListedIn};

use crate::affected::{Affected, window_point};
use crate::cells::{Cell, PoppedCell};
use crate::flood::Flood;
use crate::outlets::is_ground;
use crate::queue::QueueEntry;
use crate::values::{at, higher, label_at};
use crate::views::BlockView;
use std::alloc::AllocError;

impl Flood {
    // Examines suspects and lets waiting points pass on their levels, always the lowest first, until none is left. Stops
    // after `most` points. Returns whether none is left.
    pub(crate) fn settle_changes(
        &mut self,
        block: &BlockView,
        most: usize,
    ) -> Result<bool, AllocError>
        requires state { AreMendingIn block.now self.old }
        ensures mended { IfOk result (λ done. IsTrue done
            → IsLabelling (viewed_block block.now) self.new.levels.items self.new.labels.items
            × AreCarried (viewed_block block.now) self.new.levels.items self.new.labels.items) }
        ensures listed { OnOk result (StayListedIn block.now self.old self.new) }
    {
        for _ in 0..most {
            if let Some(entry) = self.take_suspect() {
                self.examine(block, entry)?;
            } else if let Some(entry) = self.queue.pop() {
                self.pass_on(block, entry)?;
            } else {
                return Ok(true);
            }
        }
        Ok(false)
    }

    // If the point still has the level at which it waited, passes its level and label on to its neighbours.
    fn pass_on(&mut self, block: &BlockView, entry: QueueEntry) -> Result<(), AllocError>
        requires state { IsMendingIn block.now self.old (IsInOr self.old.queue self.old.levels.items entry.point entry.level) (IsIn self.old.suspects self.old.levels.items) }
        ensures state { OnOk result (AreMendingIn block.now self.new) }
        ensures listed { OnOk result (StayListedIn block.now self.old self.new) }
    {
        if !self.is_current(entry) {
            return Ok(());
        }
        let point = entry.point as usize;
        let popped = PoppedCell {
            point,
            level: entry.level,
            label: label_at(&self.labels, point),
        };
        for d in 0..9 {
            if let Some(e) = window_point(block.n, point, d) {
                self.visit(block, popped, e)?;
            }
        }
        Ok(())
    }

    // Visits point e next to the popped point: marks it, or lowers its level if the popped point allows a lower one.
    fn visit(&mut self, block: &BlockView, popped: PoppedCell, e: usize) -> Result<(), AllocError>
        requires e { e < block.now.n * block.now.n }
        requires beside { IsTrue (is_beside block.now.n popped.point e) }
        requires state { IsPassingOnIn block.now self.old popped.point popped.level popped.label }
        ensures state { OnOk result (IsPassingOnIn block.now self.new popped.point popped.level popped.label) }
        ensures at_most { OnOk result (AreAtMost self.old.levels.items self.new.levels.items) }
        ensures reached { OnOk result (IsTrue (is_solid (viewed_block block.now) e)
            → IsTrue (is_marked self.new.levels.items e)
            × (slice_index_or self.new.levels.items e void
            ≤ℤ int_max (slice_index_or block.now.heights.now e void) popped.level)) }
        ensures listed { OnOk result (StayListedIn block.now self.old self.new) }
    {
        if !is_ground(block, e) {
            return Ok(());
        }
        let level = higher(at(block.heights, e), popped.level);
        if self.is_unmarked(e) {
            self.mark(e, level, popped.label)?;
            return Ok(());
        }
        if level >= at(&self.levels, e) {
            return Ok(());
        }
        self.lower(block, popped, e, level)?;
        Ok(())
    }

    // Lowers the level of point e, next to the popped point. If e keeps its label, the points that depend on it are
    // unchanged; otherwise they become suspect.
    fn lower(
        &mut self,
        block: &BlockView,
        popped: PoppedCell,
        e: usize,
        level: i16,
    ) -> Result<(), AllocError>
        requires e { e < block.now.n * block.now.n }
        requires beside { IsTrue (is_beside block.now.n popped.point e) }
        requires marked { IsTrue (is_marked self.old.levels.items e) }
        requires level { level ≡ int_max (slice_index_or block.now.heights.now e void) popped.level }
        requires lower { level <ℤ slice_index_or self.old.levels.items e void }
        requires state { IsPassingOnIn block.now self.old popped.point popped.level popped.label }
        ensures state { OnOk result (IsPassingOnIn block.now self.new popped.point popped.level popped.label) }
        ensures at_most { OnOk result (AreAtMost self.old.levels.items self.new.levels.items) }
        ensures reached { OnOk result (IsTrue (is_marked self.new.levels.items e)
            × (slice_index_or self.new.levels.items e void
            ≤ℤ int_max (slice_index_or block.now.heights.now e void) popped.level)) }
        ensures listed { OnOk result (StayListedIn block.now self.old self.new) }
    {
        let own = Cell {
            level: at(&self.levels, e),
            label: label_at(&self.labels, e),
        };
        let label = self.label_for(block, popped, e, level);
        self.affected.push(Affected {
            point: e as u32,
            label: own.label,
        })?;
        self.mark(e, level, label)?;
        if label == own.label {
            return Ok(());
        }
        self.suspect_beside(block.n, e, own, false)?;
        Ok(())
    }

    // The label of point e, next to the popped point, at this level. It is e's own label if that is right there, otherwise
    // the popped point's.
    fn label_for(&self, block: &BlockView, popped: PoppedCell, e: usize, level: i16) -> u16
        requires e { e < block.now.n * block.now.n }
        requires beside { IsTrue (is_beside block.now.n popped.point e) }
        requires level { level ≡ int_max (slice_index_or block.now.heights.now e void) popped.level }
        requires state { IsPassingOnIn block.now self.now popped.point popped.level popped.label }
        ensures { IsBesideWith block.now.n self.now.levels.items self.now.labels.items e result level }
    {
        let own = label_at(&self.labels, e);
        if self.has_beside(block.n, e, own, level) {
            return own;
        }
        popped.label
    }
}
