//! Makes points wait again, or suspect.
ghost use Rattle.std.specs.Prelude.{◌≡◌, ◌<◌, ◌≤ℤ◌, ◌*◌, ◌⊎◌, ℕ, OnOk, IsTrue, length, slice_index, slice_index_or};
ghost use Rattle.lattice.specs.Mosaic.{void};
ghost use Rattle.lattice.specs.Block.{is_beside};
ghost use Rattle.labelling.specs.Blocks.{is_marked};
ghost use Rattle.tile_flood.specs.Restoring.{AreMarks};
ghost use Rattle.tile_flood.specs.Waiting.{WaitStill};
ghost use Rattle.tile_flood.specs.Suspects.{IsIn};

use crate::affected::window_point;
use crate::cells::Cell;
use crate::flood::Flood;
use crate::values::{at, label_at};
use std::alloc::AllocError;

impl Flood {
    // Of the marked neighbours of the point, makes those suspect that have the cell's label and at least its level. If
    // `others_wait`, the other neighbours wait.
    pub(crate) fn suspect_beside(
        &mut self,
        n: usize,
        point: usize,
        cell: Cell,
        others_wait: bool,
    ) -> Result<(), AllocError>
        requires marks { AreMarks n self.old.levels.items self.old.labels.items }
        requires point { point < n * n }
        ensures levels { OnOk result (self.new.levels.items ≡ self.old.levels.items) }
        ensures labels { OnOk result (self.new.labels.items ≡ self.old.labels.items) }
        ensures waiting { OnOk result (WaitStill self.old.queue self.new.queue) }
        ensures suspect { OnOk result (WaitStill self.old.suspects self.new.suspects) }
        ensures affected { OnOk result (self.new.affected ≡ self.old.affected) }
        ensures suspected { OnOk result ((y : ℕ) → y < n * n → IsTrue (is_beside n point y)
            → IsTrue (is_marked self.old.levels.items y)
            → slice_index self.old.labels.items y ≡ cell.label
            → cell.level ≤ℤ slice_index_or self.old.levels.items y void
            → IsIn self.new.suspects self.old.levels.items y) }
        ensures others { OnOk result (IsTrue others_wait → (y : ℕ) → y < n * n
            → IsTrue (is_beside n point y) → IsTrue (is_marked self.old.levels.items y)
            → IsIn self.new.queue self.old.levels.items y
            ⊎ IsIn self.new.suspects self.old.levels.items y) }
    {
        for d in 0..9 {
            if let Some(e) = window_point(n, point, d) {
                self.suspect_or_wait(e, cell, others_wait)?;
            }
        }
        Ok(())
    }

    // Makes neighbour e suspect, or lets it wait, as `suspect_beside` says.
    fn suspect_or_wait(&mut self, e: usize, cell: Cell, others_wait: bool) -> Result<(), AllocError>
        requires small { e < 4294967296 }
        requires levels { e < length self.old.levels.items }
        requires labels { e < length self.old.labels.items }
        ensures levels { OnOk result (self.new.levels.items ≡ self.old.levels.items) }
        ensures labels { OnOk result (self.new.labels.items ≡ self.old.labels.items) }
        ensures waiting { OnOk result (WaitStill self.old.queue self.new.queue) }
        ensures suspect { OnOk result (WaitStill self.old.suspects self.new.suspects) }
        ensures affected { OnOk result (self.new.affected ≡ self.old.affected) }
        ensures suspected { OnOk result (IsTrue (is_marked self.old.levels.items e)
            → slice_index self.old.labels.items e ≡ cell.label
            → cell.level ≤ℤ slice_index_or self.old.levels.items e void
            → IsIn self.new.suspects self.old.levels.items e) }
        ensures others { OnOk result (IsTrue others_wait
            → IsTrue (is_marked self.old.levels.items e)
            → IsIn self.new.queue self.old.levels.items e
            ⊎ IsIn self.new.suspects self.old.levels.items e) }
    {
        if self.is_unmarked(e) {
            return Ok(());
        }
        let own = at(&self.levels, e);
        if label_at(&self.labels, e) == cell.label && own >= cell.level {
            self.suspects.push(own, e as u32)?;
        } else if others_wait {
            self.queue.push(own, e as u32)?;
        }
        Ok(())
    }
}
