//! Priority-Flood over one block (Barnes, Lehman and Mulla 2014), with labels.
ghost use Rattle.std.specs.Prelude.{◌≡◌, ◌<◌, ℕ, ◌*◌, ◌+◌, IfOk, IfErr, OnOk, IsTrue, length, slice_set, slice_index, slice_index_or};
ghost use Rattle.std.specs.Ordering.{int_eq};
ghost use Rattle.lattice.specs.Mosaic.{void};
ghost use Rattle.lattice.specs.declared.refusal.Refusal.TheVariants.{NoMemory};
ghost use Rattle.labelling.specs.Labelling.{IsLabelling, NO_LABEL as no_label};
ghost use Rattle.tile_flood.specs.Carried.{AreCarried};
ghost use Rattle.tile_flood.specs.Views.{viewed_block};
ghost use Rattle.tile_flood.specs.Waiting.{IsJoined};
ghost use Rattle.tile_flood.specs.Cells.{levels_of, labels_of, AreCells};
ghost use Rattle.labelling.specs.Blocks.{is_marked};

use crate::affected::Affected;
use crate::block::Block;
use crate::cells::{Cell, labels_in, levels_in, unlabelled};
use crate::labelled::Labelled;
use crate::queue::Queue;
use crate::seeding::seed;
use crate::settling::settle;
use crate::values::has_level;
use crate::views::BlockView;
use lattice::{Refusal, VOID};
use std::alloc::{AllocError, Global};

/// A flood of a block: water rises from its outlets inwards, over the lowest points first. While a labelling is mended, its
/// state has the levels and labels, a queue of waiting points, suspect points, and points whose level or label changed.
#[derive(Drop)]
pub struct Flood {
    pub(crate) levels: Vec<i16>,
    pub(crate) labels: Vec<u16>,
    pub(crate) queue: Queue,
    pub(crate) suspects: Queue,
    pub(crate) affected: Vec<Affected>,
}

impl Flood {
    /// The labelling of the block. A ground point's level is the least crest of paths inside the block to a ground rim point
    /// or an inner outlet; its label names one that is reached at that level. Levels and labels are carried from point to
    /// adjacent point, as `mend` requires. The only refusal is NoMemory.
    pub fn run(alloc: Global, block: &Block) -> Result<Labelled, Refusal>
        ensures side { IfOk result (λ labelled. labelled.side ≡ block.now.side) }
        ensures labelling { IfOk result (λ labelled. IsLabelling block.now labelled.levels labelled.labels) }
        ensures carried { IfOk result (λ labelled. AreCarried block.now labelled.levels labelled.labels) }
        ensures refusal { IfErr result (λ refusal. refusal ≡ NoMemory) }
    {
        let view = block.view();
        let mut cells = unlabelled(alloc, view.heights)?;
        flood_cells(alloc, &view, &mut cells)?;
        let levels = levels_in(alloc, &cells)?;
        let labels = labels_in(alloc, &cells)?;
        Ok(Labelled::of_flood(block.side(), levels, labels))
    }

    pub(crate) fn is_unmarked(&self, e: usize) -> bool
        requires { e < length self.now.levels.items }
        ensures { result ≡ int_eq (slice_index_or self.now.levels.items e void) void }
    {
        self.levels[e] == VOID
    }

    pub(crate) fn is_marked(&self, e: usize) -> bool
        ensures value { result ≡ is_marked self.now.levels.items e }
        ensures inside { IsTrue result → e < length self.now.levels.items }
    {
        e < self.levels.len() && has_level(&self.levels, e)
    }

    // Sets the point's level and label, and puts the point into the queue.
    pub(crate) fn mark(&mut self, e: usize, level: i16, label: u16) -> Result<(), AllocError>
        requires small { e < 4294967296 }
        requires levels { e < length self.old.levels.items }
        requires labels { e < length self.old.labels.items }
        ensures levels { OnOk result (self.new.levels.items ≡ slice_set self.old.levels.items e level) }
        ensures labels { OnOk result (self.new.labels.items ≡ slice_set self.old.labels.items e label) }
        ensures joined { OnOk result (IsJoined self.old.queue self.new.queue level e) }
        ensures suspects { OnOk result (self.new.suspects ≡ self.old.suspects) }
        ensures affected { OnOk result (self.new.affected ≡ self.old.affected) }
    {
        self.queue.push(level, e as u32)?;
        self.levels[e] = level;
        self.labels[e] = label;
        Ok(())
    }
}

// Floods a block in which no point has a label yet. The queue's memory is freed at the end.
fn flood_cells(alloc: Global, block: &BlockView, cells: &mut [Cell]) -> Result<(), AllocError>
    requires cells { AreCells block.now.heights.now cells.old }
    requires no_level { (e : ℕ) → slice_index_or (levels_of cells.old) e void ≡ void }
    requires no_label { (e : ℕ) → e < block.now.n * block.now.n
        → slice_index (labels_of cells.old) e ≡ no_label }
    ensures { OnOk result (IsLabelling (viewed_block block.now) (levels_of cells.new) (labels_of cells.new)
        × AreCarried (viewed_block block.now) (levels_of cells.new) (labels_of cells.new)) }
{
    let mut queue = Queue::full(alloc)?;
    seed(block, cells, &mut queue)?;
    settle(alloc, block, cells, &mut queue)?;
    Ok(())
}
