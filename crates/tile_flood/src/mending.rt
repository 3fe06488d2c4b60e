//! Mending: computes the labelling of a block after heights of its ground points changed.
ghost use Rattle.std.specs.Prelude.{◌≡◌, ◌<◌, ◌+◌, ℕ, ℤ, IfOk, IfErr, OnOk, IsTrue, length, slice_index, slice_index_or};
ghost use Rattle.lattice.specs.Mosaic.{void};
ghost use Rattle.lattice.specs.declared.refusal.Refusal.TheVariants.{NoMemory};
ghost use Rattle.labelling.specs.Labelling.{IsLabelling};
ghost use Rattle.tile_flood.specs.Carried.{AreCarried};
ghost use Rattle.tile_flood.specs.Mending.{IsLabelledBefore};
ghost use Rattle.tile_flood.specs.Bands.{StayInBands};
ghost use Rattle.tile_flood.specs.Views.{viewed_block};
ghost use Rattle.tile_flood.specs.Waiting.{Waits};
ghost use Rattle.tile_flood.specs.Floods.{AreMendingIn, IsBeginningIn, StayListedIn};

use crate::block::Block;
use crate::cells::{Cell, VOID_CELL};
use crate::flood::Flood;
use crate::labelled::Labelled;
use crate::outlets::own_label;
use crate::values::at;
use crate::views::BlockView;
use lattice::{Refusal, VOID};
use std::alloc::{AllocError, Global};

// Visiting so many points costs next to nothing.
const FEW: usize = 1_000;

/// A mended labelling. For each band of 32 rows it says whether the band's passages may have changed: a border between
/// labels, or a level next to one. Bands beyond the list may have changed.
#[derive(Drop)]
pub struct Mended {
    pub labelled: Labelled,
    pub changed_bands: Vec<bool>,
}

/// The labelling of the block after the heights of the points with these indices changed. It is computed from the labelling
/// before the change, which `Flood::run` or `mend` returned. Ground and sinks must be the same as before. Listed points that
/// aren't ground are ignored.
///
/// It takes the time that the changed levels and labels and those next to them need. If they are a large part of the block,
/// it takes the time of a flood. The only refusal is NoMemory.
pub fn mend(
    alloc: Global,
    block: &Block,
    labelled: Labelled,
    points: &[u32],
) -> Result<Mended, Refusal>
    requires same_side { labelled.side ≡ block.now.side }
    requires before { IsLabelledBefore block.now points.now labelled.levels labelled.labels }
    ensures side { IfOk result (λ mended. mended.labelled.side ≡ block.now.side) }
    ensures labelling { IfOk result (λ mended. IsLabelling block.now mended.labelled.levels mended.labelled.labels) }
    ensures carried { IfOk result (λ mended. AreCarried block.now mended.labelled.levels mended.labelled.labels) }
    ensures bands { IfOk result (λ mended. StayInBands labelled mended.labelled mended.changed_bands.items) }
    ensures refusal { IfErr result (λ refusal. refusal ≡ NoMemory) }
{
    let view = block.view();
    let level = first_level(&labelled, points);
    let mut flood = labelled.into_flood(alloc, level);
    flood.begin(&view, points)?;
    // If a large part of the block changes, a new flood costs less.
    let most = view.heights.len() / 4 + FEW;
    if !flood.settle_changes(&view, most)? {
        let labelled = Flood::run(alloc, block)?;
        return Ok(Mended {
            labelled,
            changed_bands: Vec::new(alloc),
        });
    }
    let changed_bands = flood.changed_bands(alloc, view.n)?;
    Ok(Mended {
        labelled: Labelled::of_flood(block.side(), flood.levels, flood.labels),
        changed_bands,
    })
}

// The level of the first listed point.
fn first_level(labelled: &Labelled, points: &[u32]) -> i16
    ensures { 0 < length points.now
        → result ≡ slice_index_or labelled.now.levels (slice_index points.now 0) void }
{
    if points.is_empty() {
        return VOID;
    }
    let level = labelled.levels().get(points[0] as usize);
    level.copied().unwrap_or(VOID)
}

impl Flood {
    // Resets each listed point that is now above its level, or is an outlet with another height. All points next to the other
    // listed points wait.
    fn begin(&mut self, block: &BlockView, points: &[u32]) -> Result<(), AllocError>
        requires before { IsLabelledBefore (viewed_block block.now) points.now self.old.levels.items self.old.labels.items }
        requires nobody { (l : ℤ) (e : ℕ) → Waits self.old.queue l e → ⊥ }
        requires no_suspect { (l : ℤ) (e : ℕ) → Waits self.old.suspects l e → ⊥ }
        ensures state { OnOk result (AreMendingIn block.now self.new) }
        ensures listed { OnOk result (StayListedIn block.now self.old self.new) }
    {
        for k in 0..points.len() {
            self.begin_at(block, points, k)?;
        }
        Ok(())
    }

    // Resets the k-th listed point, or makes its neighbours wait, as `begin` says. A point that isn't ground or has been
    // reset is skipped.
    fn begin_at(&mut self, block: &BlockView, points: &[u32], k: usize) -> Result<(), AllocError>
        requires k { k < length points.now }
        requires state { IsBeginningIn block.now points.now self.old k }
        ensures state { OnOk result (IsBeginningIn block.now points.now self.new (k + 1)) }
        ensures listed { OnOk result (StayListedIn block.now self.old self.new) }
    {
        let e = points[k] as usize;
        if !self.is_marked(e) {
            return Ok(());
        }
        let own = at(&self.levels, e);
        let level = at(block.heights, e);
        if let Some(label) = own_label(block, e / block.n, e % block.n) {
            self.reset(block.n, e, Cell { level, label }, own)?;
            return Ok(());
        }
        if own < level {
            let from = self.first_suspect(block.n, e);
            self.reset(block.n, e, VOID_CELL, from)?;
            return Ok(());
        }
        // No marked point has this label, so all points next to e wait.
        self.suspect_beside(block.n, e, VOID_CELL, true)?;
        Ok(())
    }
}
