//! The graphs of tiles, between their rim points. A tile's labelling is asked for when water comes to its rim.
ghost use Rattle.std.specs.Prelude.{◌≡◌, ◌≢◌, ◌+◌, ◌-◌, ◌*◌, ◌<◌, ◌≤◌, ◌⊎◌, ◌↔◌, ℕ, IfOk, IfErr, OnOk, IfSome, IfNone, IsTrue, Ok, Some, None, false, All, length, slice_set};
ghost use Rattle.border_graph.specs.Joining.{IsSummaryOf};
ghost use Rattle.lattice.specs.Mosaic.{Mosaic};
ghost use Rattle.lattice.specs.declared.refusal.Refusal.TheVariants.{NoMemory, Damaged};
ghost use Rattle.border_graph.specs.TileGraph.{TileGraph as TileGraphOf};
ghost use Rattle.border_graph.specs.Others.{corner_at, AreTooMany, AreTileEdges};
ghost use Rattle.levels.specs.Invalidating.{KeepsSummary};
ghost use Rattle.levels.specs.Room.{IsSmallGraph, rim_points};
ghost use Rattle.levels.specs.Reaching.{is_reached};
ghost use Rattle.levels.specs.RimGraphs.{loaded_at, AreLoaded, AreReady};

use crate::affected_tiles::is_reached;
use crate::labelling_cache::LabellingCache;
use border_graph::{Edge, Summary, TileGraph, list_edges, reduced};
use catalogue::Samples;
use edits::NewHeight;
use lattice::{Corner, Point, Refusal, Side, push};
use std::alloc::Global;

/// The corners of a mosaic's tiles, in order, and the graphs of those tiles that water has come to.
#[derive(Drop)]
pub struct RimGraph {
    pub side: Side,
    pub corners: Vec<Corner>,
    pub(crate) loaded: Vec<Option<TileGraph>>,
    ghost whole: { length loaded.items ≡ length corners.items },
    ghost few: { All (IsSmallGraph side) loaded.items },
}

impl RimGraph {
    /// A graph without tiles loaded. The only refusal is NoMemory.
    pub fn new<S: Samples>(alloc: Global, samples: &S) -> Result<RimGraph, Refusal>
        ensures ready { S.is_honest samples.now
            → IfOk result (λ s. AreReady (S.mosaic samples.now) s.side s.corners.items s.loaded.items) }
        ensures refusal { IfErr result (λ r. r ≡ NoMemory) }
    {
        let side = samples.side();
        let corners = samples.present_corners()?;
        let mut loaded = Vec::new(alloc);
        for _ in 0..corners.len() {
            push(&mut loaded, None)?;
        }
        Ok(RimGraph {
            side,
            corners,
            loaded,
        })
    }

    /// The corner of tile number t.
    pub fn corner(&self, t: usize) -> Option<Corner>
        ensures some { IfSome result (λ c. (t < length self.now.corners.items)
            × (corner_at self.now.corners.items t ≡ c)) }
        ensures none { IfNone result (length self.now.corners.items ≤ t) }
    {
        let corner = self.corners.get(t)?;
        Some(*corner)
    }

    /// How many nodes the rim points of all tiles have, and the outlet: at most as many as fit the number.
    pub(crate) fn nodes(&self) -> usize
        ensures { result ≤ 1 + rim_points self.now.side (length self.now.corners.items) }
    {
        let points = self.corners.len().saturating_mul(self.side.rim() as usize);
        points.saturating_add(1)
    }

    /// Adds the graph of the tile with this place and summary, unless it is there: only the edges that decide how low water gets
    /// out.
    pub(crate) fn learn(&mut self, alloc: Global, t: usize, summary: Summary) -> Result<(), Refusal>
        requires inside { t < length self.old.loaded.items }
        ensures loaded { OnOk result ((ways : TileGraphOf)
            × (loaded_at self.new.loaded.items t ≡ Some ways)) }
        ensures only { (u : ℕ) (ways : TileGraphOf) → u ≢ t
            → loaded_at self.new.loaded.items u ≡ Some ways
            → loaded_at self.old.loaded.items u ≡ Some ways }
        ensures side { self.new.side ≡ self.old.side }
        ensures corners { self.new.corners.items ≡ self.old.corners.items }
        ensures still { (u : ℕ) (ways : TileGraphOf) → loaded_at self.old.loaded.items u ≡ Some ways
            → loaded_at self.new.loaded.items u ≡ Some ways }
        ensures right { (m : Mosaic) → corner_at self.old.corners.items t ≡ summary.corner
            → IsSummaryOf m summary
            → AreLoaded m self.old.side self.old.corners.items self.old.loaded.items
            → AreLoaded m self.old.side self.old.corners.items self.new.loaded.items }
        ensures refusal { IfErr result (λ r. r ≡ NoMemory) }
    {
        if self.loaded[t].is_some() {
            return Ok(());
        }
        let less = reduced(alloc, summary)?;
        let ways = TileGraph::new(alloc, self.side, less)?;
        if ways.size() > 2 * self.side.rim() as usize {
            return Err(Refusal::NoMemory);
        }
        self.loaded[t] = Some(ways);
        Ok(())
    }

    /// Drops the graphs of the tiles that changes in the box of the two points reach. Allocates nothing.
    pub fn invalidate_between(&mut self, from: Point, to: Point)
        ensures side { self.new.side ≡ self.old.side }
        ensures corners { self.new.corners.items ≡ self.old.corners.items }
        ensures whole { length self.new.loaded.items ≡ length self.old.loaded.items }
        ensures loaded { (t : ℕ) (ways : TileGraphOf)
            → loaded_at self.new.loaded.items t ≡ Some ways
            ↔ ((loaded_at self.old.loaded.items t ≡ Some ways)
            × (is_reached self.old.side self.old.corners.items from to t ≡ false)) }
    {
        for t in 0..self.loaded.len() {
            if is_reached(self.side, &self.corners, from, to, t) {
                self.invalidate(t);
            }
        }
    }

    /// Drops the graphs of the tiles that the point reaches when it gets this height. A graph stays if these labellings show
    /// that no level in its tile changes. Allocates nothing.
    pub fn note_changed(&mut self, labellings: &LabellingCache, height: &NewHeight)
        ensures side { self.new.side ≡ self.old.side }
        ensures corners { self.new.corners.items ≡ self.old.corners.items }
        ensures whole { length self.new.loaded.items ≡ length self.old.loaded.items }
        ensures loaded { (t : ℕ) (ways : TileGraphOf)
            → loaded_at self.new.loaded.items t ≡ Some ways
            ↔ ((loaded_at self.old.loaded.items t ≡ Some ways)
            × KeepsSummary self.old.side self.old.corners.items labellings.now.held.items height.now t) }
    {
        for t in 0..self.loaded.len() {
            if !self.is_still(labellings, height, t) {
                self.invalidate(t);
            }
        }
    }

    // Whether the graph of tile t stays when the point gets this height.
    fn is_still(&self, labellings: &LabellingCache, height: &NewHeight, t: usize) -> bool
        ensures { IsTrue result
            ↔ KeepsSummary self.now.side self.now.corners.items labellings.now.held.items height.now t }
    {
        if !is_reached(self.side, &self.corners, height.point, height.point, t) {
            return true;
        }
        match self.corner(t) {
            Some(corner) => labellings.is_still(self.side, t, corner, height),
            None => false,
        }
    }

    // Drops the graph of tile t.
    fn invalidate(&mut self, t: usize)
        requires { t < length self.old.loaded.items }
        ensures side { self.new.side ≡ self.old.side }
        ensures corners { self.new.corners.items ≡ self.old.corners.items }
        ensures loaded { self.new.loaded.items ≡ slice_set self.old.loaded.items t None }
    {
        self.loaded[t] = None;
    }

    // Lists the edges from rim point k of tile t, if the tile's graph is loaded.
    pub(crate) fn list(&self, t: usize, k: u32, into: &mut Vec<Edge>) -> Result<(), Refusal>
        requires number { k < 4 * (self.now.side - 1) }
        requires place { t < length self.now.corners.items }
        ensures ways { OnOk result ((ways : TileGraphOf)
            → loaded_at self.now.loaded.items t ≡ Some ways
            → AreTileEdges self.now.side self.now.corners.items ways t k into.old.items into.new.items) }
        ensures refusal { IfErr result (λ r. (r ≡ NoMemory)
            ⊎ ((r ≡ Damaged)
            × ((ways : TileGraphOf) → loaded_at self.now.loaded.items t ≡ Some ways
            → (ways.side ≢ self.now.side)
            ⊎ AreTooMany self.now.side self.now.corners.items))) }
    {
        let Some(loaded) = self.loaded.get(t) else {
            return Err(Refusal::Damaged);
        };
        let Some(ways) = loaded else {
            return Err(Refusal::Damaged);
        };
        list_edges(self.side, &self.corners, ways, t, k, into)?;
        Ok(())
    }
}
