//! Cached graphs of tiles, labellings and levels, computed tile by tile when they are asked for.
ghost use Rattle.std.specs.Prelude.{◌≡◌, ◌≢◌, ◌+◌, ◌-◌, ◌*◌, ◌<◌, ◌≤◌, ℕ, ℤ, IfOk, IfErr, IfSome, IfNone, OnOk, IsTrue, Ok, Some, length};
ghost use Rattle.catalogue.specs.Asked.{Asked};
ghost use Rattle.catalogue.specs.Endings.{ends_any};
ghost use Rattle.catalogue.specs.Readers.{OnlyReads};
ghost use Rattle.labelling.specs.Blocks.{LabelledGround};
ghost use Rattle.tile_labellings.specs.Labellings.{IsFlooded};
ghost use Rattle.tile_labellings.specs.Spots.{IsLabelledAt};
ghost use Rattle.lattice.specs.Height.{height_of};
ghost use Rattle.lattice.specs.Mosaic.{Mosaic};
ghost use Rattle.lattice.specs.declared.height.Height.TheVariants.{At};
ghost use Rattle.lattice.specs.declared.refusal.Refusal.TheVariants.{NoMemory};
ghost use Rattle.border_graph.specs.TileGraph.{TileGraph as TileGraphOf};
ghost use Rattle.border_graph.specs.Others.{corner_at};
ghost use Rattle.levels.specs.RimGraphs.{loaded_at};
ghost use Rattle.levels.specs.Invalidating.{IsLeftOf, IsNotedOf};
ghost use Rattle.levels.specs.Room.{rim_points};
ghost use Rattle.levels.specs.Holding.{IsRight, IsGrown, IsCurrentIn, level_of};
ghost use Rattle.levels.specs.Reaching.{DifferAt, DifferBetween, is_reached};
ghost use Rattle.levels.specs.Spared.{AreLevelsStill, IsNoHigher, IsSetTo, IsSpared};

use crate::filling::label_in;
use crate::labelling_cache::LabellingCache;
use crate::refreshing::{current_labelling, kept_label_at};
use crate::rim_graph::RimGraph;
use crate::rims::RimLevels;
use crate::summing::summarize;
use border_graph::{Edge, EdgeSource, place_of};
use catalogue::Samples;
use edits::NewHeight;
use lattice::{Corner, Point, Refusal};
use std::alloc::Global;
use tile_flood::Labelled;
use tile_labellings::Labellings;

/// The graphs of the tiles that water has reached, their labellings, and the known levels of rim points.
#[derive(Drop)]
pub struct TileCache {
    pub rim_graph: RimGraph,
    pub labellings: LabellingCache,
    pub levels: RimLevels,
    ghost same_side: { labellings.side ≡ rim_graph.side },
    ghost few_levels: { length levels ≤ 1 + rim_points rim_graph.side (length rim_graph.corners.items) },
}

impl TileCache {
    ghost use Rattle.levels.specs.TileCaches.{known_of, IsSparedOf};

    /// An empty cache. The only refusal is NoMemory.
    pub fn new<S: Samples>(alloc: Global, samples: &S) -> Result<TileCache, Refusal>
        ensures right { S.is_honest samples.now
            → IfOk result (λ w. IsRight (S.mosaic samples.now) (known_of w)) }
        ensures refusal { IfErr result (λ r. r ≡ NoMemory) }
    {
        let rim_graph = RimGraph::new(alloc, samples)?;
        let labellings = LabellingCache::new(alloc, rim_graph.side, rim_graph.corners.len())?;
        Ok(TileCache {
            rim_graph,
            labellings,
            levels: RimLevels::new(alloc),
        })
    }

    /// Drops what changes in the box of the two points may make wrong: the graphs and labellings of the tiles that they
    /// reach, and levels of rim points. Those depend on the water's whole way out: levels higher than `most`, in metres, are
    /// dropped; for None, all of them. Allocates nothing.
    pub fn invalidate_between(&mut self, from: Point, to: Point, most: Option<i32>)
        ensures left { IsLeftOf (is_reached self.old.rim_graph.side self.old.rim_graph.corners.items from to) (IsNoHigher most) (known_of self.old) (known_of self.new) }
        ensures right { (m new : Mosaic) → DifferBetween m new from to
            → AreLevelsStill (IsNoHigher most) m new → IsRight m (known_of self.old)
            → IsRight new (known_of self.new) }
    {
        self.levels.invalidate_above(most);
        let side = self.rim_graph.side;
        self.labellings
            .invalidate_between(side, &self.rim_graph.corners, from, to);
        self.rim_graph.invalidate_between(from, to);
    }

    /// Drops the levels of rim points that may change when ground points get these heights one after another. Allocates
    /// nothing.
    pub fn retain_spared_levels(&mut self, heights: &[NewHeight])
        ensures { IsSparedOf heights.now self.old self.new }
    {
        self.levels.invalidate_reached(heights);
    }

    /// Records in the labellings of the tiles that have the ground point that it may have this height, to mend them on their
    /// next use. Sinks stay the same.
    ///
    /// Drops graphs as `invalidate_between` does. A graph stays if a cached labelling shows that the point lay below its
    /// level and stays there. Levels of rim points stay, since none of them depends on this height.
    pub fn note_changed(&mut self, height: &NewHeight)
        ensures left { IsNotedOf height.now (known_of self.old) (known_of self.new) }
        ensures still { (m : Mosaic) → IsRight m (known_of self.old)
            → IsRight m (known_of self.new) }
        ensures right { (m new : Mosaic) → DifferAt m new height.now.point
            → height_of m height.now.point ≡ At height.now.was
            → IsSetTo m new height.now.point height.now.metres
            → ((x : ℕ) (level : ℤ) → level_of self.old.levels x ≡ Some level
            → IsSpared height.now.was height.now.metres level)
            → IsRight m (known_of self.old) → IsRight new (known_of self.new) }
    {
        let side = self.rim_graph.side;
        self.rim_graph.note_changed(&self.labellings, height);
        self.labellings
            .note_changed(side, &self.rim_graph.corners, height);
    }

    /// The labelling of the corner's tile, if it is cached and no height in the tile may have changed since.
    pub fn labelling(&self, corner: Corner) -> Option<&Labelled>
        ensures flooded { (m : Mosaic) → IsRight m (known_of self.now)
            → IfSome result (λ labelled. IsFlooded m corner labelled.now) }
        ensures some { IfSome result (λ labelled. IsCurrentIn (known_of self.now) corner labelled.now) }
        ensures none { IfNone result ((labelled : LabelledGround)
            → IsCurrentIn (known_of self.now) corner labelled → ⊥) }
    {
        let t = place_of(&self.rim_graph.corners, corner)?;
        let labelled = self.labellings.labelling(t)?;
        Some(labelled)
    }

    // Loads the graph of tile t, which has this corner, unless it is loaded.
    fn load_tile<S: Labellings>(
        &mut self,
        alloc: Global,
        samples: &mut S,
        t: usize,
        corner: Corner,
    ) -> Result<(), Refusal>
        requires place { t < length self.old.rim_graph.corners.items }
        requires corner { corner_at self.old.rim_graph.corners.items t ≡ corner }
        ensures loaded { OnOk result ((ways : TileGraphOf)
            × (loaded_at self.new.rim_graph.loaded.items t ≡ Some ways)) }
        ensures only { (u : ℕ) (ways : TileGraphOf) → u ≢ t
            → loaded_at self.new.rim_graph.loaded.items u ≡ Some ways
            → loaded_at self.old.rim_graph.loaded.items u ≡ Some ways }
        ensures grown { IsGrown S.Samples samples.old samples.new (known_of self.old) (known_of self.new) }
        ensures reads { OnOk result (OnlyReads {T = Unit {0}} S.Samples samples.old samples.new (Ok tt)) }
        ensures asked { (S.is_honest samples.new
            → IsRight (S.mosaic samples.old) (known_of self.old))
            → Asked S.Samples samples.old samples.new result }
        ensures causes { IfErr result (λ r. IsTrue (ends_any r)) }
    {
        if t >= self.rim_graph.loaded.len() {
            return Err(Refusal::Damaged);
        }
        if self.rim_graph.loaded[t].is_some() {
            return Ok(());
        }
        let mut labelling = current_labelling(alloc, samples, &mut self.labellings, t, corner)?;
        let summary = summarize(alloc, samples, corner, &mut labelling)?;
        self.rim_graph.learn(alloc, t, summary)?;
        self.labellings.hold(t, labelling);
        Ok(())
    }

    /// The level and the label of the point with this index in tile t. They are taken from a cached labelling, or read from
    /// the stored levels and labels, a page each. Otherwise the labelling is read or flooded, and cached.
    pub(crate) fn label_at<S: Labellings>(
        &mut self,
        alloc: Global,
        samples: &mut S,
        t: usize,
        index: u32,
    ) -> Result<(i16, u16), Refusal>
        requires place { t < length self.old.rim_graph.corners.items }
        requires index { index < self.old.rim_graph.side * self.old.rim_graph.side }
        ensures label_at { S.is_honest samples.new
            → IsRight (S.mosaic samples.old) (known_of self.old)
            → IfOk result (λ label_at. IsLabelledAt (S.mosaic samples.old) (corner_at self.old.rim_graph.corners.items t) index label_at.0 label_at.1) }
        ensures grown { IsGrown S.Samples samples.old samples.new (known_of self.old) (known_of self.new) }
        ensures reads { OnOk result (OnlyReads {T = Unit {0}} S.Samples samples.old samples.new (Ok tt)) }
        ensures asked { (S.is_honest samples.new
            → IsRight (S.mosaic samples.old) (known_of self.old))
            → Asked S.Samples samples.old samples.new result }
        ensures causes { IfErr result (λ r. IsTrue (ends_any r)) }
    {
        if let Some(label_at) = self.labellings.label_at(t, index) {
            return Ok(label_at);
        }
        let corner = self.rim_graph.corners[t];
        if let Some(label_at) = kept_label_at(samples, &mut self.labellings, t, corner, index)? {
            return Ok(label_at);
        }
        let labelling = current_labelling(alloc, samples, &mut self.labellings, t, corner)?;
        let label_at = label_in(labelling.labelled(), index);
        self.labellings.hold(t, labelling);
        match label_at {
            Some(label_at) => Ok(label_at),
            None => Err(Refusal::Damaged),
        }
    }
}

impl<S: Labellings> EdgeSource<S> for TileCache {
    ghost use Rattle.std.specs.Prelude.{◌≡◌, Some};
    ghost use Rattle.border_graph.specs.TileGraph.{TileGraph};
    ghost use Rattle.levels.specs.RimGraphs.{loaded_at};
    ghost use Rattle.levels.specs.TileCaches.{known_of};
    ghost use Rattle.levels.specs.Holding.{Agrees, IsCarried, IsRefused};
    ghost use Rattle.levels.specs.Kept.{carried_itself, carried_on, refused_on, ran_out};

    ghost fits = { λ s n summaries. Agrees (known_of s) n summaries };

    ghost keeps = { λ s a s' b. IsCarried S.Samples a b (known_of s) (known_of s') };

    ghost asked = { λ s t. (ways : TileGraph)
        × (loaded_at s.rim_graph.loaded.items t ≡ Some ways) };

    ghost refuses = { λ s a s' b r. IsRefused S.Samples a b (known_of s) (known_of s') r };

    ghost keeps_itself = { λ s a. carried_itself _ S.keeps_itself a (known_of s) };

    ghost keeps_on = { λ s s' s'' a b c one two. carried_on _ S.keeps_on a b (known_of s) (known_of s') one c (known_of s'') two };

    ghost refuses_on = { λ s s' s'' a b c r kept refused. refused_on _ S.keeps_on a b (known_of s) (known_of s') kept c (known_of s'') r refused };

    ghost runs_out = { λ s s' a b kept. ran_out _ S.keeps_on a b (known_of s) (known_of s') kept };

    fn edges_from(
        &mut self,
        alloc: Global,
        source: &mut S,
        node: u32,
        into: &mut Vec<Edge>,
    ) -> Result<Option<i16>, Refusal> {
        if let Some(level) = self.levels.level(node) {
            return Ok(Some(level));
        }
        let side = self.rim_graph.side;
        let t = ((node - 1) / side.rim()) as usize;
        let k = (node - 1) % side.rim();
        let Some(corner) = self.rim_graph.corner(t) else {
            return Ok(None);
        };
        self.load_tile(alloc, source, t, corner)?;
        self.rim_graph.list(t, k, into)?;
        Ok(None)
    }
}
