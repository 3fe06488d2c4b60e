//! The cache of results about a mosaic's water.
//!
//! What a change drops (the contract of `invalidate_edit` says what stays):
//!
//! - A burn or a wall: labellings of the tiles that have the point. But a flooded one is mended later, for up to 64 points
//!   (tile_labellings/flooded_block.rt), and a kept one stays where the point lay below its level and still does. Summaries of
//!   the tiles that have the point or one beside it, unless a cached labelling shows that it lay below its level and still does;
//!   their spills only with a border between labels (tile_flood/borders.rt). Levels of rim points between the point's two
//!   heights. Directions in blocks of 32 rows and columns that have such a level in them or beside them; the tile's other
//!   directions stay. Nothing for a point that gets the height that it has.
//! - A patch: all that is cached of tiles that have a point of the box or one beside it, all levels of rim points, and all
//!   directions.
//! - A sink that comes or goes: the same for its point, but levels of rim points below its ground stay. Where a cached direction
//!   leads down from its point, all levels of rim points stay, and all directions.
//! - A tile that comes or goes: all that is cached of levels, and all directions. Where every other tile lies more than two
//!   degrees away, only the directions of this tile.
//! - A reopening: everything.
//! - A step, which stores a cached labelling or floods the tile; an upgrade: nothing.
ghost use Rattle.std.specs.Prelude.{◌≡◌, ◌≤◌, None, Some, Ok, IfOk, IfErr, IfSome, IfNone, IsTrue};
ghost use Rattle.catalogue.specs.Tiles.{added, without};
ghost use Rattle.lattice.specs.Height.{height_of};
ghost use Rattle.lattice.specs.Lattice.{point_of};
ghost use Rattle.lattice.specs.Mosaic.{Mosaic, IsMosaic, Tile};
ghost use Rattle.lattice.specs.declared.height.Height.TheVariants.{At};
ghost use Rattle.labelling.specs.Blocks.{LabelledGround};
ghost use Rattle.tile_labellings.specs.Labellings.{IsFlooded};
ghost use Rattle.lattice.specs.Ground.{terrain};
ghost use Rattle.flow_d8.specs.FlowGrids.{IsResolvedAround};
ghost use Rattle.flow_d8.specs.LevelsAround.{IsNear, OnLevels};
ghost use Rattle.lattice.specs.declared.refusal.Refusal.TheVariants.{NoMemory};
ghost use Rattle.levels.specs.Holding.{IsRight};
ghost use Rattle.flow_cache.specs.FlowCaches.{most_flow_bytes, flow_bytes, IsCacheOf, IsFlowIn, IsKnownOf};
ghost use Rattle.flow_cache.specs.declared.flow_cache.FlowCache.{FlowCache as FlowCacheOf};
ghost use Rattle.drainage.specs.Sinks.{highest_level, is_down, is_known_down};
ghost use Rattle.levels.specs.Reaching.{DifferAt, DifferBetween};
ghost use Rattle.water.specs.Donors.{AreToldBy, DrainsBack};
ghost use Rattle.water.specs.Drainage.{HasLower};
ghost use Rattle.water.specs.declared.flow.Flow.TheVariants.{Unknown};
ghost use Rattle.levels.specs.Spared.{AreLevelsStill, IsNoHigher, IsSetTo, IsSpared};

use crate::far_tiles::{is_far, with_corner};
use crate::neighbourhood::near;
use catalogue::Samples;
use edits::NewHeight;
use flow_cache::{FlowCache, MOST_FLOW_BYTES};
use flow_d8::Near;
use lattice::{Corner, MOST_TILES, Point, Refusal, Side};
use levels::TileCache;
use std::alloc::Global;
use tile_flood::Labelled;
use water::Flow;

// So many queries about a tile are answered from the levels around their points; the next one prepares the tile.
const MOST_BY_LEVELS: u32 = 256;

// No level is higher, in metres.
const HIGHEST_LEVEL: i32 = 32767;

/// How many questions asked for points of a tile that isn't cached.
#[derive(Clone, Copy)]
struct AskedTile {
    corner: Corner,
    questions: u32,
}

/// Cached results about one mosaic's water: graphs of the tiles that water reached, as many labellings as fit, levels of rim
/// points, and flows.
#[derive(Drop)]
pub struct DrainageCache {
    tile_cache: Option<TileCache>,
    flow_cache: Option<FlowCache>,
    // Numbers of queries since the last change, for tiles whose flows aren't cached.
    asked: Option<Vec<AskedTile>>,
    // The corners of all tiles, and maybe of tiles that are gone, for when their levels aren't cached.
    corners: Option<Vec<Corner>>,
    ghost few: { flow_bytes flow_cache ≤ most_flow_bytes },
}

impl DrainageCache {
    ghost use Rattle.drainage.specs.Between.{IsHeldOf, IsLeftHeld, IsNotedHeld, IsSparedHeld, IsCurrentOf, AreFlowsLeft, levels_pass};
    ghost use Rattle.drainage.specs.FarTiles.{IsKeptOff, corners_in};
    ghost use Rattle.levels.specs.TileCaches.{known_of};

    /// An empty cache. Allocates nothing.
    pub fn new() -> DrainageCache
        ensures { (m : Mosaic) → IsHeldOf m result }
    {
        DrainageCache {
            tile_cache: None,
            flow_cache: None,
            asked: None,
            corners: None,
        }
    }

    /// Drops everything.
    pub fn invalidate(&mut self)
        ensures { (m : Mosaic) → IsHeldOf m self.new }
    {
        self.tile_cache = None;
        self.corners = None;
        self.invalidate_flows();
    }

    /// Drops what may be wrong when the corner's tile comes or goes: all levels, and all directions. Where every other tile lies
    /// more than two degrees away, it drops only the directions of this tile. The rest is right for the mosaic before and after
    /// the change.
    pub fn invalidate_tile(&mut self, corner: Corner)
        ensures still { (m : Mosaic) → IsHeldOf m self.old → IsHeldOf m self.new }
        ensures comes { (m : Mosaic) (t : Tile) → t.corner ≡ corner → IsMosaic m → IsHeldOf m self.old
            → IsHeldOf (added t m) self.new }
        ensures goes { (m : Mosaic) → IsMosaic m → IsHeldOf m self.old
            → IsHeldOf (without corner m) self.new }
        ensures kept { IsKeptOff corner self.old self.new }
    {
        let corners = self.take_corners();
        let is_far = is_far(&corners, corner);
        self.corners = with_corner(corners, corner);
        self.asked = None;
        let Some(mut flow_cache) = self.flow_cache.take() else {
            return;
        };
        if !is_far {
            return;
        }
        flow_cache.evict_tile(corner);
        self.flow_cache = Some(flow_cache);
    }

    // Drops the levels. Hands out the corners of their tiles, or the list of corners where no levels were cached.
    fn take_corners(&mut self) -> Option<Vec<Corner>>
        ensures corners { result ≡ corners_in self.old.tile_cache self.old.corners }
        ensures tile_cache { self.new.tile_cache ≡ None }
        ensures flow_cache { self.new.flow_cache ≡ self.old.flow_cache }
    {
        let listed = self.corners.take();
        match self.tile_cache.take() {
            Some(tile_cache) => Some(tile_cache.rim_graph.corners),
            None => listed,
        }
    }

    /// Drops what changes of points in the box, ends included, may make wrong: the graphs and the labellings of the tiles that
    /// have such a point or one beside it, all directions, and the levels of rim points that are higher than `most`, in metres,
    /// or all of them. The rest is right for the mosaic before and after the change. Takes no memory.
    pub fn invalidate_between(&mut self, from: Point, to: Point, most: Option<i32>)
        ensures left { IsLeftHeld from to (IsNoHigher most) self.old self.new }
        ensures right { (m new : Mosaic) → DifferBetween m new from to
            → AreLevelsStill (IsNoHigher most) m new → IsHeldOf m self.old → IsHeldOf new self.new }
    {
        self.invalidate_flows();
        let Some(mut tile_cache) = self.tile_cache.take() else {
            return;
        };
        tile_cache.invalidate_between(from, to, most);
        self.tile_cache = Some(tile_cache);
    }

    /// Drops what a sink may make wrong that comes or goes at the point, where no level changes and no direction: the graphs and the
    /// labellings of the tiles that have the point or one beside it. The rest is right for the mosaic before and after the change.
    /// Takes no memory.
    pub fn invalidate_reached(&mut self, point: Point)
        ensures left { IsLeftHeld point point (IsNoHigher (Some highest_level)) self.old self.new }
        ensures flows { self.new.flow_cache ≡ self.old.flow_cache }
        ensures right { (m new : Mosaic) → DifferBetween m new point point
            → AreLevelsStill (IsNoHigher (Some highest_level)) m new
            → ((cache : FlowCacheOf) → IsCacheOf m cache → IsCacheOf new cache)
            → IsHeldOf m self.old → IsHeldOf new self.new }
    {
        let Some(mut tile_cache) = self.tile_cache.take() else {
            return;
        };
        tile_cache.invalidate_between(point, point, Some(HIGHEST_LEVEL));
        self.tile_cache = Some(tile_cache);
    }

    /// Whether the cached direction of the point leads to a lower level.
    pub fn drains_down(&self, point: Point) -> bool
        ensures value { result ≡ is_known_down self.now.flow_cache point }
        ensures lower { IsTrue result → (m : Mosaic) → IsHeldOf m self.now
            → OnLevels m (λ level. HasLower (terrain m) level point) }
    {
        match &self.flow_cache {
            Some(flow_cache) => is_down(flow_cache.grid.flow(point)),
            None => false,
        }
    }

    /// Drops the levels of rim points that may change as ground points get these heights one after another, in one pass. Takes no
    /// memory.
    pub fn retain_spared_levels(&mut self, heights: &[NewHeight])
        ensures { IsSparedHeld heights.now self.old self.new }
    {
        let Some(mut tile_cache) = self.tile_cache.take() else {
            return;
        };
        tile_cache.retain_spared_levels(heights);
        self.tile_cache = Some(tile_cache);
    }

    /// Records that the ground point may have this height from now on, while sinks stay the same.
    ///
    /// A flooded labelling of a tile that has the point is mended on its next use, for up to 64 points. A stored labelling
    /// stays if the point lay below its level and still does. Graphs of tiles that have the point or an adjacent one are
    /// dropped, unless a labelling shows the same. Directions near levels that may change are dropped.
    ///
    /// Remaining results are right for the mosaic before the change. They are also right after it, once levels of rim points
    /// that may change are dropped.
    pub fn note_changed(&mut self, height: &NewHeight)
        ensures left { IsNotedHeld height.now self.old self.new }
        ensures still { (m : Mosaic) → IsHeldOf m self.old → IsHeldOf m self.new }
        ensures right { (m new : Mosaic) → IsMosaic m → DifferAt m new height.now.point
            → height_of m height.now.point ≡ At height.now.was
            → IsSetTo m new height.now.point height.now.metres
            → levels_pass (IsSpared height.now.was height.now.metres) self.old.tile_cache
            → IsHeldOf m self.old → IsHeldOf new self.new }
        ensures flows { AreFlowsLeft height.now.was height.now.metres self.old self.new }
    {
        self.retain_spared_flows(height.was, height.metres);
        let Some(mut tile_cache) = self.tile_cache.take() else {
            return;
        };
        tile_cache.note_changed(height);
        self.tile_cache = Some(tile_cache);
    }

    /// The labelling of the corner's tile, if it is cached and no height in the tile may have changed since.
    pub fn labelling(&self, corner: Corner) -> Option<&Labelled>
        ensures flooded { (m : Mosaic) → IsHeldOf m self.now
            → IfSome result (λ labelled. IsFlooded m corner labelled.now) }
        ensures some { IfSome result (λ labelled. IsCurrentOf self.now corner labelled.now) }
        ensures none { IfNone result ((labelled : LabelledGround)
            → IsCurrentOf self.now corner labelled → ⊥) }
    {
        let tile_cache = self.tile_cache.as_ref()?;
        tile_cache.labelling(corner)
    }

    // Drops the cached flows of all tiles.
    fn invalidate_flows(&mut self)
        ensures tile_cache { self.new.tile_cache ≡ self.old.tile_cache }
        ensures corners { self.new.corners ≡ self.old.corners }
        ensures flow_cache { self.new.flow_cache ≡ None }
    {
        self.flow_cache = None;
        self.asked = None;
    }

    // Drops the directions that a change of a ground point's height from `was` to `is` may move.
    fn retain_spared_flows(&mut self, was: i16, is: i16)
        ensures tile_cache { self.new.tile_cache ≡ self.old.tile_cache }
        ensures corners { self.new.corners ≡ self.old.corners }
        ensures left { AreFlowsLeft was is self.old self.new }
    {
        self.asked = None;
        let Some(mut flow_cache) = self.flow_cache.take() else {
            return;
        };
        flow_cache.retain_spared(was, is);
        self.flow_cache = Some(flow_cache);
    }

    // The cached flow of the point; Unknown if none is cached.
    pub(crate) fn flow(&mut self, point: Point) -> Flow
        ensures left { (m : Mosaic) → IsHeldOf m self.old → IsHeldOf m self.new }
        ensures flow { (m : Mosaic) → IsHeldOf m self.old → IsFlowIn m point result }
        ensures found { IfSome self.old.flow_cache (λ cache. IsKnownOf cache.grid point
            → result ≡ Unknown → ⊥) }
    {
        match &mut self.flow_cache {
            Some(flow_cache) => flow_cache.flow(point),
            None => Flow::Unknown,
        }
    }

    // The cached flow of the sample with this index in the corner's tile; Unknown if another tile was used last.
    pub(crate) fn sample_flow(&self, corner: Corner, index: u32) -> Flow
        ensures { (m : Mosaic) → IsHeldOf m self.now
            → IsFlowIn m (point_of m.side corner index) result }
    {
        match &self.flow_cache {
            Some(flow_cache) => flow_cache.sample_flow(corner, index),
            None => Flow::Unknown,
        }
    }

    // For each of the eight directions, in order, whether the neighbour there drains straight to this point; None only where the
    // tile used last doesn't show it.
    pub(crate) fn donors_around(&self, point: Point) -> Option<[bool; 8]>
        ensures right { (m : Mosaic) → IsHeldOf m self.now
            → IfSome result (λ donors. OnLevels m (λ level. AreToldBy (DrainsBack (terrain m) level point) donors 8)) }
        ensures none { IfNone result (IfSome self.now.flow_cache (λ cache. IsResolvedAround cache.grid.tiles cache.grid.flows.items cache.last point
            → ⊥)) }
    {
        let flow_cache = self.flow_cache.as_ref()?;
        flow_cache.grid.donors_around(flow_cache.last, point)
    }

    // Counts a query about a point of the corner's tile; without memory it isn't counted. Returns whether there were enough
    // queries to prepare the tile.
    pub(crate) fn is_due(&mut self, alloc: Global, corner: Corner) -> bool
        ensures { (m : Mosaic) → IsHeldOf m self.old → IsHeldOf m self.new }
    {
        let mut asked = match self.asked.take() {
            Some(asked) => asked,
            None => Vec::new(alloc),
        };
        let due = is_due(&mut asked, corner);
        self.asked = Some(asked);
        due
    }

    // Moves the cached flows of tiles out of the cache, which has none of them afterwards.
    pub(crate) fn take_flow_cache(&mut self, alloc: Global, side: Side) -> FlowCache
        ensures flows { (m : Mosaic) → side ≡ m.side → IsHeldOf m self.old → IsCacheOf m result }
        ensures left { (m : Mosaic) → IsHeldOf m self.old → IsHeldOf m self.new }
        ensures held { IfSome self.old.flow_cache (λ cache. result ≡ cache) }
    {
        match self.flow_cache.take() {
            Some(flow_cache) => flow_cache,
            None => FlowCache::new(alloc, side),
        }
    }

    // Caches these flows of tiles, as far as they fit.
    pub(crate) fn put_flow_cache(&mut self, flow_cache: FlowCache)
        ensures right { (m : Mosaic) → IsCacheOf m flow_cache → IsHeldOf m self.old
            → IsHeldOf m self.new }
        ensures kept { flow_bytes (Some flow_cache) ≤ most_flow_bytes
            → self.new.flow_cache ≡ Some flow_cache }
    {
        let mut kept = flow_cache;
        kept.keep(MOST_FLOW_BYTES);
        self.flow_cache = Some(kept);
    }

    // The levels at the point and around it, if all of them are cached.
    pub(crate) fn levels_near(&self, point: Point) -> Option<Near>
        ensures { (m : Mosaic) → IsMosaic m → IsHeldOf m self.now → IfSome result (IsNear m point) }
    {
        let tile_cache = self.tile_cache.as_ref()?;
        near(tile_cache, point)
    }

    // Moves the cached levels out of the cache, which has none of them afterwards; an empty cache of levels if it had none.
    // The only refusal is NoMemory.
    pub(crate) fn take<S: Samples>(
        &mut self,
        alloc: Global,
        samples: &S,
    ) -> Result<TileCache, Refusal>
        ensures right { S.is_honest samples.now → IsHeldOf (S.mosaic samples.now) self.old
            → IfOk result (λ w. IsRight (S.mosaic samples.now) (known_of w)) }
        ensures left { (m : Mosaic) → IsHeldOf m self.old → IsHeldOf m self.new }
        ensures held { IfSome self.old.tile_cache (λ w. result ≡ Ok w) }
        ensures flows { self.new.flow_cache ≡ self.old.flow_cache }
        ensures refusal { IfErr result (λ r. r ≡ NoMemory) }
    {
        match self.tile_cache.take() {
            Some(tile_cache) => Ok(tile_cache),
            None => TileCache::new(alloc, samples),
        }
    }

    // Puts these cached levels back into the cache.
    pub(crate) fn put(&mut self, tile_cache: TileCache)
        ensures right { (m : Mosaic) → IsRight m (known_of tile_cache) → IsHeldOf m self.old
            → IsHeldOf m self.new }
        ensures held { self.new.tile_cache ≡ Some tile_cache }
        ensures flows { self.new.flow_cache ≡ self.old.flow_cache }
    {
        self.tile_cache = Some(tile_cache);
    }
}

// Whether it leads to a lower level.
fn is_down(flow: Flow) -> bool
    ensures { result ≡ is_down flow }
{
    matches!(flow, Flow::To(_))
}

// Counts a question about a point of the corner's tile. Answers whether there were MOST_BY_LEVELS.
fn is_due(asked: &mut Vec<AskedTile>, corner: Corner) -> bool {
    for i in 0..asked.len() {
        if asked[i].corner == corner {
            asked[i].questions = asked[i].questions.saturating_add(1);
            return asked[i].questions >= MOST_BY_LEVELS;
        }
    }
    if asked.len() >= MOST_TILES as usize {
        asked.clear();
    }
    let _ = asked.push(AskedTile {
        corner,
        questions: 1,
    });
    false
}
