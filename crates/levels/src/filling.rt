//! The filled level of a point.
ghost use Rattle.std.specs.Prelude.{◌≡◌, ◌*◌, ◌<◌, ◌≤◌, IsTrue, IsFalse, IfOk, MatchOption, IfErr, IfSome, IfNone, length, slice_index, slice_index_or};
ghost use Rattle.lattice.specs.Lattice.{IsIndexOf};
ghost use Rattle.lattice.specs.Mosaic.{void};
ghost use Rattle.lattice.specs.Ground.{is_ground, terrain};
ghost use Rattle.lattice.specs.Terrain.{IsFilledLevel};
ghost use Rattle.catalogue.specs.Asked.{Asked};
ghost use Rattle.catalogue.specs.Endings.{ends_any};
ghost use Rattle.levels.specs.Asking.{IsHeldByNone};
ghost use Rattle.levels.specs.Flooded.{corner_at};
ghost use Rattle.border_graph.specs.Joining.{Rim};
ghost use Rattle.border_graph.specs.Linking.{node_number};
ghost use Rattle.levels.specs.Holding.{IsRight, IsRimLevel, IsGroundNode};
ghost use Rattle.levels.specs.TileCaches.{known_of};

use crate::heights::is_height;
use crate::tile_cache::TileCache;
use border_graph::{lowest_pass, node_at};
use labelling::{NO_LABEL, OUT};
use lattice::{Corner, Point, Refusal, Side, VOID, index_in};
use std::alloc::Global;
use tile_flood::Labelled;
use tile_labellings::Labellings;

/// The filled level of the point; None if it isn't ground. It is the greater of the point's level in its own tile and the
/// level of the rim point that its label names. Only labellings of tiles on the water's way out are read. If the label is
/// NO_LABEL, the point is read, and has to be void.
pub fn level_in<S: Labellings>(
    alloc: Global,
    samples: &mut S,
    tile_cache: &mut TileCache,
    point: Point,
) -> Result<Option<i16>, Refusal>
    requires right { S.is_honest samples.old
        → IsRight (S.mosaic samples.old) (known_of tile_cache.old) }
    ensures level { S.is_honest samples.new
        → IfOk result (λ found. MatchOption found (IsFalse (is_ground (S.mosaic samples.old) point)) (λ level. IsFilledLevel (terrain (S.mosaic samples.old)) point level)) }
    ensures right { S.is_honest samples.new
        → IsRight (S.mosaic samples.new) (known_of tile_cache.new) }
    ensures causes { IfErr result (λ r. IsTrue (ends_any r)) }
    ensures asked { Asked S.Samples samples.old samples.new result }
{
    let side = tile_cache.rim_graph.side;
    let last = tile_cache.labellings.last();
    let Some((t, index)) = holder_of(side, &tile_cache.rim_graph.corners, last, point) else {
        return Ok(None);
    };
    let (level, label) = tile_cache.label_at(alloc, samples, t, index)?;
    if label == NO_LABEL {
        if !is_height(samples, point, VOID)? {
            return Err(Refusal::Damaged);
        }
        return Ok(None);
    }
    if label == OUT {
        return Ok(Some(level));
    }
    let over = rim_level(alloc, samples, tile_cache, t, label)?;
    Ok(Some(level.max(over)))
}

// The filled level of rim point `number` of tile t. One search finds the level of all rim points of its basin.
fn rim_level<S: Labellings>(
    alloc: Global,
    samples: &mut S,
    tile_cache: &mut TileCache,
    t: usize,
    number: u16,
) -> Result<i16, Refusal>
    requires place { t < length tile_cache.old.rim_graph.corners.items }
    requires right { S.is_honest samples.old
        → IsRight (S.mosaic samples.old) (known_of tile_cache.old) }
    requires there { S.is_honest samples.old
        → IsGroundNode (S.mosaic samples.old) tile_cache.old.rim_graph.corners.items t number }
    ensures level { S.is_honest samples.new
        → IfOk result (IsRimLevel (S.mosaic samples.old) tile_cache.old.rim_graph.corners.items (node_number (S.mosaic samples.old).side (Rim t number))) }
    ensures right { S.is_honest samples.new
        → IsRight (S.mosaic samples.new) (known_of tile_cache.new) }
    ensures causes { IfErr result (λ r. IsTrue (ends_any r)) }
    ensures asked { Asked S.Samples samples.old samples.new result }
{
    let Some(start) = node_at(tile_cache.rim_graph.side, t, u32::from(number)) else {
        return Err(Refusal::Damaged);
    };
    if let Some(level) = tile_cache.levels.level(start) {
        return Ok(level);
    }
    let mut alike = Vec::new(alloc);
    let Some(level) = lowest_pass(alloc, tile_cache, samples, start, &mut alike)? else {
        return Err(Refusal::Damaged);
    };
    let nodes = tile_cache.rim_graph.nodes();
    tile_cache.levels.know(nodes, start, level)?;
    tile_cache.levels.know_all(nodes, &alike, level)?;
    Ok(level)
}

/// The in-tile level and the label of the point with this index.
pub fn label_in(labelled: &Labelled, index: u32) -> Option<(i16, u16)>
    ensures some { IfSome result (λ label_at. (label_at.0 ≡ slice_index_or labelled.now.levels index void)
        × (label_at.1 ≡ slice_index labelled.now.labels index)) }
    ensures none { IfNone result (labelled.now.side * labelled.now.side ≤ index) }
{
    if index >= labelled.side().area() {
        return None;
    }
    let level = labelled.levels()[index as usize];
    let label = labelled.labels()[index as usize];
    Some((level, label))
}

// The number of the first tile that has the point, and the point's index in it.
fn first_holder(side: Side, corners: &[Corner], point: Point) -> Option<(usize, u32)>
    ensures none { IfNone result (IsHeldByNone side corners.now point) }
    ensures some { IfSome result (λ r. (r.0 < length corners.now)
        × IsIndexOf side (corner_at corners.now r.0) point r.1) }
{
    for (number, corner) in corners.iter().enumerate() {
        if let Some(index) = index_in(side, *corner, point) {
            return Some((number, index));
        }
    }
    None
}

// A tile that has the point, and the point's index in it. The tile that was used last is tried first.
fn holder_of(side: Side, corners: &[Corner], last: usize, point: Point) -> Option<(usize, u32)>
    ensures none { IfNone result (IsHeldByNone side corners.now point) }
    ensures some { IfSome result (λ r. (r.0 < length corners.now)
        × IsIndexOf side (corner_at corners.now r.0) point r.1) }
{
    if last < corners.len() {
        if let Some(index) = index_in(side, corners[last], point) {
            return Some((last, index));
        }
    }
    first_holder(side, corners, point)
}
