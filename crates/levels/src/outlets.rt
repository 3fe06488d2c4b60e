//! Which rim points of a tile are outlets of the mosaic, from the tile's labelling and the points around the tile.
ghost use Rattle.std.specs.Prelude.{◌≡◌, ◌<◌, ◌*◌, IfOk, OnOk, Contains, false, true};
ghost use Rattle.lattice.specs.Ground.{is_near, same_point, is_adjacent, degree_of, is_outlet};
ghost use Rattle.lattice.specs.Lattice.{IsIndexOf};
ghost use Rattle.catalogue.specs.Readers.{OnlyReads};
ghost use Rattle.tile_labellings.specs.Labellings.{IsFlooded};
ghost use Rattle.levels.specs.Flooded.{IsGroundOf};
ghost use Rattle.levels.specs.GroundCache.{AreRemembered};

use crate::ground_cache::GroundCache;
use catalogue::{Samples, is_ground, is_sink, tile_of_both};
use labelling::NO_LABEL;
use lattice::{Corner, Point, Refusal, index_in, steps};
use tile_flood::Labelled;

/// A tile with its labelling.
#[derive(Drop)]
pub(crate) struct LabelledTile<'a> {
    pub corner: Corner,
    pub(crate) labelled: &'a Labelled,
}

/// Whether the point with this index is an outlet: it is ground, and is a sink or has fewer than eight adjacent points. A
/// point of the tile is ground if its label isn't NO_LABEL. So only points around the tile are read, and only those that
/// aren't cached.
pub(crate) fn is_tile_outlet<S: Samples>(
    samples: &mut S,
    tile: &LabelledTile,
    ground_cache: &mut GroundCache,
    point: Point,
    index: u32,
) -> Result<bool, Refusal>
    requires labelled_side { tile.now.labelled.now.side ≡ S.side_of samples.old }
    requires present { Contains (S.corners samples.old) tile.now.corner }
    requires ground_cache { S.is_honest samples.old
        → AreRemembered (S.mosaic samples.old) ground_cache.old }
    requires index { IsIndexOf (S.side_of samples.old) tile.now.corner point index }
    requires inside { index < S.side_of samples.old * S.side_of samples.old }
    ensures value { S.is_honest samples.new
        → IsFlooded (S.mosaic samples.old) tile.now.corner tile.now.labelled.now
        → IfOk result (λ answer. answer ≡ is_outlet (S.mosaic samples.old) point) }
    ensures ground_cache { S.is_honest samples.new
        → OnOk result (AreRemembered (S.mosaic samples.new) ground_cache.new) }
    ensures reads { OnlyReads S.Samples samples.old samples.new result }
{
    if tile.labelled.labels()[index as usize] == NO_LABEL {
        return Ok(false);
    }
    if is_sink(samples, point) {
        return Ok(true);
    }
    let count = degree_in_tile(samples, tile, ground_cache, point)?;
    Ok(count < 8)
}

// The number of points adjacent to a ground point of the tile.
fn degree_in_tile<S: Samples>(
    samples: &mut S,
    tile: &LabelledTile,
    ground_cache: &mut GroundCache,
    point: Point,
) -> Result<u32, Refusal>
    requires labelled_side { tile.now.labelled.now.side ≡ S.side_of samples.old }
    requires present { Contains (S.corners samples.old) tile.now.corner }
    requires ground_cache { S.is_honest samples.old
        → AreRemembered (S.mosaic samples.old) ground_cache.old }
    ensures value { S.is_honest samples.new
        → IsGroundOf (S.mosaic samples.old) tile.now.corner tile.now.labelled.now point
        → IfOk result (λ count. count ≡ degree_of (S.mosaic samples.old) point) }
    ensures ground_cache { S.is_honest samples.new
        → OnOk result (AreRemembered (S.mosaic samples.new) ground_cache.new) }
    ensures reads { OnlyReads S.Samples samples.old samples.new result }
{
    let reach = steps(point);
    let mut count = 0;
    for step in reach.as_slice() {
        if is_adjacent_to(samples, tile, ground_cache, point, step.to)? {
            count += 1;
        }
    }
    Ok(count)
}

// Whether the two points, one step apart, are adjacent. The first is a ground point of the tile.
fn is_adjacent_to<S: Samples>(
    samples: &mut S,
    tile: &LabelledTile,
    ground_cache: &mut GroundCache,
    point: Point,
    to: Point,
) -> Result<bool, Refusal>
    requires labelled_side { tile.now.labelled.now.side ≡ S.side_of samples.old }
    requires present { Contains (S.corners samples.old) tile.now.corner }
    requires ground_cache { S.is_honest samples.old
        → AreRemembered (S.mosaic samples.old) ground_cache.old }
    requires near { is_near point to ≡ true }
    requires other { same_point point to ≡ false }
    ensures value { S.is_honest samples.new
        → IsGroundOf (S.mosaic samples.old) tile.now.corner tile.now.labelled.now point
        → IfOk result (λ answer. answer ≡ is_adjacent (S.mosaic samples.old) point to) }
    ensures ground_cache { S.is_honest samples.new
        → OnOk result (AreRemembered (S.mosaic samples.new) ground_cache.new) }
    ensures reads { OnlyReads S.Samples samples.old samples.new result }
{
    if let Some(index) = index_in(tile.labelled.side(), tile.corner, to) {
        return Ok(tile.labelled.labels()[index as usize] != NO_LABEL);
    }
    if ground_cache.holds(tile.labelled.side(), point, to) {
        return Ok(true);
    }
    let Some(tile) = tile_of_both(samples, point, to) else {
        return Ok(false);
    };
    if !is_ground(samples, to)? {
        return Ok(false);
    }
    ground_cache.remember(to, tile);
    Ok(true)
}
