//! Summarizes a tile with a labelling for the tiles around it.
ghost use Rattle.std.specs.Prelude.{◌≡◌, ◌-◌, ◌*◌, ◌<◌, ◌⊎◌, ◌||◌, IsTrue, IfOk, IfErr, OnOk, MatchOption, Ok, Contains, length};
ghost use Rattle.std.specs.Ordering.{int_eq};
ghost use Rattle.lattice.specs.Ground.{metres as metres_of};
ghost use Rattle.lattice.specs.Height.{height_of};
ghost use Rattle.lattice.specs.declared.refusal.Refusal.TheVariants.{NoMemory};
ghost use Rattle.border_graph.specs.Joining.{IsSummaryOf};
ghost use Rattle.catalogue.specs.Asked.{Asked};
ghost use Rattle.catalogue.specs.Endings.{ends_any};
ghost use Rattle.catalogue.specs.Readers.{OnlyReads, reads_of};
ghost use Rattle.catalogue.specs.Reading.{MayRefuse};
ghost use Rattle.tile_labellings.specs.Labellings.{IsFlooded};
ghost use Rattle.tile_labellings.specs.TileLabellings.{labelled_of, IsCurrent, IsTileLabelling};
ghost use Rattle.levels.specs.Flooded.{IsRimPointIn, HasOtherRimHeight, AreRimPointsIn};
ghost use Rattle.levels.specs.GroundCache.{AreRemembered};

use crate::ground_cache::GroundCache;
use crate::heights::is_height;
use crate::outlets::{LabelledTile, is_tile_outlet};
use border_graph::{RimPoint, Summary};
use catalogue::Samples;
use lattice::{Corner, Point, Refusal, point_at, push, rim_index};
use std::alloc::Global;
use tile_flood::Labelled;
use tile_labellings::TileLabelling;

/// The summary of the corner's tile with this labelling. It reads the points around the tile. Unless the labelling belongs to
/// a flooded block, it also reads the rim points.
///
/// Refusals are NoMemory, those of reading samples, and Damaged if the level of a rim point isn't its height.
pub(crate) fn summarize<S: Samples>(
    alloc: Global,
    samples: &mut S,
    corner: Corner,
    labelling: &mut TileLabelling,
) -> Result<Summary, Refusal>
    requires labelled_side { (labelled_of labelling.old).side ≡ S.side_of samples.old }
    requires present { Contains (S.corners samples.old) corner }
    ensures corner { IfOk result (λ b. b.corner ≡ corner) }
    ensures same { labelling.new ≡ labelling.old }
    ensures border { S.is_honest samples.new → IsCurrent labelling.old
        → IsTileLabelling (S.mosaic samples.old) corner labelling.old
        → IfOk result (IsSummaryOf (S.mosaic samples.old)) }
    ensures causes { IfErr result (λ r. IsTrue (ends_any r)) }
    ensures asked { IsCurrent labelling.old
        → (S.is_honest samples.new → IsTileLabelling (S.mosaic samples.old) corner labelling.old)
        → Asked S.Samples samples.old samples.new result }
    ensures reads { OnOk result (OnlyReads {T = Unit {0}} S.Samples samples.old samples.new (Ok tt)) }
    ensures honest { S.is_honest samples.new → S.is_honest samples.old }
    ensures mosaic { S.is_honest samples.new → S.mosaic samples.new ≡ S.mosaic samples.old }
{
    let spills = labelling.spills(alloc)?;
    let is_flooded = labelling.is_flooded();
    let labelled = labelling.labelled();
    let Some(rim) = rim_of(alloc, samples, corner, labelled, is_flooded)? else {
        return Err(Refusal::Damaged);
    };
    Ok(Summary::new(corner, rim, spills))
}

// The rim points of the corner's tile, by rim number. None if the level of some rim point isn't its height (void without
// one).
fn rim_of<S: Samples>(
    alloc: Global,
    samples: &mut S,
    corner: Corner,
    labelled: &Labelled,
    is_flooded: bool,
) -> Result<Option<Vec<RimPoint>>, Refusal>
    requires labelled_side { labelled.now.side ≡ S.side_of samples.old }
    requires present { Contains (S.corners samples.old) corner }
    ensures rim { S.is_honest samples.new → IsFlooded (S.mosaic samples.old) corner labelled.now
        → IfOk result (λ found. MatchOption found (HasOtherRimHeight (S.mosaic samples.old) corner labelled.now.levels) (λ rim. AreRimPointsIn (S.mosaic samples.old) corner labelled.now.labels rim.items (4 * (S.side_of samples.old - 1)))) }
    ensures refusal { IfErr result (λ r. (r ≡ NoMemory)
        ⊎ MayRefuse (S.failures samples.old) (S.failures samples.new) r) }
    ensures reads { OnlyReads S.Samples samples.old samples.new (reads_of result) }
{
    let count = labelled.side().rim();
    let tile = LabelledTile { corner, labelled };
    let mut ground_cache = GroundCache::new(alloc)?;
    let mut rim = Vec::new(alloc);
    for number in 0..count {
        let Some(point) = rim_point(samples, &tile, is_flooded, &mut ground_cache, number)? else {
            return Ok(None);
        };
        push(&mut rim, point)?;
    }
    Ok(Some(rim))
}

// The rim point with this number. None if its in-tile level isn't its height, which no valid labelling allows.
fn rim_point<S: Samples>(
    samples: &mut S,
    tile: &LabelledTile,
    is_flooded: bool,
    ground_cache: &mut GroundCache,
    number: u32,
) -> Result<Option<RimPoint>, Refusal>
    requires labelled_side { tile.now.labelled.now.side ≡ S.side_of samples.old }
    requires present { Contains (S.corners samples.old) tile.now.corner }
    requires ground_cache { S.is_honest samples.old
        → AreRemembered (S.mosaic samples.old) ground_cache.old }
    requires number { number < 4 * (S.side_of samples.old - 1) }
    ensures point { S.is_honest samples.new
        → IsFlooded (S.mosaic samples.old) tile.now.corner tile.now.labelled.now
        → IfOk result (λ found. MatchOption found (HasOtherRimHeight (S.mosaic samples.old) tile.now.corner tile.now.labelled.now.levels) (λ point. IsRimPointIn (S.mosaic samples.old) tile.now.corner tile.now.labelled.now.labels number point)) }
    ensures ground_cache { S.is_honest samples.new
        → OnOk result (AreRemembered (S.mosaic samples.new) ground_cache.new) }
    ensures reads { OnlyReads S.Samples samples.old samples.new result }
{
    let side = tile.labelled.side();
    let index = rim_index(side, number);
    let point = point_at(side, tile.corner, index);
    let level = tile.labelled.levels()[index as usize];
    if !is_rim_height(samples, point, level, is_flooded)? {
        return Ok(None);
    }
    let is_outlet = is_tile_outlet(samples, tile, ground_cache, point, index)?;
    Ok(Some(RimPoint {
        height: level,
        label: tile.labelled.labels()[index as usize],
        outlet: is_outlet,
    }))
}

// Whether the level of a rim point is its height. In a flooded block it is; for other labellings the point is read.
fn is_rim_height<S: Samples>(
    samples: &mut S,
    point: Point,
    level: i16,
    is_flooded: bool,
) -> Result<bool, Refusal>
    ensures value { S.is_honest samples.new
        → IfOk result (λ answer. answer ≡ (is_flooded || int_eq level (metres_of (height_of (S.mosaic samples.old) point)))) }
    ensures reads { OnlyReads S.Samples samples.old samples.new result }
{
    if is_flooded {
        return Ok(true);
    }
    is_height(samples, point, level)
}
