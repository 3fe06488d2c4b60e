//! The filled levels of a whole tile, from its labelling and the filled levels of its rim points.
ghost use Rattle.std.specs.Prelude.{◌≡◌, ◌<◌, IsTrue, IfOk, IfErr, MatchOption, Contains, length};
ghost use Rattle.lattice.specs.Mosaic.{void};
ghost use Rattle.lattice.specs.declared.refusal.Refusal.TheVariants.{NoMemory};
ghost use Rattle.catalogue.specs.Asked.{Asked};
ghost use Rattle.catalogue.specs.Endings.{ends_any};
ghost use Rattle.border_graph.specs.Others.{corner_at};
ghost use Rattle.labelling.specs.Raising.{AreRimLevels};
ghost use Rattle.water.specs.TileLevels.{AreTileLevels};
ghost use Rattle.levels.specs.Holding.{IsRight};
ghost use Rattle.levels.specs.TileCaches.{known_of};
ghost use Rattle.water.specs.TileLevels.{IsLevelOrVoid};

use crate::filling::level_in;
use crate::refreshing::current_labelling;
use crate::tile_cache::TileCache;
use border_graph::place_of;
use catalogue::Samples;
use lattice::{Corner, Point, Refusal, Side, VOID, point_at, push, rim_index};
use std::alloc::Global;
use tile_flood::raise;
use tile_labellings::Labellings;

/// The filled levels of all points of the corner's tile, which is present, row by row from the north; void where a point
/// isn't ground. Levels of rim points are computed one by one. Levels of the other points follow from the tile's labelling in
/// one pass.
///
/// Refusals are those of a level query.
pub fn tile_levels<S: Labellings>(
    alloc: Global,
    samples: &mut S,
    tile_cache: &mut TileCache,
    corner: Corner,
) -> Result<Vec<i16>, Refusal>
    requires right { S.is_honest samples.old
        → IsRight (S.mosaic samples.old) (known_of tile_cache.old) }
    requires present { Contains (S.corners samples.old) corner }
    ensures levels { S.is_honest samples.new
        → IfOk result (λ levels. AreTileLevels (S.mosaic samples.old) corner levels.items) }
    ensures right { S.is_honest samples.new
        → IsRight (S.mosaic samples.new) (known_of tile_cache.new) }
    ensures causes { IfErr result (λ r. IsTrue (ends_any r)) }
    ensures asked { Asked S.Samples samples.old samples.new result }
{
    let rim = rim_levels(alloc, samples, tile_cache, corner)?;
    let Some(t) = place_of(&tile_cache.rim_graph.corners, corner) else {
        return Err(Refusal::Damaged);
    };
    let labelling = current_labelling(alloc, samples, &mut tile_cache.labellings, t, corner)?;
    let levels = raise(alloc, labelling.labelled(), &rim);
    tile_cache.labellings.hold(t, labelling);
    levels
}

// The filled levels of the rim points of the corner's tile, by rim number; void where a point isn't ground.
fn rim_levels<S: Labellings>(
    alloc: Global,
    samples: &mut S,
    tile_cache: &mut TileCache,
    corner: Corner,
) -> Result<Vec<i16>, Refusal>
    requires right { S.is_honest samples.old
        → IsRight (S.mosaic samples.old) (known_of tile_cache.old) }
    ensures levels { S.is_honest samples.new
        → IfOk result (λ rim. AreRimLevels (S.mosaic samples.old) corner rim.items) }
    ensures right { S.is_honest samples.new
        → IsRight (S.mosaic samples.new) (known_of tile_cache.new) }
    ensures causes { IfErr result (λ r. IsTrue (ends_any r)) }
    ensures asked { Asked S.Samples samples.old samples.new result }
{
    let side = samples.side();
    let mut rim = Vec::with_capacity(alloc, side.rim() as usize)?;
    for number in 0..side.rim() {
        level_in(alloc, samples, tile_cache, elsewhere(side, corner, number))?;
        let point = point_at(side, corner, rim_index(side, number));
        let level = level_of(alloc, samples, tile_cache, point)?;
        push(&mut rim, level)?;
    }
    Ok(rim)
}

// The rim point that is visited at this step. Successive steps jump along the rim: in order along a falling rim, each rim
// point would follow the water all the way to its outlet again.
fn elsewhere(side: Side, corner: Corner, number: u32) -> Point {
    let scattered = number.wrapping_mul(2_654_435_769) % side.rim();
    point_at(side, corner, rim_index(side, scattered))
}

/// The filled level of the point; void if it isn't ground.
///
/// Refusals are those of a level query.
pub fn level_of<S: Labellings>(
    alloc: Global,
    samples: &mut S,
    tile_cache: &mut TileCache,
    point: Point,
) -> Result<i16, Refusal>
    requires right { S.is_honest samples.old
        → IsRight (S.mosaic samples.old) (known_of tile_cache.old) }
    ensures level { S.is_honest samples.new
        → IfOk result (IsLevelOrVoid (S.mosaic samples.old) point) }
    ensures right { S.is_honest samples.new
        → IsRight (S.mosaic samples.new) (known_of tile_cache.new) }
    ensures causes { IfErr result (λ r. IsTrue (ends_any r)) }
    ensures asked { Asked S.Samples samples.old samples.new result }
{
    let found = level_in(alloc, samples, tile_cache, point)?;
    Ok(level_or_void(found))
}

fn level_or_void(found: Option<i16>) -> i16
    ensures { MatchOption found (result ≡ void) (λ level. result ≡ level) }
{
    match found {
        Some(level) => level,
        None => VOID,
    }
}
