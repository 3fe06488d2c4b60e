//! The levels at a ground point and around it.
ghost use Rattle.std.specs.Prelude.{◌≡◌, ℤ, IsTrue, IfOk, IfErr};
ghost use Rattle.lattice.specs.Ground.{is_ground, terrain};
ghost use Rattle.catalogue.specs.Asked.{Asked};
ghost use Rattle.catalogue.specs.Endings.{ends_any};
ghost use Rattle.flow_d8.specs.LevelsAround.{IsNear, OnLevels, around_of, beside_of};
ghost use Rattle.drainage.specs.Between.{IsHeldFor};

use crate::drainage_cache::DrainageCache;
use crate::filled_level::level;
use catalogue::share_tile;
use flow_d8::Near;
use lattice::{DIRECTIONS, Dir, Point, Refusal, neighbour};
use std::alloc::Global;
use tile_labellings::Labellings;

/// The filled levels of the ground point and of the points adjacent to it. New results are cached.
///
/// Refusals are those of a level query.
pub(crate) fn near_levels<S: Labellings>(
    alloc: Global,
    samples: &mut S,
    held: &mut DrainageCache,
    point: Point,
) -> Result<Near, Refusal>
    requires held { IsHeldFor S.Samples samples.old held.old }
    requires ground { S.is_honest samples.old → IsTrue (is_ground (S.mosaic samples.old) point) }
    ensures near { S.is_honest samples.new → IfOk result (IsNear (S.mosaic samples.old) point) }
    ensures held { IsHeldFor S.Samples samples.new held.new }
    ensures causes { IfErr result (λ r. IsTrue (ends_any r)) }
    ensures asked { Asked S.Samples samples.old samples.new result }
{
    if let Some(near) = held.levels_near(point) {
        return Ok(near);
    }
    let Some(height) = level(alloc, samples, held, point)? else {
        return Err(Refusal::Damaged);
    };
    let around = levels_around(alloc, samples, held, point)?;
    Ok(Near { height, around })
}

// The levels of the points adjacent to a ground point, by direction in the order of codes.
fn levels_around<S: Labellings>(
    alloc: Global,
    samples: &mut S,
    held: &mut DrainageCache,
    point: Point,
) -> Result<[Option<i16>; 8], Refusal>
    requires held { IsHeldFor S.Samples samples.old held.old }
    requires ground { S.is_honest samples.old → IsTrue (is_ground (S.mosaic samples.old) point) }
    ensures around { S.is_honest samples.new
        → IfOk result (λ around. OnLevels (S.mosaic samples.old) (λ level. around ≡ around_of (terrain (S.mosaic samples.old)) level point)) }
    ensures held { IsHeldFor S.Samples samples.new held.new }
    ensures causes { IfErr result (λ r. IsTrue (ends_any r)) }
    ensures asked { Asked S.Samples samples.old samples.new result }
{
    let mut found = [None; 8];
    for i in 0..8 {
        found[i] = level_beside(alloc, samples, held, point, DIRECTIONS[i])?;
    }
    Ok(found)
}

// The level of the adjacent point in the direction; None if no ground point is there.
fn level_beside<S: Labellings>(
    alloc: Global,
    samples: &mut S,
    held: &mut DrainageCache,
    point: Point,
    direction: Dir,
) -> Result<Option<i16>, Refusal>
    requires held { IsHeldFor S.Samples samples.old held.old }
    requires ground { S.is_honest samples.old → IsTrue (is_ground (S.mosaic samples.old) point) }
    ensures beside { S.is_honest samples.new
        → IfOk result (λ found. OnLevels (S.mosaic samples.old) (λ level. found ≡ beside_of (terrain (S.mosaic samples.old)) level point direction)) }
    ensures held { IsHeldFor S.Samples samples.new held.new }
    ensures causes { IfErr result (λ r. IsTrue (ends_any r)) }
    ensures asked { Asked S.Samples samples.old samples.new result }
{
    let Some(to) = neighbour(point, direction) else {
        return Ok(None);
    };
    if !share_tile(samples, point, to) {
        return Ok(None);
    }
    level(alloc, samples, held, to)
}
