//! The filled level of a point, with the help of cached results.
ghost use Rattle.std.specs.Prelude.{◌≡◌, ◌<◌, ◌↔◌, IsTrue, IsFalse, IfOk, MatchOption, IfErr, IsErrOf};
ghost use Rattle.lattice.specs.Mosaic.{void};
ghost use Rattle.lattice.specs.Height.{height_of};
ghost use Rattle.lattice.specs.Ground.{is_ground, terrain};
ghost use Rattle.lattice.specs.Terrain.{IsFilledLevel};
ghost use Rattle.lattice.specs.declared.height.Height.TheVariants as height_is;
ghost use Rattle.lattice.specs.declared.refusal.Refusal.TheVariants.{Outside, Void};
ghost use Rattle.catalogue.specs.Asked.{Asked};
ghost use Rattle.catalogue.specs.Endings.{ends_any};
ghost use Rattle.levels.specs.Asking.{IsHeldByNone, may_refuse};
ghost use Rattle.drainage.specs.Between.{IsHeldFor};

use crate::drainage_cache::DrainageCache;
use lattice::{Point, Refusal};
use levels::{check_ground, level_in};
use std::alloc::Global;
use tile_labellings::Labellings;

/// The filled level of the point, in metres: the least, over all paths to an outlet, of the greatest height on the path. Only
/// tiles on the water's way out are read. Cached results are used, and new ones are cached.
///
/// Outside if no present tile holds the point, else Void if its height is void. Other refusals are NoMemory, those of reading
/// samples or a labelling, and Damaged if the data read can't belong to a mosaic.
pub fn fill<S: Labellings>(
    alloc: Global,
    samples: &mut S,
    held: &mut DrainageCache,
    point: Point,
) -> Result<i16, Refusal>
    requires held { IsHeldFor S.Samples samples.old held.old }
    ensures level { S.is_honest samples.new
        → IfOk result (λ level. IsFilledLevel (terrain (S.mosaic samples.old)) point level) }
    ensures outside { IsErrOf result Outside
        ↔ IsHeldByNone (S.side_of samples.old) (S.corners samples.old) point }
    ensures void { S.is_honest samples.new → IsErrOf result Void
        → height_of (S.mosaic samples.old) point ≡ height_is.Void }
    ensures causes { IfErr result (λ r. IsTrue (may_refuse r)) }
    ensures asked { Asked S.Samples samples.old samples.new result }
    ensures held { IsHeldFor S.Samples samples.new held.new }
{
    check_ground(samples, point)?;
    match level(alloc, samples, held, point)? {
        Some(level) => Ok(level),
        None => Err(Refusal::Damaged),
    }
}

/// The filled level of the point, in metres; None if the point isn't ground. Cached results are used, and new ones are
/// cached.
///
/// Refusals are NoMemory, those of reading samples or a labelling, and Damaged if the data read can't belong to a mosaic.
pub fn level<S: Labellings>(
    alloc: Global,
    samples: &mut S,
    held: &mut DrainageCache,
    point: Point,
) -> Result<Option<i16>, Refusal>
    requires held { IsHeldFor S.Samples samples.old held.old }
    ensures level { S.is_honest samples.new
        → IfOk result (λ found. MatchOption found (IsFalse (is_ground (S.mosaic samples.old) point)) (λ level. IsFilledLevel (terrain (S.mosaic samples.old)) point level)) }
    ensures held { IsHeldFor S.Samples samples.new held.new }
    ensures causes { IfErr result (λ r. IsTrue (ends_any r)) }
    ensures asked { Asked S.Samples samples.old samples.new result }
{
    let mut tile_cache = held.take(alloc, samples)?;
    let found = level_in(alloc, samples, &mut tile_cache, point);
    held.put(tile_cache);
    found
}
