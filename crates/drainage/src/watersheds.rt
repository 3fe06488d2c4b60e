//! The watershed of a point; only levels around the points found are read.
ghost use Rattle.std.specs.Prelude.{◌≡◌, ◌≤◌, ◌↔◌, ℤ, IsTrue, IsOk, IfOk, IfErr, IsErrOf, length};
ghost use Rattle.lattice.specs.declared.point.Point.{Point};
ghost use Rattle.lattice.specs.Height.{height_of};
ghost use Rattle.lattice.specs.Ground.{is_ground, terrain};
ghost use Rattle.lattice.specs.declared.height.Height.TheVariants as height_is;
ghost use Rattle.lattice.specs.declared.refusal.Refusal.TheVariants.{Outside, Void};
ghost use Rattle.catalogue.specs.Asked.{Asked};
ghost use Rattle.water.specs.Drainage.{AreFilledLevels};
ghost use Rattle.catalogue.specs.Endings.{ends_any};
ghost use Rattle.water.specs.FlowPath.{IsInWatershed};
ghost use Rattle.flow_d8.specs.LevelsAround.{OnLevels};
ghost use Rattle.water.specs.Runs.{AreRuns};
ghost use Rattle.levels.specs.Asking.{IsHeldByNone, may_refuse};
ghost use Rattle.drainage.specs.Between.{IsHeldFor};

use crate::drainage_cache::DrainageCache;
use crate::prepared_flows::PreparedFlows;
use lattice::{Point, Refusal};
use levels::check_ground;
use std::alloc::Global;
use tile_labellings::Labellings;
use water::Run;
use watershed::watershed_over;

/// The watershed of the point: the ground points whose flow path contains it, as maximal runs, north first, west first.
///
/// Only tiles on the water's ways out are read, from its points, from the points around them, and from the points around
/// their flats. Caching and refusals are those of a direction query.
pub fn watershed<S: Labellings>(
    alloc: Global,
    samples: &mut S,
    held: &mut DrainageCache,
    point: Point,
) -> Result<Vec<Run>, Refusal>
    requires held { IsHeldFor S.Samples samples.old held.old }
    ensures runs { S.is_honest samples.new
        → IfOk result (λ runs. (level : Point → ℤ)
        → AreFilledLevels (terrain (S.mosaic samples.old)) level
        → AreRuns (IsInWatershed (terrain (S.mosaic samples.old)) level point) runs.items) }
    ensures on_ground { S.is_honest samples.new → IsOk result
        → IsTrue (is_ground (S.mosaic samples.old) point) }
    ensures outside { IsErrOf result Outside
        ↔ IsHeldByNone (S.side_of samples.old) (S.corners samples.old) point }
    ensures void { S.is_honest samples.new → IsErrOf result Void
        → height_of (S.mosaic samples.old) point ≡ height_is.Void }
    ensures causes { IfErr result (λ r. IsTrue (may_refuse r)) }
    ensures asked { Asked S.Samples samples.old samples.new result }
    ensures held { IsHeldFor S.Samples samples.new held.new }
{
    check_ground(samples, point)?;
    watershed_by(alloc, samples, held, point)
}

// The watershed of the point, by flows that are prepared when the search reaches their tiles. Empty if the point isn't
// ground.
fn watershed_by<S: Labellings>(
    alloc: Global,
    samples: &mut S,
    held: &mut DrainageCache,
    point: Point,
) -> Result<Vec<Run>, Refusal>
    requires held { IsHeldFor S.Samples samples.old held.old }
    ensures runs { S.is_honest samples.new
        → IfOk result (λ runs. OnLevels (S.mosaic samples.old) (λ level. AreRuns (IsInWatershed (terrain (S.mosaic samples.old)) level point) runs.items)) }
    ensures causes { IfErr result (λ r. IsTrue (ends_any r)) }
    ensures asked { Asked S.Samples samples.old samples.new result }
    ensures held { IsHeldFor S.Samples samples.new held.new }
{
    let mut flows = PreparedFlows { samples, held };
    watershed_over(alloc, &mut flows, point)
}
