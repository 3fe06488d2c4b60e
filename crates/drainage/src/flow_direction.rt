//! The direction and the flow path of a point; only levels on the water's way are read.
ghost use Rattle.std.specs.Prelude.{◌≡◌, ◌≢◌, ◌*◌, ◌≤◌, ◌↔◌, ℤ, IsTrue, IsOk, IfOk, IfErr, IsErrOf, length};
ghost use Rattle.std.specs.List.{AllPairs};
ghost use Rattle.lattice.specs.declared.point.Point.{Point};
ghost use Rattle.lattice.specs.Height.{height_of};
ghost use Rattle.lattice.specs.Ground.{is_ground, terrain};
ghost use Rattle.lattice.specs.declared.height.Height.TheVariants as height_is;
ghost use Rattle.lattice.specs.declared.refusal.Refusal.TheVariants.{Outside, Void};
ghost use Rattle.catalogue.specs.Asked.{Asked};
ghost use Rattle.water.specs.Drainage.{AreFilledLevels};
ghost use Rattle.water.specs.FlowPath.{IsFlowPath};
ghost use Rattle.water.specs.Questions.{code_by, DrainsBy};
ghost use Rattle.levels.specs.Asking.{IsHeldByNone, may_refuse};
ghost use Rattle.drainage.specs.Between.{IsHeldFor};

use crate::downstream::flow_at;
use crate::drainage_cache::DrainageCache;
use crate::flow_paths::path_from;
use lattice::{Dir, Point, Refusal};
use levels::check_ground;
use std::alloc::Global;
use tile_labellings::Labellings;

/// The code of the direction in which water leaves the point. East is 1, each next direction clockwise has twice the code,
/// and 0 means that water leaves the mosaic. Only tiles on the water's way out from the points around it and around its flat
/// are read. Cached results are used, and new ones are cached.
///
/// Outside if no present tile holds the point, else Void if its height is void. Other refusals are NoMemory, those of reading
/// samples or a labelling, and Damaged if the data read can't belong to a mosaic.
pub fn direction<S: Labellings>(
    alloc: Global,
    samples: &mut S,
    held: &mut DrainageCache,
    point: Point,
) -> Result<u8, Refusal>
    requires held { IsHeldFor S.Samples samples.old held.old }
    ensures direction { S.is_honest samples.new
        → IfOk result (λ code. (level : Point → ℤ)
        → AreFilledLevels (terrain (S.mosaic samples.old)) level
        → DrainsBy (terrain (S.mosaic samples.old)) level point code) }
    ensures on_ground { S.is_honest samples.new → IsOk result
        → IsTrue (is_ground (S.mosaic samples.old) point) }
    ensures outside { IsErrOf result Outside
        ↔ IsHeldByNone (S.side_of samples.old) (S.corners samples.old) point }
    ensures void { S.is_honest samples.new → IsErrOf result Void
        → height_of (S.mosaic samples.old) point ≡ height_is.Void }
    ensures causes { IfErr result (λ r. IsTrue (may_refuse r)) }
    ensures asked { Asked S.Samples samples.old samples.new result }
    ensures held { IsHeldFor S.Samples samples.new held.new }
{
    check_ground(samples, point)?;
    let flow = flow_at(alloc, samples, held, point)?;
    Ok(code(flow.direction()))
}

/// The flow path of the point: the point, the next one in its direction, and so on, up to a point where water leaves the
/// mosaic. Caching and refusals are those of a direction query.
///
/// Whatever data was read, the path has no point twice, and no more points than the present tiles have samples. A longer path
/// is refused with Damaged.
pub fn trace<S: Labellings>(
    alloc: Global,
    samples: &mut S,
    held: &mut DrainageCache,
    point: Point,
) -> Result<Vec<Point>, Refusal>
    requires held { IsHeldFor S.Samples samples.old held.old }
    ensures path { S.is_honest samples.new
        → IfOk result (λ path. (level : Point → ℤ)
        → AreFilledLevels (terrain (S.mosaic samples.old)) level
        → IsFlowPath (terrain (S.mosaic samples.old)) level point path.items) }
    ensures once { IfOk result (λ path. AllPairs (λ p q. p ≢ q) path.items) }
    ensures short { IfOk result (λ path. length path.items ≤ length (S.corners samples.old) * (S.side_of samples.old * S.side_of samples.old)) }
    ensures on_ground { S.is_honest samples.new → IsOk result
        → IsTrue (is_ground (S.mosaic samples.old) point) }
    ensures outside { IsErrOf result Outside
        ↔ IsHeldByNone (S.side_of samples.old) (S.corners samples.old) point }
    ensures void { S.is_honest samples.new → IsErrOf result Void
        → height_of (S.mosaic samples.old) point ≡ height_is.Void }
    ensures causes { IfErr result (λ r. IsTrue (may_refuse r)) }
    ensures asked { Asked S.Samples samples.old samples.new result }
    ensures held { IsHeldFor S.Samples samples.new held.new }
{
    let most = samples.count() as u128 * samples.side().area() as u128;
    check_ground(samples, point)?;
    path_from(alloc, samples, held, point, most)
}

/// The direction's code in replies.
pub(crate) fn code(direction: Option<Dir>) -> u8
    ensures { result ≡ code_by direction }
{
    match direction {
        Some(direction) => direction.code(),
        None => 0,
    }
}
