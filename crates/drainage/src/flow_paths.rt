//! The flow path of one point, step by step.
ghost use Rattle.std.specs.Prelude.{◌≡◌, ◌≢◌, ◌⊎◌, ◌≤◌, ◌*◌, ◌++◌, [], ◌∷◌, IsTrue, IfOk, IfErr, OnOk, Contains, length};
ghost use Rattle.std.specs.List.{AllPairs};
ghost use Rattle.lattice.specs.Ground.{is_ground, terrain};
ghost use Rattle.lattice.specs.declared.refusal.Refusal.TheVariants.{NoMemory, Damaged};
ghost use Rattle.catalogue.specs.Asked.{Asked};
ghost use Rattle.catalogue.specs.Endings.{ends_any};
ghost use Rattle.water.specs.FlowPath.{IsFlowPath};
ghost use Rattle.water.specs.FlowSteps.{IsNext};
ghost use Rattle.flow_d8.specs.LevelsAround.{OnLevels};
ghost use Rattle.drainage.specs.Between.{IsHeldFor};
ghost use Rattle.drainage.specs.FlowPaths.{IsMarkedOnce};

use crate::downstream::flow_at;
use crate::drainage_cache::DrainageCache;
use lattice::{Point, Refusal, neighbour};
use std::alloc::{AllocError, Global};
use tile_labellings::Labellings;
use watershed::Marks;

/// The flow path of the ground point: the point, the one that it drains to, and so on, up to one that drains off the mosaic.
/// Whatever the flows are, it has no point twice and at most `most` points, the number of samples of the present tiles.
///
/// Refusals are those of a level query, and Damaged if the path would repeat a point or be longer.
pub(crate) fn path_from<S: Labellings>(
    alloc: Global,
    samples: &mut S,
    held: &mut DrainageCache,
    point: Point,
    most: u128,
) -> Result<Vec<Point>, Refusal>
    requires held { IsHeldFor S.Samples samples.old held.old }
    requires ground { S.is_honest samples.old → IsTrue (is_ground (S.mosaic samples.old) point) }
    requires most { most ≡ length (S.corners samples.old) * (S.side_of samples.old * S.side_of samples.old) }
    ensures path { S.is_honest samples.new → IfOk result (λ path. OnLevels (S.mosaic samples.old)
        (λ level. IsFlowPath (terrain (S.mosaic samples.old)) level point path.items)) }
    ensures once { IfOk result (λ path. AllPairs (λ p q. p ≢ q) path.items) }
    ensures short { IfOk result (λ path. length path.items ≤ most) }
    ensures held { IsHeldFor S.Samples samples.new held.new }
    ensures causes { IfErr result (λ r. IsTrue (ends_any r)) }
    ensures asked { Asked S.Samples samples.old samples.new result }
{
    let mut path = Vec::new(alloc);
    let mut marks = Marks::new(alloc);
    add(&mut path, &mut marks, point, most)?;
    let mut last = point;
    'steps: while let Some(to) = next_point(alloc, samples, held, last)? {
        add(&mut path, &mut marks, to, most)?;
        last = to;
    }
    Ok(path)
}

// Adds the point at the end of the path, whose points are marked. Damaged where the path has it already, or has as many
// points as it may have.
fn add(path: &mut Vec<Point>, marks: &mut Marks, point: Point, most: u128) -> Result<(), Refusal>
    requires { IsMarkedOnce marks.old path.old.items }
    ensures path { OnOk result (path.new.items ≡ path.old.items ++ point ∷ []) }
    ensures once { OnOk result (IsMarkedOnce marks.new path.new.items) }
    ensures short { OnOk result (length path.new.items ≤ most) }
    ensures refusal { IfErr result (λ r. (r ≡ NoMemory)
        ⊎ ((r ≡ Damaged) × (Contains path.old.items point ⊎ (most ≤ length path.old.items)))) }
{
    if path.len() as u128 >= most {
        return Err(Refusal::Damaged);
    }
    if !marks.mark(point)? {
        return Err(Refusal::Damaged);
    }
    lengthen(path, point)?;
    Ok(())
}

fn lengthen(path: &mut Vec<Point>, point: Point) -> Result<(), AllocError>
    ensures { OnOk result (path.new.items ≡ path.old.items ++ point ∷ []) }
{
    path.push(point)?;
    Ok(())
}

// The point that the ground point drains to; None if it drains off the mosaic.
fn next_point<S: Labellings>(
    alloc: Global,
    samples: &mut S,
    held: &mut DrainageCache,
    point: Point,
) -> Result<Option<Point>, Refusal>
    requires held { IsHeldFor S.Samples samples.old held.old }
    requires ground { S.is_honest samples.old → IsTrue (is_ground (S.mosaic samples.old) point) }
    ensures next { S.is_honest samples.new → IfOk result (λ found. OnLevels (S.mosaic samples.old)
        (λ level. IsNext (terrain (S.mosaic samples.old)) level point found)) }
    ensures held { IsHeldFor S.Samples samples.new held.new }
    ensures causes { IfErr result (λ r. IsTrue (ends_any r)) }
    ensures asked { Asked S.Samples samples.old samples.new result }
{
    let flow = flow_at(alloc, samples, held, point)?;
    let Some(direction) = flow.direction() else {
        return Ok(None);
    };
    Ok(neighbour(point, direction))
}
