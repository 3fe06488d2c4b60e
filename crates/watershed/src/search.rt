//! The search up the flow paths: from a point to those that drain straight to it, and so on.
ghost use Rattle.std.specs.Prelude.{◌≡◌, ◌⊎◌, ◌↔◌, ℤ, [], ◌∷◌, IsTrue, IsFalse, if◌then◌else◌, IfOk, IfErr, OnOk, Contains};
ghost use Rattle.lattice.specs.declared.point.Point.{Point};
ghost use Rattle.lattice.specs.declared.refusal.Refusal.TheVariants.{NoMemory};
ghost use Rattle.lattice.specs.Mosaic.{Mosaic, IsMosaic};
ghost use Rattle.lattice.specs.Ground.{is_ground, terrain};
ghost use Rattle.water.specs.Donors.{IsDonor};
ghost use Rattle.water.specs.FlowPath.{IsInWatershed};
ghost use Rattle.water.specs.declared.flow.Flow.TheVariants.{NoGround};
ghost use Rattle.water.specs.Runs.{AreRuns};
ghost use Rattle.watershed.specs.Search.{AreUpstream};
ghost use Rattle.watershed.specs.Marks.{IsMarked, IsIndexed};

use crate::donors::add_donors;
use crate::marks::Marks;
use lattice::{Point, Refusal};
use std::alloc::Global;
use water::{Flow, FlowSource, Run};

/// The watershed of the point: the ground points whose flow path contains it, as maximal runs, north first, then west first.
/// Empty if the point isn't ground. A flow is read when the search reaches its point.
///
/// Refusals are NoMemory and those of reading a flow.
pub fn watershed_over<F: FlowSource>(
    alloc: Global,
    flows: &mut F,
    point: Point,
) -> Result<Vec<Run>, Refusal>
    requires { F.is_ready flows.old }
    ensures runs { IfOk result (λ runs. (m : Mosaic) (level : Point → ℤ) → F.tells flows.new m level
        → AreRuns (IsInWatershed (terrain m) level point) runs.items) }
    ensures follows { F.follows flows.old flows.new }
    ensures keeps { OnOk result (F.keeps flows.old flows.new) }
    ensures refusal { IfErr result (F.refuses flows.old flows.new) }
{
    let marks = upstream(alloc, flows, point)?;
    Ok(marks.runs(alloc)?)
}

// The points whose flow path contains the point. Each drains to only one, so none is found twice. Even with wrong flows the
// search continues from each point only once, and ends.
fn upstream<F: FlowSource>(alloc: Global, flows: &mut F, point: Point) -> Result<Marks, Refusal>
    requires { F.is_ready flows.old }
    ensures found { IfOk result (λ marks. (m : Mosaic) (level : Point → ℤ)
        → F.tells flows.new m level → AreUpstream (terrain m) level point (IsMarked marks)) }
    ensures indexed { IfOk result IsIndexed }
    ensures follows { F.follows flows.old flows.new }
    ensures keeps { OnOk result (F.keeps flows.old flows.new) }
    ensures refusal { IfErr result (F.refuses flows.old flows.new) }
{
    let mut marks = Marks::new(alloc);
    let mut waiting = start(alloc, flows, point)?;
    let mut left = usize::MAX;
    'search: while let Some(at) = waiting.pop() {
        if left == 0 {
            return Err(Refusal::NoMemory);
        }
        left -= 1;
        visit(alloc, flows, &mut marks, at, &mut waiting)?;
    }
    Ok(marks)
}

// Marks the point. If it wasn't marked before, adds the points that drain straight to it to those waiting.
fn visit<F: FlowSource>(
    alloc: Global,
    flows: &mut F,
    marks: &mut Marks,
    point: Point,
    waiting: &mut Vec<Point>,
) -> Result<(), Refusal>
    requires ready { F.is_ready flows.old }
    requires indexed { IsIndexed marks.old }
    ensures once { OnOk result ((IsMarked marks.old point × (waiting.new.items ≡ waiting.old.items))
        ⊎ ((IsMarked marks.old point → ⊥)
        × ((m : Mosaic) (level : Point → ℤ) → F.tells flows.new m level → (x : Point)
        → Contains waiting.new.items x
        ↔ (Contains waiting.old.items x ⊎ IsDonor (terrain m) level x point)))) }
    ensures marked { OnOk result ((p : Point)
        → IsMarked marks.new p ↔ (IsMarked marks.old p ⊎ (p ≡ point))) }
    ensures indexed { OnOk result (IsIndexed marks.new) }
    ensures ready { OnOk result (F.is_ready flows.new) }
    ensures follows { F.follows flows.old flows.new }
    ensures keeps { OnOk result (F.keeps flows.old flows.new) }
    ensures refusal { IfErr result (F.refuses flows.old flows.new) }
{
    if !marks.mark(point)? {
        return Ok(());
    }
    add_donors(alloc, flows, point, waiting)?;
    Ok(())
}

// A list with the point if it is ground, otherwise an empty list.
fn start<F: FlowSource>(alloc: Global, flows: &mut F, point: Point) -> Result<Vec<Point>, Refusal>
    requires { F.is_ready flows.old }
    ensures found { IfOk result (λ found. (m : Mosaic) (level : Point → ℤ)
        → F.tells flows.new m level
        → found.items ≡ (if is_ground m point then point ∷ [] else [])) }
    ensures ready { OnOk result (F.is_ready flows.new) }
    ensures follows { F.follows flows.old flows.new }
    ensures keeps { OnOk result (F.keeps flows.old flows.new) }
    ensures refusal { IfErr result (F.refuses flows.old flows.new) }
{
    let flow = flows.flow(alloc, point)?;
    if is_no_ground(flow) {
        return Ok(Vec::new(alloc));
    }
    Ok(Vec::from_slice(alloc, &[point])?)
}

pub(crate) fn is_no_ground(flow: Flow) -> bool
    ensures { IsTrue result ↔ (flow ≡ NoGround) }
{
    matches!(flow, Flow::NoGround)
}
