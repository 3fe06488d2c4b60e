//! The donors of a point: the points that drain straight to it.
ghost use Rattle.std.specs.Prelude.{◌≡◌, ◌↔◌, ◌⊎◌, ℤ, IsTrue, IfOk, IfErr, OnOk, Contains, Some};
ghost use Rattle.lattice.specs.declared.point.Point.{Point};
ghost use Rattle.lattice.specs.Ground.{terrain};
ghost use Rattle.lattice.specs.Mosaic.{Mosaic, IsMosaic};
ghost use Rattle.water.specs.Donors.{AreToldBy, DrainsBack, IsDonor};
ghost use Rattle.water.specs.Flows.{direction_of};
ghost use Rattle.water.specs.Flows.{back_of};
ghost use Rattle.watershed.specs.Feeding.{IsDonorAdded};

use lattice::{DIRECTIONS, Dir, Point, Refusal, neighbour};
use std::alloc::{AllocError, Global};
use water::{Flow, FlowSource, back};

/// Adds the points that drain straight to this one.
pub(crate) fn add_donors<F: FlowSource>(
    alloc: Global,
    flows: &mut F,
    point: Point,
    found: &mut Vec<Point>,
) -> Result<(), Refusal>
    requires { F.is_ready flows.old }
    ensures donors { OnOk result ((m : Mosaic) (level : Point → ℤ) → F.tells flows.new m level
        → (x : Point)
        → Contains found.new.items x
        ↔ (Contains found.old.items x ⊎ IsDonor (terrain m) level x point)) }
    ensures ready { OnOk result (F.is_ready flows.new) }
    ensures follows { F.follows flows.old flows.new }
    ensures keeps { OnOk result (F.keeps flows.old flows.new) }
    ensures refusal { IfErr result (F.refuses flows.old flows.new) }
{
    let donors = donors(alloc, flows, point)?;
    for i in 0..8 {
        add_donor(point, DIRECTIONS[i], donors[i], found)?;
    }
    Ok(())
}

/// For each direction, in order, whether the neighbour there drains straight to this point.
pub(crate) fn donors<F: FlowSource>(
    alloc: Global,
    flows: &mut F,
    point: Point,
) -> Result<[bool; 8], Refusal>
    requires { F.is_ready flows.old }
    ensures donors { IfOk result (λ donors. (m : Mosaic) (level : Point → ℤ)
        → F.tells flows.new m level → AreToldBy (DrainsBack (terrain m) level point) donors 8) }
    ensures ready { OnOk result (F.is_ready flows.new) }
    ensures follows { F.follows flows.old flows.new }
    ensures keeps { OnOk result (F.keeps flows.old flows.new) }
    ensures refusal { IfErr result (F.refuses flows.old flows.new) }
{
    if let Some(donors) = flows.donors_around(point) {
        return Ok(donors);
    }
    let mut donors = [false; 8];
    for i in 0..8 {
        donors[i] = is_donor(alloc, flows, point, DIRECTIONS[i])?;
    }
    Ok(donors)
}

// Whether the neighbour in this direction drains straight back.
fn is_donor<F: FlowSource>(
    alloc: Global,
    flows: &mut F,
    point: Point,
    direction: Dir,
) -> Result<bool, Refusal>
    requires { F.is_ready flows.old }
    ensures donor { IfOk result (λ donor. (m : Mosaic) (level : Point → ℤ)
        → F.tells flows.new m level
        → IsTrue donor ↔ DrainsBack (terrain m) level point direction) }
    ensures ready { OnOk result (F.is_ready flows.new) }
    ensures follows { F.follows flows.old flows.new }
    ensures keeps { OnOk result (F.keeps flows.old flows.new) }
    ensures refusal { IfErr result (F.refuses flows.old flows.new) }
{
    let Some(beside) = neighbour(point, direction) else {
        return Ok(false);
    };
    let flow = flows.flow(alloc, beside)?;
    Ok(leads_back(flow, direction))
}

// Adds the neighbour in this direction, if it is a donor.
fn add_donor(
    point: Point,
    direction: Dir,
    is_donor: bool,
    found: &mut Vec<Point>,
) -> Result<(), AllocError>
    ensures { OnOk result ((m : Mosaic) (level : Point → ℤ) → IsMosaic m
        → IsTrue is_donor ↔ DrainsBack (terrain m) level point direction
        → IsDonorAdded (DrainsBack (terrain m) level point) point direction found.old.items found.new.items) }
{
    if !is_donor {
        return Ok(());
    }
    let Some(from) = neighbour(point, direction) else {
        return Ok(());
    };
    found.push(from)?;
    Ok(())
}

// Whether the flow's direction is opposite to this one.
fn leads_back(flow: Flow, direction: Dir) -> bool
    ensures { IsTrue result ↔ (direction_of flow ≡ Some (back_of direction)) }
{
    flow.direction() == Some(back(direction))
}
