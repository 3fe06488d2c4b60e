//! Which of the points around one drain straight to it, by the tile that has them all.
ghost use Rattle.std.specs.Prelude.{◌≡◌, ◌↔◌, ◌<◌, ◌*◌, ◌%◌, ℤ, false, true, IsTrue, IfNone, IfSome, Some, length, slice_index_or};
ghost use Rattle.lattice.specs.Ground.{terrain};
ghost use Rattle.lattice.specs.Mosaic.{Mosaic};
ghost use Rattle.lattice.specs.Steps.{order_of};
ghost use Rattle.lattice.specs.declared.direction.Dir.{Dir};
ghost use Rattle.lattice.specs.declared.point.Point.{Point};
ghost use Rattle.water.specs.declared.flow.Flow.TheVariants.{Unknown};
ghost use Rattle.water.specs.Donors.{AreToldBy, DrainsBack, IsBackTold};
ghost use Rattle.water.specs.Flows.{IsTellingAll};
ghost use Rattle.flow_d8.specs.Filled.{is_deep};
ghost use Rattle.flow_d8.specs.FlowGrids.{AreResolvedAround};
ghost use Rattle.flow_d8.specs.Flows.{AreFlows};
ghost use Rattle.flow_d8.specs.Places.{IsInner, place_by};
ghost use Rattle.flow_d8.specs.Tiles.{count_of, place_of};

use crate::flow_byte::FlowByte;
use crate::tiles::Tiles;
use lattice::Dir;

/// For each direction, in order, whether the neighbour there drains straight to the sample's point. None if the sample lies
/// less than two samples from an edge of its tile, or if some neighbour's flow isn't resolved.
pub(crate) fn donors_around(tiles: &Tiles, flows: &[FlowByte], k: usize) -> Option<[bool; 8]>
    requires k { k < count_of tiles.now }
    requires whole { length flows.now ≡ count_of tiles.now }
    ensures right { IfSome result (λ donors. (m : Mosaic) (level : Point → ℤ)
        → AreFlows (terrain m) level (place_of tiles.now) flows.now
        → AreToldBy (DrainsBack (terrain m) level (place_of tiles.now k)) donors 8) }
    ensures none { IfNone result (is_deep tiles.now.side (k % (tiles.now.side * tiles.now.side))
        ≡ true → AreResolvedAround flows.now tiles.now.side k → ⊥) }
{
    let side = tiles.side();
    if !tiles.is_deep(k) {
        return None;
    }
    leading_back(flows, side.samples() as usize, k)
}

// For each direction whether the flow there is the step back. None if some flow isn't resolved.
#[inline(always)]
fn leading_back(flows: &[FlowByte], width: usize, k: usize) -> Option<[bool; 8]>
    requires { IsInner width (length flows.now) k }
    ensures some { IfSome result (λ back. (d : Dir)
        → IsBackTold (slice_index_or flows.now (place_by width k d) Unknown) d (slice_index_or back (order_of d) false)) }
    ensures none { IfNone result (AreResolvedAround flows.now width k → ⊥) }
{
    Some([
        leads_back(flows, k + 1, Dir::East)?,
        leads_back(flows, k + width + 1, Dir::SouthEast)?,
        leads_back(flows, k + width, Dir::South)?,
        leads_back(flows, k + width - 1, Dir::SouthWest)?,
        leads_back(flows, k - 1, Dir::West)?,
        leads_back(flows, k - width - 1, Dir::NorthWest)?,
        leads_back(flows, k - width, Dir::North)?,
        leads_back(flows, k - width + 1, Dir::NorthEast)?,
    ])
}

// Whether the sample's flow is the step back from a step in this direction. None if the flow isn't resolved.
#[inline(always)]
fn leads_back(flows: &[FlowByte], k: usize, direction: Dir) -> Option<bool>
    requires { k < length flows.now }
    ensures some { IfSome result (λ back. IsBackTold (slice_index_or flows.now k Unknown) direction back) }
    ensures none { IfNone result (IsTellingAll (slice_index_or flows.now k Unknown) → ⊥) }
{
    let flow = flows[k];
    if !flow.tells_all() {
        return None;
    }
    Some(flow.leads_back(direction))
}
