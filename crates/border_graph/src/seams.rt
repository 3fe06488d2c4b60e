//! Lists the edges from a rim point, inside its tile and to the same point of other tiles. Also numbers nodes.
ghost use Rattle.std.specs.Prelude.{◌≡◌, ◌≢◌, ℕ, ◌+◌, ◌*◌, ◌-◌, ◌^◌, ◌<◌, ◌≤◌, ◌⊎◌, [], ◌∷◌, ◌++◌, IfOk, IfErr, OnOk, IfSome, IfNone, length};
ghost use Rattle.lattice.specs.declared.refusal.Refusal.TheVariants.{NoMemory, Damaged};
ghost use Rattle.border_graph.specs.Others.{corner_at, AreTooMany, IsOtherNode, AreEdgesToOthers, AreTileEdges};

use crate::Edge;
use crate::tile_graph::TileGraph;
use lattice::{
    Corner, Point, Refusal, Side, VOID, holders, index_in, point_at, rim_index, rim_number,
};
use std::alloc::AllocError;

/// Lists the edges from rim point k of tile t with this graph. A tile's number is its position among the corners.
///
/// Damaged if the graph has another side, or if there are more rim points than node numbers. The other refusal is NoMemory.
pub fn list_edges(
    side: Side,
    corners: &[Corner],
    graph: &TileGraph,
    t: usize,
    k: u32,
    into: &mut Vec<Edge>,
) -> Result<(), Refusal>
    requires number { k < 4 * (side - 1) }
    requires place { t < length corners.now }
    ensures edges { OnOk result (AreTileEdges side corners.now graph.now t k into.old.items into.new.items) }
    ensures refusal { IfErr result (λ r. (r ≡ NoMemory)
        ⊎ ((r ≡ Damaged) × ((graph.now.side ≢ side) ⊎ AreTooMany side corners.now))) }
{
    if graph.side() != side {
        return Err(Refusal::Damaged);
    }
    let Some(last) = node_at(side, t, side.rim()) else {
        return Err(Refusal::Damaged);
    };
    let first = last - 1 - side.rim();
    graph.edges_out(k, into)?;
    graph.edges_across(first, k, into)?;
    edges_to_others(corners, graph, t, k, into)?;
    Ok(())
}

// Lists the edges from the rim point to the same point of the other tiles that have it, unless it is void.
//
// Damaged if there are more rim points than node numbers. The other refusal is NoMemory.
fn edges_to_others(
    corners: &[Corner],
    graph: &TileGraph,
    t: usize,
    k: u32,
    into: &mut Vec<Edge>,
) -> Result<(), Refusal>
    requires number { k < 4 * (graph.now.side - 1) }
    requires place { t < length corners.now }
    ensures edges { OnOk result (AreEdgesToOthers graph.now.side corners.now graph.now t k into.old.items into.new.items) }
    ensures refusal { IfErr result (λ r. (r ≡ NoMemory)
        ⊎ ((r ≡ Damaged) × AreTooMany graph.now.side corners.now)) }
{
    let side = graph.side();
    let point = point_at(side, corners[t], rim_index(side, k));
    let height = graph.height(k);
    if height == VOID {
        return Ok(());
    }
    let holding = holders(side, point);
    for corner in holding.as_slice() {
        if let Some(to) = other_node(side, corners, t, point, *corner)? {
            add(into, Edge { level: height, to })?;
        }
    }
    Ok(())
}

// The node of the point in the corner's tile. None if there is no such tile, it doesn't have the point, or it is tile t.
//
// The only refusal is Damaged, if there are more rim points than node numbers.
fn other_node(
    side: Side,
    corners: &[Corner],
    t: usize,
    point: Point,
    corner: Corner,
) -> Result<Option<u32>, Refusal>
    ensures node { IfOk result (IsOtherNode side corners.now t point corner) }
    ensures refusal { IfErr result (λ r. (r ≡ Damaged) × AreTooMany side corners.now) }
{
    // Reading the side shows the prover that it is in range.
    let _edge = side.edge();
    let Some(u) = place_of(corners, corner) else {
        return Ok(None);
    };
    if u == t {
        return Ok(None);
    }
    let Some(index) = index_in(side, corner, point) else {
        return Ok(None);
    };
    let Some(to) = node_at(side, u, rim_number(side, index)) else {
        return Err(Refusal::Damaged);
    };
    Ok(Some(to))
}

fn add(into: &mut Vec<Edge>, edge: Edge) -> Result<(), AllocError>
    ensures { OnOk result (into.new.items ≡ into.old.items ++ edge ∷ []) }
{
    into.push(edge)?;
    Ok(())
}

/// The position of this corner among the corners.
pub fn place_of(corners: &[Corner], corner: Corner) -> Option<usize>
    ensures some { IfSome result (λ u. (u < length corners.now)
        × (corner_at corners.now u ≡ corner)) }
    ensures first { IfSome result (λ u. (v : ℕ) → v < u → corner_at corners.now v ≡ corner → ⊥) }
    ensures none { IfNone result ((u : ℕ) → u < length corners.now
        → corner_at corners.now u ≡ corner → ⊥) }
{
    for (place, found) in corners.iter().enumerate() {
        if *found == corner {
            return Some(place);
        }
    }
    None
}

/// The node of rim point k of tile t; None if its number doesn't fit. Rim points of the first tile are numbered from 1, and
/// those of the next tiles follow.
pub fn node_at(side: Side, t: usize, k: u32) -> Option<u32>
    ensures some { IfSome result (λ node. node ≡ 1 + t * (4 * (side - 1)) + k) }
    ensures none { IfNone result (2 ^ 32 ≤ 1 + t * (4 * (side - 1)) + k) }
{
    let size = side.rim();
    if t > u32::MAX as usize {
        return None;
    }
    let before = (t as u32).checked_mul(size)?;
    let above = before.checked_add(k)?;
    above.checked_add(1)
}

/// The number of a node's tile, and the rim number of the node's point.
pub(crate) fn rim_point_at(side: Side, node: u32) -> (usize, u32)
    requires { 0 < node }
    ensures low { 3 ≤ side }
    ensures number { result.1 < 4 * (side - 1) }
    ensures node { node ≡ 1 + result.0 * (4 * (side - 1)) + result.1 }
{
    let size = side.rim();
    (((node - 1) / size) as usize, (node - 1) % size)
}
