//! Computes the filled levels of all tiles' rims from the tiles' summaries.
ghost use Rattle.std.specs.Prelude.{◌≡◌, ◌<◌, ◌≤◌, ◌⊎◌, IfOk, IfErr, IfSome, IfNone, OnOk, length, map};
ghost use Rattle.lattice.specs.Mosaic.{Mosaic, IsMosaic};
ghost use Rattle.lattice.specs.declared.refusal.Refusal.TheVariants.{NoMemory, Damaged};
ghost use Rattle.border_graph.specs.Joining.{AreSummaries, summary_at};
ghost use Rattle.border_graph.specs.Joins.{IsSideOf, HaveNoSide, CannotBeJoined, AreLevelled, AreJoined};
ghost use Rattle.border_graph.specs.MosaicGraph.{IsRimAt, AreRimsAt, IsCutOff};

use crate::mosaic_graph::MosaicGraph;
use crate::summary::Summary;
use lattice::{Refusal, Side, push};
use std::alloc::Global;

/// The filled level of each rim point of each tile, in metres, by rim number; -32768 for a void. The summaries have to be
/// those of valid labellings of the present tiles, in the order of tiles, one each.
///
/// Damaged if no side fits the number of rim points of each summary, or if no links lead from a ground rim point to an
/// outlet. Summaries of valid labellings are never Damaged. The other refusal is NoMemory.
pub fn join(alloc: Global, summaries: &[Summary]) -> Result<Vec<Vec<i16>>, Refusal>
    ensures levels { (m : Mosaic) → IsMosaic m → AreSummaries m summaries.now
        → IfOk result (λ joined. AreJoined m summaries.now (map (λ v. v.items) joined.items)) }
    ensures not_damaged { (m : Mosaic) → IsMosaic m → AreSummaries m summaries.now
        → IfErr result (λ refusal. refusal ≡ NoMemory) }
    ensures refusal { IfErr result (λ refusal. (refusal ≡ NoMemory)
        ⊎ ((refusal ≡ Damaged) × CannotBeJoined summaries.now)) }
    ensures levelled { IfOk result (λ joined. AreLevelled summaries.now (map (λ v. v.items) joined.items)) }
{
    if summaries.is_empty() {
        return Ok(Vec::new(alloc));
    }
    let Some(side) = side_of(summaries) else {
        return Err(Refusal::Damaged);
    };
    let mut graph = MosaicGraph::new(alloc, side, summaries)?;
    let joined = rims_of(alloc, &mut graph, summaries.len())?;
    Ok(joined)
}

// The levels of the rims of the first tiles, as many as `tiles`.
fn rims_of(alloc: Global, graph: &mut MosaicGraph, tiles: usize) -> Result<Vec<Vec<i16>>, Refusal>
    requires places { tiles ≤ length graph.old.summaries }
    ensures whole { IfOk result (λ rims. length rims.items ≡ tiles) }
    ensures rims { IfOk result (λ rims. AreRimsAt graph.old (map (λ v. v.items) rims.items) tiles) }
    ensures refusal { IfErr result (λ r. (r ≡ NoMemory) ⊎ ((r ≡ Damaged) × IsCutOff graph.old)) }
{
    let mut rims = Vec::new(alloc);
    for t in 0..tiles {
        let rim = rim_of(alloc, graph, t)?;
        push(&mut rims, rim)?;
    }
    Ok(rims)
}

// The levels of the rim of tile t.
fn rim_of(alloc: Global, graph: &mut MosaicGraph, t: usize) -> Result<Vec<i16>, Refusal>
    requires place { t < length graph.old.summaries }
    ensures same { OnOk result (graph.new ≡ graph.old) }
    ensures rim { IfOk result (λ rim. IsRimAt graph.old t rim.items) }
    ensures refusal { IfErr result (λ r. (r ≡ NoMemory) ⊎ ((r ≡ Damaged) × IsCutOff graph.old)) }
{
    let mut rim = Vec::new(alloc);
    for k in 0..graph.side().rim() {
        let level = graph.rim_level(alloc, t, k)?;
        push(&mut rim, level)?;
    }
    Ok(rim)
}

// The side of all tiles, from the number of their rim points. None if they have no common side.
fn side_of(summaries: &[Summary]) -> Option<Side>
    requires some { 0 < length summaries.now }
    ensures some { IfSome result (λ side. IsSideOf side summaries.now) }
    ensures low { IfSome result (λ side. 3 ≤ side) }
    ensures none { IfNone result (HaveNoSide summaries.now) }
{
    let size = rim_points(summaries, 0);
    let edge = size / 4;
    if edge > 3600 {
        return None;
    }
    let side = Side::new(edge as u32 + 1)?;
    for t in 0..summaries.len() {
        if rim_points(summaries, t) != 4 * edge {
            return None;
        }
    }
    Some(side)
}

fn rim_points(summaries: &[Summary], t: usize) -> usize
    requires { t < length summaries.now }
    ensures { result ≡ length (summary_at summaries.now t).rim }
{
    summaries[t].rim().len()
}
