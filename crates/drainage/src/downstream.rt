//! Where water goes from one point, by the cached flows of tiles.
ghost use Rattle.std.specs.Prelude.{◌≡◌, ◌≤◌, ◌<◌, ℕ, IsTrue, IfOk, IfErr, OnOk, length, slice_index_or};
ghost use Rattle.lattice.specs.Ground.{is_ground};
ghost use Rattle.catalogue.specs.Asked.{Asked};
ghost use Rattle.catalogue.specs.Endings.{ends_any};
ghost use Rattle.water.specs.Flows.{Drains};
ghost use Rattle.flow_d8.specs.FlowGrids.{IsAtHand, KeepsKnown, flow_of};
ghost use Rattle.flow_d8.specs.Tiles.{IsInTile};
ghost use Rattle.water.specs.declared.flow.Flow.TheVariants.{Unknown};
ghost use Rattle.lattice.specs.declared.point.Point.{Point};
ghost use Rattle.drainage.specs.Between.{AreFlowsFor, IsHeldFor};
ghost use Rattle.flow_cache.specs.FlowCaches.{IsFlowIn, known_count};

use crate::drainage_cache::DrainageCache;
use crate::levels_near::near_levels;
use crate::preparing::prepare;
use catalogue::is_sink;
use flow_cache::{FlowCache, MOST_FLOW_BYTES};
use flow_d8::{FlatSearch, flow_near};
use lattice::{Point, Refusal};
use levels::present_holder;
use std::alloc::Global;
use tile_labellings::Labellings;
use water::Flow;

// Up to so many tiles, the flat is collected anew after each new tile. A search that resumes would need two bits for each
// cached sample.
const FEW_TILES: usize = 3;

/// Where the ground point drains: To, Beside, FlatTo or Outlet. If this isn't cached, its tile and the tiles that its flat
/// reaches are prepared.
///
/// Refusals are those of a level query.
pub(crate) fn flow_at<S: Labellings>(
    alloc: Global,
    samples: &mut S,
    held: &mut DrainageCache,
    point: Point,
) -> Result<Flow, Refusal>
    requires held { IsHeldFor S.Samples samples.old held.old }
    requires ground { S.is_honest samples.old → IsTrue (is_ground (S.mosaic samples.old) point) }
    ensures flow { S.is_honest samples.new → IfOk result (IsFlowIn (S.mosaic samples.old) point) }
    ensures drains { IfOk result Drains }
    ensures held { IsHeldFor S.Samples samples.new held.new }
    ensures causes { IfErr result (λ r. IsTrue (ends_any r)) }
    ensures asked { Asked S.Samples samples.old samples.new result }
{
    let flow = held.flow(point);
    if flow.drains() {
        return Ok(flow);
    }
    let flow = flow_by_levels(alloc, samples, held, point, flow)?;
    if flow.drains() {
        return Ok(flow);
    }
    flow_by_tiles(alloc, samples, held, point)
}

// Where the ground point drains by the levels at it and around it. Returns `known` if a cached tile shows more, or if the
// tile is queried often enough to be prepared.
fn flow_by_levels<S: Labellings>(
    alloc: Global,
    samples: &mut S,
    held: &mut DrainageCache,
    point: Point,
    known: Flow,
) -> Result<Flow, Refusal>
    requires held { IsHeldFor S.Samples samples.old held.old }
    requires ground { S.is_honest samples.old → IsTrue (is_ground (S.mosaic samples.old) point) }
    requires known { S.is_honest samples.old → IsFlowIn (S.mosaic samples.old) point known }
    ensures flow { S.is_honest samples.new → IfOk result (IsFlowIn (S.mosaic samples.old) point) }
    ensures held { IsHeldFor S.Samples samples.new held.new }
    ensures causes { IfErr result (λ r. IsTrue (ends_any r)) }
    ensures asked { Asked S.Samples samples.old samples.new result }
{
    if !matches!(known, Flow::Unknown) {
        return Ok(known);
    }
    let Some(corner) = present_holder(samples, point) else {
        return Ok(known);
    };
    if held.is_due(alloc, corner) {
        return Ok(known);
    }
    let near = near_levels(alloc, samples, held, point)?;
    Ok(flow_near(&near, is_sink(samples, point)))
}

/// Where the ground point drains, by the flows of its tile and of the tiles that its flat reaches. Tiles that aren't cached
/// are prepared.
pub(crate) fn flow_by_tiles<S: Labellings>(
    alloc: Global,
    samples: &mut S,
    held: &mut DrainageCache,
    point: Point,
) -> Result<Flow, Refusal>
    requires held { IsHeldFor S.Samples samples.old held.old }
    requires ground { S.is_honest samples.old → IsTrue (is_ground (S.mosaic samples.old) point) }
    ensures flow { S.is_honest samples.new → IfOk result (IsFlowIn (S.mosaic samples.old) point) }
    ensures drains { IfOk result Drains }
    ensures held { IsHeldFor S.Samples samples.new held.new }
    ensures causes { IfErr result (λ r. IsTrue (ends_any r)) }
    ensures asked { Asked S.Samples samples.old samples.new result }
{
    let mut flows = held.take_flow_cache(alloc, samples.side());
    flows.keep(MOST_FLOW_BYTES - samples.side().area() as usize);
    let found = prepared_flow(alloc, samples, held, &mut flows, point);
    held.put_flow_cache(flows);
    found
}

// Where the ground point drains; prepares its tile and the tiles that its flat reaches.
fn prepared_flow<S: Labellings>(
    alloc: Global,
    samples: &mut S,
    held: &mut DrainageCache,
    flows: &mut FlowCache,
    point: Point,
) -> Result<Flow, Refusal>
    requires held { IsHeldFor S.Samples samples.old held.old }
    requires ground { S.is_honest samples.old → IsTrue (is_ground (S.mosaic samples.old) point) }
    requires right { AreFlowsFor S.Samples samples.old flows.old }
    ensures flow { S.is_honest samples.new → IfOk result (IsFlowIn (S.mosaic samples.old) point) }
    ensures drains { IfOk result Drains }
    ensures right { AreFlowsFor S.Samples samples.new flows.new }
    ensures held { IsHeldFor S.Samples samples.new held.new }
    ensures causes { IfErr result (λ r. IsTrue (ends_any r)) }
    ensures asked { Asked S.Samples samples.old samples.new result }
{
    have_tile(alloc, samples, held, flows, point)?;
    let mut met_tiles: usize = 0;
    'tiles: while let Some(met) = flows.resolve(point)? {
        have_tile(alloc, samples, held, flows, met)?;
        met_tiles = met_tiles.saturating_add(1);
        if met_tiles <= FEW_TILES {
            continue;
        }
        have_flat(alloc, samples, held, flows, met)?;
    }
    let flow = flows.grid.flow(point);
    if !flow.drains() {
        return Err(Refusal::Damaged);
    }
    Ok(flow)
}

// Makes the flows of all points of the point's flat known. One search crosses the flat, and resumes in each tile that is
// prepared.
fn have_flat<S: Labellings>(
    alloc: Global,
    samples: &mut S,
    held: &mut DrainageCache,
    flows: &mut FlowCache,
    point: Point,
) -> Result<(), Refusal>
    requires held { IsHeldFor S.Samples samples.old held.old }
    requires right { AreFlowsFor S.Samples samples.old flows.old }
    ensures kept { KeepsKnown flows.old.grid.tiles flows.old.grid.flows.items flows.new.grid.tiles flows.new.grid.flows.items }
    ensures more { known_count flows.old.grid.flows.items ≤ known_count flows.new.grid.flows.items }
    ensures side { flows.new.grid.tiles.side ≡ flows.old.grid.tiles.side }
    ensures right { AreFlowsFor S.Samples samples.new flows.new }
    ensures held { IsHeldFor S.Samples samples.new held.new }
    ensures causes { IfErr result (λ r. IsTrue (ends_any r)) }
    ensures asked { Asked S.Samples samples.old samples.new result }
{
    let mut search = FlatSearch::new(alloc);
    let mut last = point;
    'tiles: while let Some(next) = flows.grid.search(&mut search, last)? {
        have_tile(alloc, samples, held, flows, next)?;
        last = next;
    }
    Ok(())
}

// Makes the flow of the ground point known. If it is unknown, this fills in the first cached tile that has the point, or
// prepares a tile that isn't cached.
fn have_tile<S: Labellings>(
    alloc: Global,
    samples: &mut S,
    held: &mut DrainageCache,
    flows: &mut FlowCache,
    point: Point,
) -> Result<(), Refusal>
    requires held { IsHeldFor S.Samples samples.old held.old }
    requires ground { S.is_honest samples.old → IsTrue (is_ground (S.mosaic samples.old) point) }
    requires right { AreFlowsFor S.Samples samples.old flows.old }
    ensures known { OnOk result (flow_of flows.new.grid.tiles flows.new.grid.flows.items point
        ≡ Unknown → ⊥) }
    ensures kept { KeepsKnown flows.old.grid.tiles flows.old.grid.flows.items flows.new.grid.tiles flows.new.grid.flows.items }
    ensures more { known_count flows.old.grid.flows.items ≤ known_count flows.new.grid.flows.items }
    ensures grown { OnOk result (flow_of flows.old.grid.tiles flows.old.grid.flows.items point
        ≡ Unknown
        → known_count flows.old.grid.flows.items < known_count flows.new.grid.flows.items) }
    ensures side { flows.new.grid.tiles.side ≡ flows.old.grid.tiles.side }
    ensures right { AreFlowsFor S.Samples samples.new flows.new }
    ensures held { IsHeldFor S.Samples samples.new held.new }
    ensures causes { IfErr result (λ r. IsTrue (ends_any r)) }
    ensures asked { Asked S.Samples samples.old samples.new result }
{
    // This call shows the prover that these are valid tiles (`AreTiles`).
    let _valid = flows.grid.count();
    if !matches!(flows.grid.flow(point), Flow::Unknown) {
        return Ok(());
    }
    if flows.grid.side().samples() != samples.side().samples() {
        return Err(Refusal::Damaged);
    }
    match flows.grid.slot(point) {
        Some(slot) => fill_tile(alloc, samples, held, flows, slot),
        None => push_tile(alloc, samples, held, flows, point),
    }
}

// Prepares the tile in this slot, and fills in its samples of unknown flow.
fn fill_tile<S: Labellings>(
    alloc: Global,
    samples: &mut S,
    held: &mut DrainageCache,
    flows: &mut FlowCache,
    slot: usize,
) -> Result<(), Refusal>
    requires held { IsHeldFor S.Samples samples.old held.old }
    requires right { AreFlowsFor S.Samples samples.old flows.old }
    requires slot { slot < length flows.old.grid.tiles.corners }
    requires side { flows.old.grid.tiles.side ≡ S.side_of samples.old }
    ensures tiles { flows.new.grid.tiles ≡ flows.old.grid.tiles }
    ensures kept { (k : ℕ)
        → (slice_index_or flows.old.grid.flows.items k Unknown ≡ Unknown → ⊥)
        → slice_index_or flows.new.grid.flows.items k Unknown
        ≡ slice_index_or flows.old.grid.flows.items k Unknown }
    ensures filled { OnOk result ((k : ℕ) → IsInTile flows.old.grid.tiles slot k
        → slice_index_or flows.new.grid.flows.items k Unknown ≡ Unknown → ⊥) }
    ensures right { AreFlowsFor S.Samples samples.new flows.new }
    ensures held { IsHeldFor S.Samples samples.new held.new }
    ensures causes { IfErr result (λ r. IsTrue (ends_any r)) }
    ensures asked { Asked S.Samples samples.old samples.new result }
{
    // This call shows the prover that these are valid tiles (`AreTiles`).
    let _valid = flows.grid.count();
    let corner = flows.grid.corner(slot);
    if !samples.present(corner) {
        return Err(Refusal::Damaged);
    }
    let prepared = prepare(alloc, samples, held, corner)?;
    let ranges = prepared.ranges;
    flows.fill(slot, &prepared.flows, ranges);
    Ok(())
}

// Prepares and caches a tile that has the ground point; no cached tile has it.
fn push_tile<S: Labellings>(
    alloc: Global,
    samples: &mut S,
    held: &mut DrainageCache,
    flows: &mut FlowCache,
    point: Point,
) -> Result<(), Refusal>
    requires held { IsHeldFor S.Samples samples.old held.old }
    requires ground { S.is_honest samples.old → IsTrue (is_ground (S.mosaic samples.old) point) }
    requires right { AreFlowsFor S.Samples samples.old flows.old }
    requires off { IsAtHand flows.old.grid.tiles point → ⊥ }
    requires side { flows.old.grid.tiles.side ≡ S.side_of samples.old }
    ensures known { OnOk result (flow_of flows.new.grid.tiles flows.new.grid.flows.items point
        ≡ Unknown → ⊥) }
    ensures kept { KeepsKnown flows.old.grid.tiles flows.old.grid.flows.items flows.new.grid.tiles flows.new.grid.flows.items }
    ensures more { known_count flows.old.grid.flows.items ≤ known_count flows.new.grid.flows.items }
    ensures grown { OnOk result (known_count flows.old.grid.flows.items
        < known_count flows.new.grid.flows.items) }
    ensures side { flows.new.grid.tiles.side ≡ flows.old.grid.tiles.side }
    ensures right { AreFlowsFor S.Samples samples.new flows.new }
    ensures held { IsHeldFor S.Samples samples.new held.new }
    ensures causes { IfErr result (λ r. IsTrue (ends_any r)) }
    ensures asked { Asked S.Samples samples.old samples.new result }
{
    // This call shows the prover that these are valid tiles (`AreTiles`).
    let _valid = flows.grid.count();
    let Some(corner) = present_holder(samples, point) else {
        return Err(Refusal::Damaged);
    };
    let prepared = prepare(alloc, samples, held, corner)?;
    let ranges = prepared.ranges;
    flows.push(corner, &prepared.flows, ranges)?;
    Ok(())
}
