//! Copies the flow of a point to each tile that has the point.
ghost use Rattle.std.specs.Prelude.{◌≡◌, ℕ, ℤ, ◌<◌, length, slice_index_or};
ghost use Rattle.lattice.specs.declared.point.Point.{Point};
ghost use Rattle.lattice.specs.Terrain.{Terrain};
ghost use Rattle.water.specs.declared.flow.Flow.TheVariants.{Unknown};
ghost use Rattle.flow_d8.specs.Flows.{IsOfFlat, IsTold, IsFlow, AreFlows};
ghost use Rattle.flow_d8.specs.Marks.{IsIn, Covers, IsRow, AreRows};
ghost use Rattle.flow_d8.specs.Rounds.{Tells};
ghost use Rattle.flow_d8.specs.Tiles.{count_of, place_of, IsInTile, IsSampleOf};

use crate::flow::{flow_at, is_of_flat, is_told};
use crate::flow_byte::FlowByte;
use crate::marks::SampleRun;
use crate::tiles::Tiles;
use lattice::Point;
use water::Flow;

/// Copies the flows of the members to all samples of their points.
pub(crate) fn tell(tiles: &Tiles, runs: &[SampleRun], flows: &mut [FlowByte])
    requires tiles { length flows.old ≡ count_of tiles.now }
    requires rows { AreRows tiles.now.side runs.now }
    requires small { (k : ℕ) → Covers runs.now k → k < length flows.old }
    ensures tells { Tells flows.old flows.new }
    ensures facts { (t : Terrain Point) (level : Point → ℤ)
        → AreFlows t level (place_of tiles.now) flows.old
        → AreFlows t level (place_of tiles.now) flows.new }
    ensures twins { (k e : ℕ) → Covers runs.now k → IsTold (slice_index_or flows.old k Unknown)
        → IsSampleOf tiles.now (place_of tiles.now k) e
        → IsOfFlat (slice_index_or flows.old e Unknown)
        → IsTold (slice_index_or flows.new e Unknown) }
{
    for i in 0..runs.len() {
        tell_run(tiles, runs[i], flows);
    }
}

// Copies the flows of the run's members to all samples of their points. A run that isn't deep is one sample.
fn tell_run(tiles: &Tiles, run: SampleRun, flows: &mut [FlowByte])
    requires tiles { length flows.old ≡ count_of tiles.now }
    requires row { IsRow tiles.now.side run }
    requires small { (k : ℕ) → IsIn run k → k < length flows.old }
    ensures tells { Tells flows.old flows.new }
    ensures facts { (t : Terrain Point) (level : Point → ℤ)
        → AreFlows t level (place_of tiles.now) flows.old
        → AreFlows t level (place_of tiles.now) flows.new }
    ensures twins { (k e : ℕ) → IsIn run k → IsTold (slice_index_or flows.old k Unknown)
        → IsSampleOf tiles.now (place_of tiles.now k) e
        → IsOfFlat (slice_index_or flows.old e Unknown)
        → IsTold (slice_index_or flows.new e Unknown) }
{
    // This call shows the prover that these are valid tiles (`AreTiles`).
    let _valid = tiles.tiles();
    let k = run.first as usize;
    // No other sample has a point of a deep row.
    if tiles.is_deep(k) {
        return;
    }
    let flow = flow_at(flows, k);
    if is_told(flow) {
        tell_point(tiles, tiles.point(k), flow, flows);
    }
}

fn tell_point(tiles: &Tiles, point: Point, flow: Flow, flows: &mut [FlowByte])
    requires tiles { length flows.old ≡ count_of tiles.now }
    requires told { IsTold flow }
    ensures tells { Tells flows.old flows.new }
    ensures facts { (t : Terrain Point) (level : Point → ℤ) → IsFlow t level point flow
        → AreFlows t level (place_of tiles.now) flows.old
        → AreFlows t level (place_of tiles.now) flows.new }
    ensures twins { (e : ℕ) → IsSampleOf tiles.now point e
        → IsOfFlat (slice_index_or flows.old e Unknown)
        → IsTold (slice_index_or flows.new e Unknown) }
{
    for i in 0..tiles.tiles() {
        tell_in(tiles, i, point, flow, flows);
    }
}

fn tell_in(tiles: &Tiles, tile: usize, point: Point, flow: Flow, flows: &mut [FlowByte])
    requires tiles { length flows.old ≡ count_of tiles.now }
    requires tile { tile < length tiles.now.corners }
    requires told { IsTold flow }
    ensures tells { Tells flows.old flows.new }
    ensures facts { (t : Terrain Point) (level : Point → ℤ) → IsFlow t level point flow
        → AreFlows t level (place_of tiles.now) flows.old
        → AreFlows t level (place_of tiles.now) flows.new }
    ensures twins { (e : ℕ) → IsInTile tiles.now tile e → IsSampleOf tiles.now point e
        → IsOfFlat (slice_index_or flows.old e Unknown)
        → IsTold (slice_index_or flows.new e Unknown) }
{
    if let Some(e) = tiles.sample_in(tile, point) {
        tell_sample(flows, e, flow);
    }
}

fn tell_sample(flows: &mut [FlowByte], e: usize, flow: Flow)
    requires e { e < length flows.old }
    requires told { IsTold flow }
    ensures tells { Tells flows.old flows.new }
    ensures others { (k : ℕ) → (k ≡ e → ⊥)
        → slice_index_or flows.new k Unknown ≡ slice_index_or flows.old k Unknown }
    ensures here { IsOfFlat (slice_index_or flows.old e Unknown)
        → slice_index_or flows.new e Unknown ≡ flow }
    ensures not_here { (IsOfFlat (slice_index_or flows.old e Unknown) → ⊥)
        → slice_index_or flows.new e Unknown ≡ slice_index_or flows.old e Unknown }
{
    if is_of_flat(flows, e) {
        flows[e] = FlowByte::of(flow);
    }
}
