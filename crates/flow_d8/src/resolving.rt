//! Resolves flats by waves.
ghost use Rattle.std.specs.Prelude.{◌≡◌, ℕ, ◌<◌, IfOk, OnOk, length, slice_index_or};
ghost use Rattle.lattice.specs.declared.direction.Dir.{Dir};
ghost use Rattle.water.specs.Drainage.{CrossesFlat};
ghost use Rattle.flow_d8.specs.Filled.{number_of};
ghost use Rattle.flow_d8.specs.Tiles.{count_of, place_of, by_of, IsFirst, OnGround};
ghost use Rattle.water.specs.declared.flow.Flow.TheVariants.{Unknown};
ghost use Rattle.flow_d8.specs.Flows.{IsOfFlat, AreFlows, Names};
ghost use Rattle.flow_d8.specs.Marks.{mark_at, AreFree, IsBack, IsMember, Lists, AreListed, AreCollected};
ghost use Rattle.flow_d8.specs.Rounds.{AreMarked, AreBegun, IsRound, Advances, IsPassed, OnTerrains, Tells};

use crate::collecting::Members;
use crate::flow::is_of_flat;
use crate::flow_byte::FlowByte;
use crate::marks::{FreeMarks, Marks, SampleRun, clear};
use crate::spreading::{Wave, are_deep, first_wave, reach};
use crate::telling::tell;
use crate::tile_flows::TileFlows;
use crate::tiles::Tiles;
use lattice::{DIRECTIONS, Point};
use std::alloc::AllocError;
use std::mem;

/// The result of resolving the flat of a point.
pub(crate) enum Resolution {
    /// The flat's points have their directions.
    Resolved,
    /// The point isn't known to lie inside a flat.
    NotFlat,
    /// The flat reaches this point, whose flow is unknown.
    Meets(Point),
}

ghost use Rattle.flow_d8.specs.Resolution.{AreResolved, IsOutcome, IsMetOnGround};

/// Resolves the flat of the point: sets the flows of its samples in each tile. The only refusal is NoMemory.
pub(crate) fn resolve(
    flows: &mut [FlowByte],
    tiles: &Tiles,
    marks: &mut FreeMarks,
    point: Point,
) -> Result<Resolution, AllocError>
    requires { length flows.old ≡ count_of tiles.now }
    ensures tells { Tells flows.old flows.new }
    ensures facts { OnGround tiles.now flows.old (λ t level. AreFlows t level (place_of tiles.now) flows.new) }
    ensures outcome { IfOk result (IsOutcome tiles.now (number_of tiles.now.side tiles.now.corners point) flows.old flows.new) }
    ensures ground { IfOk result (IsMetOnGround tiles.now flows.old) }
{
    let seed = tiles.number(point);
    if seed >= flows.len() || !is_of_flat(flows, seed) {
        return Ok(Resolution::NotFlat);
    }
    let alloc = marks.marks.allocator();
    marks.marks.resize(flows.len())?;
    // A search that failed may have left marks set; so `marks` gets new ones.
    let mut members = Members {
        seed,
        marks: mem::replace(&mut marks.marks, Marks::new(alloc)),
        runs: Vec::new(alloc),
    };
    let outcome = resolve_flat(flows, tiles, &mut members)?;
    clear(&mut members.marks, &members.runs);
    marks.marks = members.marks;
    Ok(outcome)
}

// Resolves the flat of the seed, whose members aren't collected yet. All samples that it leaves marked are in the runs.
fn resolve_flat(
    flows: &mut [FlowByte],
    tiles: &Tiles,
    members: &mut Members,
) -> Result<Resolution, AllocError>
    requires tiles { length flows.old ≡ count_of tiles.now }
    requires whole { length members.old.marks ≡ length flows.old }
    requires free { AreFree members.old.marks }
    requires none { length members.old.runs.items ≡ 0 }
    requires seed { IsOfFlat (slice_index_or flows.old members.old.seed Unknown) }
    requires first { IsFirst tiles.now members.old.seed }
    ensures listed { OnOk result (AreListed members.new.marks members.new.runs.items) }
    ensures tells { Tells flows.old flows.new }
    ensures facts { OnGround tiles.now flows.old (λ t level. AreFlows t level (place_of tiles.now) flows.new) }
    ensures outcome { IfOk result (IsOutcome tiles.now members.old.seed flows.old flows.new) }
{
    // This call shows the prover that these are valid tiles (`AreTiles`).
    let _valid = tiles.tiles();
    let seed = members.seed;
    if let Some(met) = members.collect(&TileFlows { tiles, flows })? {
        return Ok(Resolution::Meets(met));
    }
    resolve_members(flows, tiles, &mut members.marks, &members.runs, seed)?;
    Ok(Resolution::Resolved)
}

// Resolves the collected members, and sets their flows in each tile that has their points.
fn resolve_members(
    flows: &mut [FlowByte],
    tiles: &Tiles,
    marks: &mut Marks,
    runs: &[SampleRun],
    seed: usize,
) -> Result<(), AllocError>
    requires tiles { length flows.old ≡ count_of tiles.now }
    requires collected { AreCollected tiles.now flows.old marks.old runs.now seed }
    ensures outside { (k : ℕ) → mark_at marks.old k ≡ 3 → mark_at marks.new k ≡ 3 }
    ensures whole { length marks.new ≡ length marks.old }
    ensures tells { Tells flows.old flows.new }
    ensures facts { OnGround tiles.now flows.old (λ t level. AreFlows t level (place_of tiles.now) flows.new) }
    ensures resolved { OnOk result (AreResolved tiles.now seed flows.old flows.new) }
{
    // This call shows the prover that these are valid tiles (`AreTiles`).
    let _valid = tiles.tiles();
    let wave = first_wave(flows, marks, runs)?;
    spread(flows, tiles, marks, wave)?;
    tell(tiles, runs, flows);
    Ok(())
}

// Resolves the members in waves, from those next to an exit onwards.
fn spread(
    flows: &mut [FlowByte],
    tiles: &Tiles,
    marks: &mut Marks,
    mut wave: Vec<u32>,
) -> Result<(), AllocError>
    requires tiles { length flows.old ≡ count_of tiles.now }
    requires members { AreMarked flows.old (by_of tiles.now) marks.old }
    requires begun { AreBegun flows.old marks.old }
    requires round { IsRound (by_of tiles.now) marks.old marks.old wave.items }
    ensures whole { length marks.new ≡ length marks.old }
    ensures outside { (k : ℕ) → mark_at marks.old k ≡ 3 → mark_at marks.new k ≡ 3 }
    ensures tells { Tells flows.old flows.new }
    ensures kept { (k : ℕ) → mark_at marks.old k ≡ 3
        → slice_index_or flows.new k Unknown ≡ slice_index_or flows.old k Unknown }
    ensures facts { OnTerrains flows.old (by_of tiles.now) (λ t level place. AreFlows t level place flows.new) }
    ensures resolved { OnOk result ((k : ℕ) → IsMember marks.old k
        → OnTerrains flows.old (by_of tiles.now) (λ t level place. (j : ℕ)
        → CrossesFlat t level (place k) j
        → (d : Dir) × Names (slice_index_or flows.new k Unknown) d)) }
{
    'waves: while wave.len() > 0 {
        let mut next = Vec::new(marks.allocator());
        advance(tiles, &wave, marks, &mut next, flows)?;
        wave = next;
    }
    Ok(())
}

// Sets the directions of the next wave's members, and marks them. Directions are tried in order, so each sample gets the
// first that leads to this wave.
fn advance(
    tiles: &Tiles,
    samples: &[u32],
    marks: &mut Marks,
    next: &mut Vec<u32>,
    flows: &mut [FlowByte],
) -> Result<(), AllocError>
    requires tiles { length flows.old ≡ count_of tiles.now }
    requires whole { length marks.old ≡ length flows.old }
    requires reached { (i : ℕ) → i < length samples.now
        → mark_at marks.old (slice_index_or samples.now i 0) ≡ 0 }
    requires frontier { (k : ℕ) (d : Dir) → mark_at marks.old k ≡ 0
        → mark_at marks.old (by_of tiles.now k d) ≡ 2 → Lists samples.now k }
    requires back { (k : ℕ) → IsMember marks.old k → IsBack (by_of tiles.now) (length marks.old) k }
    requires none { length next.old.items ≡ 0 }
    ensures advances { Advances (by_of tiles.now) marks.old flows.old marks.new next.new.items flows.new }
    ensures passed { OnOk result (IsPassed (by_of tiles.now) marks.new samples.now) }
{
    let deep = are_deep(marks.allocator(), tiles, samples)?;
    let wave = Wave {
        tiles,
        samples,
        deep: &deep,
    };
    for i in 0..8 {
        reach(&wave, DIRECTIONS[i], marks, next, flows)?;
    }
    Ok(())
}
