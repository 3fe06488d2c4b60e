//! Waves over a flat.
ghost use Rattle.std.specs.Prelude.{◌≡◌, ℕ, ◌<◌, IfOk, OnOk, length, slice_index_or};
ghost use Rattle.flow_d8.specs.Tiles.{count_of, by_of};
ghost use Rattle.water.specs.declared.flow.Flow.TheVariants.{Unknown};
ghost use Rattle.flow_d8.specs.Flows.{IsBeside};
ghost use Rattle.water.specs.Flows.{back_of};
ghost use Rattle.flow_d8.specs.Marks.{mark_at, IsBack, IsIn, Covers, IsMember, IsFirstWave, Begins, AreDeep, Reaches};

use crate::flow::is_beside;
use crate::flow_byte::FlowByte;
use crate::marks::{MEMBER, Marks, REACHED, SampleRun};
use crate::tiles::{Stride, Tiles};
use lattice::Dir;
use std::alloc::{AllocError, Global};
use water::{Flow, back};

/// Marks the members that lie next to an exit, and returns them.
pub(crate) fn first_wave(
    flows: &[FlowByte],
    marks: &mut Marks,
    runs: &[SampleRun],
) -> Result<Vec<u32>, AllocError>
    requires whole { length marks.old ≡ length flows.now }
    requires members { (k : ℕ) → Covers runs.now k → IsMember marks.old k }
    requires listed { (k : ℕ) → IsMember marks.old k → Covers runs.now k }
    requires two { (k : ℕ) → IsMember marks.old k → mark_at marks.old k ≡ 2 }
    ensures whole { length marks.new ≡ length marks.old }
    ensures first { IfOk result (λ wave. IsFirstWave flows.now marks.old marks.new wave.items) }
    ensures outside { (k : ℕ) → mark_at marks.old k ≡ 3 → mark_at marks.new k ≡ 3 }
{
    let mut wave = Vec::new(marks.allocator());
    for i in 0..runs.len() {
        begin_run(flows, marks, &mut wave, runs[i])?;
    }
    Ok(wave)
}

fn begin_run(
    flows: &[FlowByte],
    marks: &mut Marks,
    wave: &mut Vec<u32>,
    run: SampleRun,
) -> Result<(), AllocError>
    requires whole { length marks.old ≡ length flows.now }
    requires members { (k : ℕ) → IsIn run k → IsMember marks.old k }
    ensures begins { Begins flows.now marks.old wave.old.items marks.new wave.new.items }
    ensures here { OnOk result ((k : ℕ) → IsIn run k → IsBeside (slice_index_or flows.now k Unknown)
        → mark_at marks.new k ≡ 0) }
{
    for k in run.first as usize..run.last as usize + 1 {
        begin_at(flows, marks, wave, k)?;
    }
    Ok(())
}

#[inline(always)]
#[tactic(auto, using(crate::proofs::Waves::Starting::member_small))]
fn begin_at(
    flows: &[FlowByte],
    marks: &mut Marks,
    wave: &mut Vec<u32>,
    k: usize,
) -> Result<(), AllocError>
    requires whole { length marks.old ≡ length flows.now }
    requires member { IsMember marks.old k }
    requires short { k < 4294967296 }
    ensures begins { Begins flows.now marks.old wave.old.items marks.new wave.new.items }
    ensures here { OnOk result (IsBeside (slice_index_or flows.now k Unknown)
        → mark_at marks.new k ≡ 0) }
{
    if !is_beside(flows, k) {
        return Ok(());
    }
    wave.push(k as u32)?;
    marks.set(k, REACHED);
    Ok(())
}

/// For each sample of the wave, whether it lies deep in its tile.
pub(crate) fn are_deep(alloc: Global, tiles: &Tiles, wave: &[u32]) -> Result<Vec<bool>, AllocError>
    ensures { IfOk result (λ deep. AreDeep tiles.now.side wave.now (length wave.now) deep.items) }
{
    let mut deep = Vec::with_capacity(alloc, wave.len())?;
    for i in 0..wave.len() {
        deep.push(tiles.is_deep(wave[i] as usize))?;
    }
    Ok(deep)
}

/// A wave of samples, and for each whether it lies deep in its tile.
#[derive(Drop)]
pub(crate) struct Wave<'a> {
    pub(crate) tiles: &'a Tiles,
    pub(crate) samples: &'a [u32],
    pub(crate) deep: &'a [bool],
    ghost depths: { AreDeep tiles.now.side samples.now (length samples.now) deep.now },
}

/// Finds the members in no wave whose step in this direction leads to the wave. Lists them, and sets their flows to that
/// step.
#[inline(never)]
pub(crate) fn reach(
    wave: &Wave,
    direction: Dir,
    marks: &mut Marks,
    next: &mut Vec<u32>,
    flows: &mut [FlowByte],
) -> Result<(), AllocError>
    requires tiles { length marks.old ≡ count_of wave.now.tiles.now }
    requires whole { length flows.old ≡ length marks.old }
    requires small { (i : ℕ) → i < length wave.now.samples.now
        → slice_index_or wave.now.samples.now i 0 < length marks.old }
    requires back { (i : ℕ) → i < length wave.now.samples.now
        → IsBack (by_of wave.now.tiles.now) (length marks.old) (slice_index_or wave.now.samples.now i 0) }
    ensures reaches { Reaches (by_of wave.now.tiles.now) wave.now.samples.now direction marks.old next.old.items flows.old marks.new next.new.items flows.new }
    ensures passed { OnOk result ((i : ℕ) → i < length wave.now.samples.now
        → mark_at marks.new (by_of wave.now.tiles.now (slice_index_or wave.now.samples.now i 0) (back_of direction)) ≡ 2
        → ⊥) }
{
    let (tiles, samples, deep) = (wave.tiles, wave.samples, wave.deep);
    let to_wave = back(direction);
    let stride = Stride::new(tiles.side(), to_wave);
    for i in 0..samples.len() {
        let to = tiles.step(samples[i] as usize, to_wave, stride, deep[i]);
        if marks.mark(to) != MEMBER {
            continue;
        }
        next.push(tiles.short(to))?;
        marks.set(to, REACHED);
        flows[to] = FlowByte::of(Flow::FlatTo(direction));
    }
    Ok(())
}
