//! Collects the samples of a flat.
ghost use Rattle.std.specs.Prelude.{◌≡◌, ℕ, ◌+◌, ◌<◌, ◌≤◌, ◌*◌, ◌%◌, true, IsTrue, IsFalse, IfOk, IfSome, IfNone, OnOk, length, slice_index_or};
ghost use Rattle.lattice.specs.declared.direction.Dir.{Dir};
ghost use Rattle.lattice.specs.Steps.{step, order_of};
ghost use Rattle.flow_d8.specs.Filled.{is_deep};
ghost use Rattle.flow_d8.specs.Tiles.{count_of, place_of, by_of, IsFirst};
ghost use Rattle.water.specs.declared.flow.Flow.TheVariants.{Unknown};
ghost use Rattle.flow_d8.specs.Flows.{IsOfFlat};
ghost use Rattle.flow_d8.specs.Component.{Connects};
ghost use Rattle.flow_d8.specs.Marks.{mark_at, AreFree, IsMember, IsIn, IsRow, AreListed, AreCollected, no_run};
ghost use Rattle.flow_d8.specs.Members.{AreFoundIn, IsSettledBeside, Grows};
ghost use Rattle.flow_d8.specs.Resolution.{IsMet};

use crate::flow::{is_of_flat, is_unknown};
use crate::flow_byte::FlowByte;
use crate::marks::{FREE, MEMBER, Marks, SampleRun, mark_run};
use crate::tile_flows::TileFlows;
use crate::tiles::{Stride, Tiles};
use lattice::{DIRECTIONS, Dir, Point, neighbour};
use std::alloc::AllocError;

/// The samples found of the seed's flat, as runs in the order of finding.
#[derive(Drop)]
pub(crate) struct Members {
    pub(crate) seed: usize,
    pub(crate) marks: Marks,
    pub(crate) runs: Vec<SampleRun>,
}

impl Members {
    /// Finds all samples of the flat, searching around one run after another. Stops at a point of unknown flow and returns
    /// it.
    pub(crate) fn collect(&mut self, known: &TileFlows) -> Result<Option<Point>, AllocError>
        requires whole { length self.old.marks ≡ length known.now.flows.now }
        requires free { AreFree self.old.marks }
        requires none { length self.old.runs.items ≡ 0 }
        requires flat { IsOfFlat (slice_index_or known.now.flows.now self.old.seed Unknown) }
        requires first { IsFirst known.now.tiles.now self.old.seed }
        ensures listed { OnOk result (AreListed self.new.marks self.new.runs.items) }
        ensures collected { IfOk result (λ met. IfNone met (AreCollected known.now.tiles.now known.now.flows.now self.new.marks self.new.runs.items self.old.seed)) }
        ensures met { IfOk result (λ met. IfSome met (IsMet known.now.tiles.now known.now.flows.now self.old.seed)) }
    {
        self.add(known, self.seed)?;
        let mut i = 0;
        'runs: while i < self.runs.len() {
            if let Some(met) = self.visit_run(known, i)? {
                return Ok(Some(met));
            }
            i += 1;
        }
        Ok(None)
    }

    // Adds the flat's samples around the run's samples. Returns a point of unknown flow around them, if there is one.
    #[inline(never)]
    fn visit_run(&mut self, known: &TileFlows, i: usize) -> Result<Option<Point>, AllocError>
        requires found { AreFoundIn known.now self.old }
        requires run { i < length self.old.runs.items }
        ensures grows { OnOk result (Grows known.now self.old self.new) }
        ensures settled { IfOk result (λ met. IfNone met ((k : ℕ) (d : Dir)
            → IsIn (slice_index_or self.old.runs.items i no_run) k
            → IsSettledBeside known.now self.new k d)) }
        ensures met { IfOk result (λ met. IfSome met (IsMet known.now.tiles.now known.now.flows.now self.new.seed)) }
    {
        let run = self.runs[i];
        let first = run.first as usize;
        let deep = known.tiles.is_deep(first);
        for k in first..run.last as usize + 1 {
            if let Some(met) = self.visit_around(known, k, deep, k > first)? {
                return Ok(Some(met));
            }
        }
        Ok(None)
    }

    // Adds the flat's samples around this member. If `is_next`, only its three eastern neighbours are visited, since the
    // sample before has visited the others. Returns the first neighbour of unknown flow, if there is one.
    #[inline(always)]
    fn visit_around(
        &mut self,
        known: &TileFlows,
        from: usize,
        deep: bool,
        is_next: bool,
    ) -> Result<Option<Point>, AllocError>
        requires found { AreFoundIn known.now self.old }
        requires member { IsMember self.old.marks from }
        requires deep { IsTrue deep
            → is_deep known.now.tiles.now.side (from % (known.now.tiles.now.side * known.now.tiles.now.side)) ≡ true }
        requires next { IsTrue is_next → (d : Dir) → 2 ≤ order_of d → order_of d < 7
            → IsSettledBeside known.now self.old from d }
        ensures grows { OnOk result (Grows known.now self.old self.new) }
        ensures settled { IfOk result (λ met. IfNone met ((d : Dir)
            → IsSettledBeside known.now self.new from d)) }
        ensures met { IfOk result (λ met. IfSome met (IsMet known.now.tiles.now known.now.flows.now self.new.seed)) }
    {
        for i in 0..8 {
            if is_next && 2 <= i && i < 7 {
                continue;
            }
            if !self.visit(known, from, DIRECTIONS[i], deep)? {
                return Ok(Some(point_beside(known.tiles, from, DIRECTIONS[i])));
            }
        }
        Ok(None)
    }

    // Adds the sample one step away if it lies inside a flat. False if its flow is unknown.
    #[inline(always)]
    fn visit(
        &mut self,
        known: &TileFlows,
        from: usize,
        direction: Dir,
        deep: bool,
    ) -> Result<bool, AllocError>
        requires found { AreFoundIn known.now self.old }
        requires member { IsMember self.old.marks from }
        requires deep { IsTrue deep
            → is_deep known.now.tiles.now.side (from % (known.now.tiles.now.side * known.now.tiles.now.side)) ≡ true }
        ensures grows { OnOk result (Grows known.now self.old self.new) }
        ensures settled { IfOk result (λ is_known. IsTrue is_known
            → IsSettledBeside known.now self.new from direction) }
        ensures unknown { IfOk result (λ is_known. IsFalse is_known
            → slice_index_or known.now.flows.now (by_of known.now.tiles.now from direction) Unknown ≡ Unknown) }
    {
        let stride = Stride::new(known.tiles.side(), direction);
        let to = known.tiles.step(from, direction, stride, deep);
        if self.marks.mark(to) != FREE {
            return Ok(true);
        }
        if to >= known.flows.len() || is_unknown(known.flows, to) {
            return Ok(false);
        }
        if is_of_flat(known.flows, to) {
            self.add(known, to)?;
        }
        Ok(true)
    }

    // Adds the sample. If it lies deep in its tile, adds the adjoining deep samples of its row too.
    fn add(&mut self, known: &TileFlows, to: usize) -> Result<(), AllocError>
        requires found { AreFoundIn known.now self.old }
        requires first { IsFirst known.now.tiles.now to }
        requires flat { IsOfFlat (slice_index_or known.now.flows.now to Unknown) }
        requires free { mark_at self.old.marks to ≡ 3 }
        requires joined { (n : ℕ)
            × Connects known.now.flows.now (by_of known.now.tiles.now) self.old.seed n to }
        ensures grows { OnOk result (Grows known.now self.old self.new) }
        ensures member { OnOk result (IsMember self.new.marks to) }
    {
        let run = free_row(known, &self.marks, to);
        self.runs.push(run)?;
        mark_run(&mut self.marks, run, MEMBER);
        Ok(())
    }
}

/// The run of free samples inside flats that contains this one. In the depth of a tile the run consists of deep samples;
/// elsewhere it is this sample alone.
pub(crate) fn free_row(known: &TileFlows, marks: &Marks, to: usize) -> SampleRun
    requires flat { IsOfFlat (slice_index_or known.now.flows.now to Unknown) }
    requires free { mark_at marks.now to ≡ 3 }
    requires to { to < count_of known.now.tiles.now }
    ensures row { IsRow known.now.tiles.now.side result }
    ensures at { IsIn result to }
    ensures flat { (k : ℕ) → IsIn result k
        → IsOfFlat (slice_index_or known.now.flows.now k Unknown) }
    ensures free { (k : ℕ) → IsIn result k → mark_at marks.now k ≡ 3 }
{
    let Some((west, east)) = known.tiles.deep_row(to) else {
        return one_run(known.tiles, to);
    };
    let first = first_free(known.flows, marks, west, to);
    let last = last_free(known.flows, marks, to, east);
    SampleRun {
        first: known.tiles.short(first),
        last: known.tiles.short(last),
    }
}

/// The run that consists of this sample.
pub(crate) fn one_run(tiles: &Tiles, k: usize) -> SampleRun
    requires { k < count_of tiles.now }
    ensures { result ≡ record { first = k; last = k } }
{
    SampleRun {
        first: tiles.short(k),
        last: tiles.short(k),
    }
}

// The first sample of the run of free samples inside flats that ends before `to`; at least `from`.
fn first_free(flows: &[FlowByte], marks: &Marks, from: usize, to: usize) -> usize
    requires { from ≤ to }
    ensures from { from ≤ result }
    ensures to { result ≤ to }
    ensures free { (k : ℕ) → result ≤ k → k < to → mark_at marks.now k ≡ 3 }
    ensures flat { (k : ℕ) → result ≤ k → k < to → IsOfFlat (slice_index_or flows.now k Unknown) }
{
    for back in 0..to - from {
        if !is_free(flows, marks, to - back - 1) {
            return to - back;
        }
    }
    from
}

// The last sample of the run of free samples inside flats that begins after `from`; at most `to`.
fn last_free(flows: &[FlowByte], marks: &Marks, from: usize, to: usize) -> usize
    requires { from ≤ to }
    ensures from { from ≤ result }
    ensures to { result ≤ to }
    ensures free { (k : ℕ) → from < k → k ≤ result → mark_at marks.now k ≡ 3 }
    ensures flat { (k : ℕ) → from < k → k ≤ result → IsOfFlat (slice_index_or flows.now k Unknown) }
{
    for on in 0..to - from {
        if !is_free(flows, marks, from + on + 1) {
            return from + on;
        }
    }
    to
}

/// Whether the sample isn't marked, and lies inside a flat.
#[inline(always)]
pub(crate) fn is_free(flows: &[FlowByte], marks: &Marks, k: usize) -> bool
    ensures free { IsTrue result → mark_at marks.now k ≡ 3 }
    ensures flat { IsTrue result → IsOfFlat (slice_index_or flows.now k Unknown) }
    ensures small { IsTrue result → k < length flows.now }
{
    k < flows.len() && marks.mark(k) == FREE && is_of_flat(flows, k)
}

/// The point one step from the sample.
pub(crate) fn point_beside(tiles: &Tiles, k: usize, direction: Dir) -> Point
    requires { k < count_of tiles.now }
    ensures { result ≡ step direction (place_of tiles.now k) }
{
    let _valid = tiles.tiles();
    match neighbour(tiles.point(k), direction) {
        Some(point) => point,
        None => unreachable!(),
    }
}
