//! The number of points that drain through each point of a window.
ghost use Rattle.std.specs.Prelude.{◌≡◌, ◌<◌, ◌≤◌, ℕ, IsTrue, IsFalse, None, length, slice_index};
ghost use Rattle.lattice.specs.Corners.{is_corner};
ghost use Rattle.lattice.specs.Lattice.{IsSampleAt, holds};
ghost use Rattle.lattice.specs.Mosaic.{is_present};
ghost use Rattle.water.specs.Runs.{IsInRun};
ghost use Rattle.windows.specs.Results.{OfAny};
ghost use Rattle.windows.specs.Telling.{Tells, refusal_of};
ghost use Rattle.windows.specs.Windows.{AreOfAll, ArePut, IsCountAt, count_or, point_in, refused_at_once};

use crate::Window;
use crate::question::Question;
use engine::Engine;
use lattice::{Corner, Point, Refusal, Side, corner_in_range, index_in, point_at};
use water::Run;

/// The number of points that drain through each of a window's points, itself included; 0 if it isn't ground. Each tile
/// with points of the window is asked once.
#[derive(Clone, Copy)]
pub struct Counts(pub Window);

impl Question for Counts {
    type Answer = ();

    type Element = u32;

    ghost refused_first = { λ q len. refused_at_once q.0 len };

    ghost count = { λ q. 1 };

    ghost says = { λ q m into result. OfAny (λ _. AreOfAll q.0 (IsCountAt m) into) result };

    fn ask<E: Engine>(&self, engine: &mut E, into: &mut [u32]) -> Result<(), Refusal> {
        self.0.check(into.len())?;
        let side = engine.side();
        let tiles = engine.tiles()?;
        into.fill(0);
        for at in 0..tiles.len() {
            put_tile(engine, self.0, side, tiles[at], into)?;
        }
        Ok(())
    }
}

// Writes the counts of those window points that the tile has, and leaves the other values.
fn put_tile<E: Engine>(
    engine: &mut E,
    window: Window,
    side: Side,
    corner: Corner,
    into: &mut [u32],
) -> Result<(), Refusal>
    requires { refused_at_once window (length into.old) ≡ None }
    ensures whole { length into.new ≡ length into.old }
    ensures tells { Tells E.Engine engine.old engine.new 0 (refusal_of result) (λ m. m.side ≡ side
        → IsTrue (is_present m corner)
        → OfAny (λ _. ArePut m window corner into.old into.new) result) }
{
    if !meets(window, side, corner, into.len()) {
        return Ok(());
    }
    let counts = engine.upstream(corner)?;
    corner_in_range(corner);
    put_rows(window, side, corner, counts.as_slice(), into);
    Ok(())
}

// Whether the tile has points of the window.
fn meets(window: Window, side: Side, corner: Corner, len: usize) -> bool
    requires { refused_at_once window len ≡ None }
    ensures none { IsFalse result → (k : ℕ) → k < len
        → IsFalse (holds side corner (point_in window k)) }
    ensures some { IsTrue result → (k : ℕ) × (k < len)
        × ((i : ℕ) × ((j : ℕ) × IsSampleAt side corner i j (point_in window k))) }
{
    for row in 0..side.samples() {
        let (from, to) = window.numbers_in(row_of(side, corner, row), len);
        if from < to {
            return true;
        }
    }
    false
}

// Writes the counts of those window points that the tile has, row by row of the tile, and leaves the other values.
fn put_rows(window: Window, side: Side, corner: Corner, counts: &[u32], into: &mut [u32])
    requires askable { refused_at_once window (length into.old) ≡ None }
    requires corner { IsTrue (is_corner corner) }
    ensures low { 3 ≤ side }
    ensures whole { length into.new ≡ length into.old }
    ensures put { (k : ℕ) → k < length into.old
        → slice_index into.new k ≡ count_or side corner counts.now (point_in window k) (slice_index into.old k) }
{
    for row in 0..side.samples() {
        let run = row_of(side, corner, row);
        put_row(window, run, side, corner, counts, into);
    }
}

// Writes the counts of one row, and leaves the other values.
fn put_row(window: Window, run: Run, side: Side, corner: Corner, counts: &[u32], into: &mut [u32])
    requires askable { refused_at_once window (length into.old) ≡ None }
    requires low { 3 ≤ side }
    requires corner { IsTrue (is_corner corner) }
    ensures whole { length into.new ≡ length into.old }
    ensures put { (k : ℕ) → k < length into.old → IsInRun run (point_in window k)
        → slice_index into.new k ≡ count_or side corner counts.now (point_in window k) (slice_index into.old k) }
    ensures left { (k : ℕ) → k < length into.old → ¬ IsInRun run (point_in window k)
        → slice_index into.new k ≡ slice_index into.old k }
{
    let len = into.len();
    let (from, to) = window.numbers_in(run, len);
    for k in from..to {
        into[k] = count_or(side, corner, counts, window.point(k, len), into[k]);
    }
}

// The point's count if the tile has the point, else the old value.
fn count_or(side: Side, corner: Corner, counts: &[u32], point: Point, was: u32) -> u32
    requires low { 3 ≤ side }
    requires corner { IsTrue (is_corner corner) }
    ensures { result ≡ count_or side corner counts.now point was }
{
    match index_in(side, corner, point) {
        Some(index) => counts.get(index as usize).copied().unwrap_or(0),
        None => was,
    }
}

// The points of a row of the tile, from the north.
fn row_of(side: Side, corner: Corner, row: u32) -> Run
    requires { row < side }
    ensures each { (j : ℕ) (p : _) → IsSampleAt side corner row j p → IsInRun result p }
    ensures only { (p : _) → IsInRun result p → (j : ℕ) × IsSampleAt side corner row j p }
{
    let start = row * side.samples();
    let first = point_at(side, corner, start);
    let last = point_at(side, corner, start + side.edge());
    Run {
        y: first.y,
        first: first.x,
        last: last.x,
    }
}
