//! Which points of a window drain through a point.
ghost use Rattle.std.specs.Prelude.{◌≡◌, ◌<◌, ℕ, None, min, length, slice_index};
ghost use Rattle.water.specs.CountLaws.{points_in};
ghost use Rattle.water.specs.Runs.{Cover, IsInRun};
ghost use Rattle.windows.specs.Results.{OfPoint};
ghost use Rattle.windows.specs.Windows.{AreOfAll, IsMark, IsShed, point_in, refused_at_once};

use crate::Window;
use crate::question::Question;
use engine::Engine;
use lattice::{Point, Refusal};
use water::Run;

/// The watershed of a point: for each of the window's points 1 if it drains through the point, else 0. The answer is
/// the number of all points that do, in the window or not. Refused as `Each` is, and with Outside or Void.
#[derive(Clone, Copy)]
pub struct Watershed(pub Point, pub Window);

impl Question for Watershed {
    type Answer = u64;

    type Element = u8;

    ghost refused_first = { λ q len. refused_at_once q.1 len };

    ghost count = { λ q. 1 };

    ghost says = { λ q m into result. OfPoint m q.0 (IsShed m q.0 q.1 into) result };

    fn ask<E: Engine>(&self, engine: &mut E, into: &mut [u8]) -> Result<u64, Refusal> {
        self.1.check(into.len())?;
        let runs = engine.watershed(self.0)?;
        mark(self.1, runs.as_slice(), into);
        Ok(count_points(runs.as_slice()))
    }
}

// Marks those window points that are in the runs.
fn mark(window: Window, runs: &[Run], into: &mut [u8])
    requires { refused_at_once window (length into.old) ≡ None }
    ensures { AreOfAll window (λ p v. IsMark (Cover runs.now p) v) into.new }
{
    into.fill(0);
    for at in 0..runs.len() {
        mark_run(window, runs[at], into);
    }
}

// Marks those window points that are in this run, and leaves the other marks.
fn mark_run(window: Window, run: Run, into: &mut [u8])
    requires { refused_at_once window (length into.old) ≡ None }
    ensures whole { length into.new ≡ length into.old }
    ensures marked { (k : ℕ) → k < length into.old → IsInRun run (point_in window k)
        → slice_index into.new k ≡ 1 }
    ensures left { (k : ℕ) → k < length into.old → ¬ IsInRun run (point_in window k)
        → slice_index into.new k ≡ slice_index into.old k }
{
    let (from, to) = window.numbers_in(run, into.len());
    for k in from..to {
        into[k] = 1;
    }
}

// The number of points in the runs, at most the largest 64-bit number.
fn count_points(runs: &[Run]) -> u64
    ensures { result ≡ min (points_in runs.now) 18446744073709551615 }
{
    let mut count = 0u64;
    for run in runs {
        count = count.saturating_add(u64::from(run.last.abs_diff(run.first)) + 1);
    }
    count
}
