//! Windows of the lattice.
ghost use Rattle.std.specs.Prelude.{◌≡◌, ◌<◌, ◌≤◌, ◌↔◌, ◌<ℤ◌, ◌≤ℤ◌, ◌+ℤ◌, ◌-ℤ◌, ℕ, FitsSigned, MatchOption, None, pos};
ghost use Rattle.water.specs.Runs.{IsInRun};
ghost use Rattle.std.specs.Int.{w32};
ghost use Rattle.windows.specs.Telling.{refusal_of};
ghost use Rattle.windows.specs.Windows.{point_in, is_beyond, refused_at_once};

use lattice::{Point, Refusal};
use water::Run;

/// A window of the lattice: its north-west point, and its numbers of rows and columns. Rows go southwards.
#[repr(C)]
#[derive(Clone, Copy, Drop)]
pub struct Window {
    pub north: i32,
    pub west: i32,
    pub rows: u32,
    pub columns: u32,
}

impl Window {
    /// Refuses with BadLength unless the window has this many points, and with BadBox if some coordinates don't fit 32
    /// bits.
    pub(crate) fn check(self, len: usize) -> Result<(), Refusal>
        ensures { refusal_of result ≡ refused_at_once self len }
    {
        if u64::from(self.rows) * u64::from(self.columns) != len as u64 {
            return Err(Refusal::BadLength);
        }
        if len > 0 && self.is_beyond() {
            return Err(Refusal::BadBox);
        }
        Ok(())
    }

    // Whether the last row or the last column is beyond 32 bits.
    fn is_beyond(self) -> bool
        ensures { result ≡ is_beyond self }
    {
        let south = i64::from(self.north) - i64::from(self.rows.saturating_sub(1));
        if south < i64::from(i32::MIN) {
            return true;
        }
        let east = i64::from(self.west) + i64::from(self.columns.saturating_sub(1));
        if i64::from(i32::MAX) < east {
            return true;
        }
        false
    }

    /// The point with this number, row by row from the north-west.
    pub(crate) fn point(self, number: usize, len: usize) -> Point
        requires inside { number < len }
        requires askable { refused_at_once self len ≡ None }
        ensures { result ≡ point_in self number }
    {
        let columns = self.columns as usize;
        Point {
            y: below(self.north, (number / columns) as u32),
            x: above(self.west, (number % columns) as u32),
        }
    }

    /// The numbers of the window's points in the run: the first, and the one after the last.
    pub(crate) fn numbers_in(self, run: Run, len: usize) -> (usize, usize)
        requires { refused_at_once self len ≡ None }
        ensures ordered { result.0 ≤ result.1 }
        ensures within { result.1 ≤ len }
        ensures exact { (k : ℕ) → k < len
            → ((result.0 ≤ k) × (k < result.1)) ↔ IsInRun run (point_in self k) }
    {
        let Some(row) = ahead(run.y, self.north) else {
            return (0, 0);
        };
        let first = first_from(self.west, run.first);
        let after = first_after(self.west, run.last).min(self.columns);
        if row >= self.rows || first >= after {
            return (0, 0);
        }
        let start = row as usize * self.columns as usize;
        (start + first as usize, start + after as usize)
    }
}

// The number `by` below `from`.
fn below(from: i32, by: u32) -> i32
    requires { FitsSigned w32 (from -ℤ pos by) }
    ensures { result ≡ from -ℤ pos by }
{
    match from.checked_sub_unsigned(by) {
        Some(number) => number,
        None => from,
    }
}

// The number `by` above `from`.
fn above(from: i32, by: u32) -> i32
    requires { FitsSigned w32 (from +ℤ pos by) }
    ensures { result ≡ from +ℤ pos by }
{
    match from.checked_add_unsigned(by) {
        Some(number) => number,
        None => from,
    }
}

// The distance from `from` up to `to`; none if `to` is below.
fn ahead(from: i32, to: i32) -> Option<u32>
    ensures { MatchOption result (to <ℤ from) (λ by. to ≡ from +ℤ pos by) }
{
    if to < from {
        None
    } else {
        Some(to.abs_diff(from))
    }
}

// The distance from `from` up to `to`; 0 if `to` is below.
fn first_from(from: i32, to: i32) -> u32
    ensures { (c : ℕ) → (result ≤ c) ↔ (to ≤ℤ (from +ℤ pos c)) }
{
    if to < from { 0 } else { to.abs_diff(from) }
}

// The distance from `from` up to `to` + 1, at most the largest number; 0 if that isn't above.
fn first_after(from: i32, to: i32) -> u32
    ensures { (c : ℕ) → c < 4294967295 → (c < result) ↔ ((from +ℤ pos c) ≤ℤ to) }
{
    if to < from {
        0
    } else {
        to.abs_diff(from).saturating_add(1)
    }
}
