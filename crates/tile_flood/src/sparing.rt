//! Raised points whose dependents are connected around them. For such a point no dependent at its own level has to become
//! suspect.
ghost use Rattle.std.specs.Prelude.{◌≡◌, ◌<◌, ◌≤◌, ◌+◌, ◌*◌, ◌/◌, ◌%◌, ℕ, false, IsTrue, length, slice_index_or};
ghost use Rattle.lattice.specs.Mosaic.{void};
ghost use Rattle.labelling.specs.Blocks.{is_marked};
ghost use Rattle.tile_flood.specs.Restoring.{AreMarks};
ghost use Rattle.tile_flood.specs.Affected.{IsInWindow};
ghost use Rattle.tile_flood.specs.Suspects.{IsIn};
ghost use Rattle.tile_flood.specs.Sparing.{IsAround, HangTogether, IsFirstSuspect, in_round};

use crate::affected::window_point;
use crate::flood::Flood;
use crate::values::{at, label_at};

impl Flood {
    // The least level from which neighbours with the point's label become suspect when the point is reset.
    pub(crate) fn first_suspect(&self, n: usize, e: usize) -> i16
        requires marks { AreMarks n self.now.levels.items self.now.labels.items }
        requires e { e < n * n }
        ensures { IsFirstSuspect n self.now.levels.items self.now.labels.items self.now.suspects e result }
    {
        let level = at(&self.levels, e);
        if self.is_spared(n, e) {
            level.min(i16::MAX - 1) + 1
        } else {
            level
        }
    }

    // Whether points at the point's level can stay when it is reset. That is so if it isn't suspect, and its neighbours with
    // its label and at most its level are connected with one another.
    fn is_spared(&self, n: usize, e: usize) -> bool
        requires marks { AreMarks n self.now.levels.items self.now.labels.items }
        requires e { e < n * n }
        ensures together { IsTrue result
            → HangTogether n self.now.levels.items self.now.labels.items e }
        ensures no_suspect { IsTrue result → IsIn self.now.suspects self.now.levels.items e → ⊥ }
    {
        self.suspects.is_above(at(&self.levels, e)) && self.hang_together(n, e)
    }

    // Whether these neighbours form one run around the point.
    fn hang_together(&self, n: usize, e: usize) -> bool
        requires marks { AreMarks n self.now.levels.items self.now.labels.items }
        requires e { e < n * n }
        ensures { IsTrue result → HangTogether n self.now.levels.items self.now.labels.items e }
    {
        for start in 0..8 {
            if self.is_one_run(n, e, start) {
                return true;
            }
        }
        false
    }

    // Whether, going round the point from this place on, each of these neighbours lies next to the one before it.
    fn is_one_run(&self, n: usize, e: usize, start: usize) -> bool
        requires marks { AreMarks n self.now.levels.items self.now.labels.items }
        requires e { e < n * n }
        requires start { start < 8 }
        ensures { IsTrue result → HangTogether n self.now.levels.items self.now.labels.items e }
    {
        // Start at the window's centre, which is near all its places.
        let mut last = 4;
        for k in 0..8 {
            let d = place_in_round((start + k) % 8);
            if self.is_around(n, e, d) {
                if !are_near(last, d) {
                    return false;
                }
                last = d;
            }
        }
        true
    }

    // Whether the d-th point of the window around e is another point with e's label and at most e's level.
    fn is_around(&self, n: usize, e: usize, d: usize) -> bool
        requires marks { AreMarks n self.now.levels.items self.now.labels.items }
        requires e { e < n * n }
        requires d { d < 9 }
        ensures around { IsTrue result
            → (z : ℕ) × (IsInWindow n e d z
            × IsAround n self.now.levels.items self.now.labels.items e z) }
        ensures none { result ≡ false → (z : ℕ) → IsInWindow n e d z
            → IsAround n self.now.levels.items self.now.labels.items e z → ⊥ }
    {
        let Some(z) = window_point(n, e, d) else {
            return false;
        };
        z != e
            && self.is_marked(z)
            && label_at(&self.labels, z) == label_at(&self.labels, e)
            && at(&self.levels, z) <= at(&self.levels, e)
    }
}

// The k-th place around the centre of a 3 x 3 window, clockwise from the north-west.
fn place_in_round(k: usize) -> usize
    requires { k < 8 }
    ensures place { result ≡ in_round k }
    ensures inside { result < 9 }
{
    match k {
        3 => 5,
        4 => 8,
        5 => 7,
        7 => 3,
        _ => k,
    }
}

// Whether two places of the window are at most one row and one column apart.
fn are_near(c: usize, d: usize) -> bool
    ensures rows { IsTrue result → (c / 3 ≤ d / 3 + 1) × (d / 3 ≤ c / 3 + 1) }
    ensures columns { IsTrue result → (c % 3 ≤ d % 3 + 1) × (d % 3 ≤ c % 3 + 1) }
{
    c / 3 <= d / 3 + 1 && d / 3 <= c / 3 + 1 && c % 3 <= d % 3 + 1 && d % 3 <= c % 3 + 1
}
