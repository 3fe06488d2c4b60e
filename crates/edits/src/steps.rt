//! The part of a tile that a box overlaps, along one axis.
ghost use Rattle.std.specs.Prelude.{◌≡◌, ◌≤◌, ◌<◌, ◌+◌, ◌-◌, ℕ, pos, negsuc, ◌*ℤ◌, ◌≤ℤ◌, ◌<ℤ◌};
ghost use Rattle.edits.specs.TileRows.{AreStepsWithin};

use lattice::Side;

/// Steps from a tile's first edge, northwards or eastwards: the first of them, and their number.
#[derive(Clone, Copy)]
pub(crate) struct Steps {
    pub(crate) first: u32,
    pub(crate) count: u32,
}

/// The steps along a tile from the first value to the last, ends included. For values of `y` the corner is the tile's
/// latitude, for values of `x` its longitude.
pub(crate) fn steps_within(side: Side, corner: i16, first: i32, last: i32) -> Steps
    ensures { AreStepsWithin (side - 1) corner first last result }
{
    let edge = side.edge();
    let start = first_edge(edge, corner);
    let before = count_below(edge, i64::from(first) - start);
    let end = count_below(edge, i64::from(last) - start + 1);
    Steps {
        first: before,
        count: end.saturating_sub(before),
    }
}

// The number of steps from 0 to the edge that are below this one.
fn count_below(edge: u32, steps: i64) -> u32
    requires edge { edge ≤ 3600 }
    ensures most { result ≤ edge + 1 }
    ensures below { (k : ℕ) → k < result → pos k <ℤ steps }
    ensures from { (k : ℕ) → k ≤ edge → result ≤ k → steps ≤ℤ pos k }
{
    if steps < 0 {
        0
    } else if steps <= i64::from(edge) {
        steps as u32
    } else {
        edge + 1
    }
}

// The south (or west) edge of a tile.
fn first_edge(edge: u32, corner: i16) -> i64
    requires edge { edge ≤ 3600 }
    ensures value { result ≡ corner *ℤ pos edge }
    ensures low { negsuc 199999999 ≤ℤ result }
    ensures high { result ≤ℤ pos 200000000 }
{
    i64::from(corner) * i64::from(edge)
}
