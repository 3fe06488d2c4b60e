//! The steepest step down, from levels at places.
ghost use Rattle.std.specs.Prelude.{◌≡◌, ◌≤◌, ◌+◌, ◌*◌, ◌-ℤ◌, ◌<ℤ◌, ◌≤ℤ◌, ◌⊎◌, ◌<◌, ℤ, nat_abs, length, slice_index_or};
ghost use Rattle.lattice.specs.declared.point.Point.{Point};
ghost use Rattle.lattice.specs.Steps.{order_of, slope_of};
ghost use Rattle.lattice.specs.Terrain.{Terrain};
ghost use Rattle.lattice.specs.Mosaic.{void};
ghost use Rattle.flow_d8.specs.LevelGrid.{IsLevelGrid, level_beside};
ghost use Rattle.water.specs.SteepestStep.{IsSteepestOf};

use lattice::{Dir, VOID};

/// The steepest step down among some directions. Its slope is twice the square of the real one, or 0 if no step leads down.
#[derive(Clone, Copy)]
pub(crate) struct Best {
    pub(crate) slope: u64,
    pub(crate) direction: Dir,
}

/// The steeper of two steps: the steepest so far, and the step in this direction.
#[inline(always)]
pub(crate) fn better(levels: &[i16], place: usize, height: i16, best: Best, direction: Dir) -> Best
    requires { place < length levels.now }
    ensures { (t : Terrain Point) (level : Point → ℤ) (p : Point) → IsLevelGrid t level
        → slice_index_or levels.now place void ≡ level_beside t level p direction → level p ≡ height
        → IsSteepestOf t level p (order_of direction) best.slope best.direction
        → IsSteepestOf t level p (order_of direction + 1) result.slope result.direction }
{
    let slope = slope_to(height, direction, at(levels, place));
    if slope > best.slope {
        Best { slope, direction }
    } else {
        best
    }
}

/// The level at a place.
#[inline(always)]
pub(crate) fn at(levels: &[i16], place: usize) -> i16
    requires { place < length levels.now }
    ensures { result ≡ slice_index_or levels.now place void }
{
    levels[place]
}

// Twice the square of the slope of a step to this level; 0 if the step doesn't lead down.
#[inline(always)]
fn slope_to(height: i16, direction: Dir, beside: i16) -> u64
    ensures none { (beside ≡ void) ⊎ (height ≤ℤ beside) → result ≡ 0 }
    ensures some { (beside ≡ void → ⊥) → beside <ℤ height
        → result ≡ slope_of direction (nat_abs (height -ℤ beside)) }
{
    if beside == VOID || beside >= height {
        return 0;
    }
    let drop = i32::from(height) - i32::from(beside);
    square(direction, drop as u32)
}

#[inline(always)]
fn square(direction: Dir, drop: u32) -> u64
    requires { drop ≤ 65535 }
    ensures { result ≡ slope_of direction drop }
{
    let square = u64::from(drop) * u64::from(drop);
    match direction {
        Dir::East | Dir::South | Dir::West | Dir::North => 2 * square,
        _ => square,
    }
}
