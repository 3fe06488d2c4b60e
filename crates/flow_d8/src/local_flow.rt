//! Where a point drains, as far as its level and the levels around it show.
ghost use Rattle.std.specs.Prelude.{◌≡◌, ℕ, ℤ, ◌+◌, ◌<◌, ◌≤◌, ◌↔◌, ◌≤ℤ◌, IsTrue, MatchOption, length, slice_index_or};
ghost use Rattle.lattice.specs.declared.direction.Dir.{Dir};
ghost use Rattle.lattice.specs.Mosaic.{void};
ghost use Rattle.lattice.specs.declared.point.Point.{Point};
ghost use Rattle.lattice.specs.Terrain.{Terrain};
ghost use Rattle.water.specs.declared.flow.Flow.TheVariants.{NoGround, Flat};
ghost use Rattle.flow_d8.specs.LevelGrid.{IsLevelGrid};
ghost use Rattle.flow_d8.specs.Places.{place_by, IsInner, IsShown, IsBestAt};
ghost use Rattle.flow_d8.specs.Preparing.{IsLocal, IsPlain, level_in};

use crate::slopes::{Best, at, better};
use crate::tiles::place;
use lattice::{DIRECTIONS, Dir, VOID};
use water::Flow;

/// Where the point at place k drains, from the levels at it and around it, in rows of this width. To: a level around it is
/// lower. Outlet: none is lower, and some direction has no level. Flat: none is lower, and all eight directions have one.
/// NoGround: the place has no level.
#[inline(always)]
pub(crate) fn local_flow_at(levels: &[i16], width: usize, k: usize) -> Flow
    requires { IsInner width (length levels.now) k }
    ensures so { (t : Terrain Point) (level : Point → ℤ) (p : Point) → IsLevelGrid t level
        → IsShown t level levels.now width p k → IsLocal t level p result }
    ensures none { result ≡ NoGround → level_in levels.now k ≡ void }
    ensures full { result ≡ Flat → (d : Dir) → level_in levels.now (place_by width k d) ≡ void → ⊥ }
    ensures plain { IsPlain result }
{
    if is_void(levels, k) {
        return Flow::NoGround;
    }
    // All eight directions have a level too, since none is below the void.
    if is_none_below(levels, width, k, at(levels, k)) {
        return Flow::Flat;
    }
    let best = steepest_at(levels, width, k);
    if best.slope > 0 {
        return Flow::To(best.direction);
    }
    match gap(levels, width, k) {
        Some(_) => Flow::Outlet,
        None => Flow::Flat,
    }
}

// Whether no level around the place is below the height. Straight steps are tried first: most slopes go down along one.
#[inline(always)]
fn is_none_below(levels: &[i16], width: usize, k: usize, height: i16) -> bool
    requires { IsInner width (length levels.now) k }
    ensures { IsTrue result → (d : Dir)
        → height ≤ℤ slice_index_or levels.now (place_by width k d) void }
{
    height <= at(levels, k - width)
        && height <= at(levels, k + width)
        && height <= at(levels, k - 1)
        && height <= at(levels, k + 1)
        && height <= at(levels, k - width - 1)
        && height <= at(levels, k - width + 1)
        && height <= at(levels, k + width - 1)
        && height <= at(levels, k + width + 1)
}

#[inline(never)]
fn steepest_at(levels: &[i16], width: usize, k: usize) -> Best
    requires { IsInner width (length levels.now) k }
    ensures { IsBestAt levels.now width k result }
{
    let height = at(levels, k);
    let best = Best {
        slope: 0,
        direction: Dir::East,
    };
    let best = better(levels, k + 1, height, best, Dir::East);
    let best = better(levels, k + width + 1, height, best, Dir::SouthEast);
    let best = better(levels, k + width, height, best, Dir::South);
    let best = better(levels, k + width - 1, height, best, Dir::SouthWest);
    let best = better(levels, k - 1, height, best, Dir::West);
    let best = better(levels, k - width - 1, height, best, Dir::NorthWest);
    let best = better(levels, k - width, height, best, Dir::North);
    better(levels, k - width + 1, height, best, Dir::NorthEast)
}

// The first direction in which there is no level.
#[inline(never)]
fn gap(levels: &[i16], width: usize, k: usize) -> Option<Dir>
    requires { IsInner width (length levels.now) k }
    ensures { MatchOption result ((d : Dir) → slice_index_or levels.now (place_by width k d) void ≡ void → ⊥) (λ d. slice_index_or levels.now (place_by width k d) void
        ≡ void) }
{
    for i in 0..8 {
        if is_void(levels, place(width, k, DIRECTIONS[i], levels.len())) {
            return Some(DIRECTIONS[i]);
        }
    }
    None
}

#[inline(always)]
fn is_void(levels: &[i16], place: usize) -> bool
    requires { place < length levels.now }
    ensures { IsTrue result ↔ (slice_index_or levels.now place void ≡ void) }
{
    at(levels, place) == VOID
}
