//! Where a point drains, as far as its level and the levels around it show.
ghost use Rattle.std.specs.Prelude.{◌≡◌, ℤ, IsTrue, MatchOption, if◌then◌else◌};
ghost use Rattle.lattice.specs.declared.point.Point.{Point};
ghost use Rattle.lattice.specs.Ground.{terrain, is_sink as is_declared};
ghost use Rattle.lattice.specs.Mosaic.{Mosaic, IsMosaic, void};
ghost use Rattle.lattice.specs.Terrain.{Terrain};
ghost use Rattle.flow_d8.specs.LevelsAround.{around_of, IsNear, OnLevels};
ghost use Rattle.flow_d8.specs.Places.{IsShown};
ghost use Rattle.water.specs.declared.flow.Flow.TheVariants.{Unknown, Outlet};
ghost use Rattle.flow_d8.specs.Flows.{IsFlowNear};

use crate::levels_around::Near;
use crate::local_flow::local_flow_at;
use lattice::VOID;
use water::Flow;

/// Where the ground point with these levels drains: To or Outlet; Unknown if it lies inside a flat.
pub fn flow_near(near: &Near, is_sink: bool) -> Flow
    ensures { (m : Mosaic) (p : Point) → IsMosaic m → IsNear m p near.now
        → is_sink ≡ is_declared m p → OnLevels m (λ level. IsFlowNear (terrain m) level p result) }
{
    match local_flow_at(&in_rows(near), 3, 4) {
        Flow::Flat => flat_flow(is_sink),
        flow => flow,
    }
}

fn flat_flow(is_sink: bool) -> Flow
    ensures { result ≡ (if is_sink then Outlet else Unknown) }
{
    if is_sink { Flow::Outlet } else { Flow::Unknown }
}

// The nine levels in three rows from the north; void where no point is adjacent.
fn in_rows(near: &Near) -> [i16; 9]
    ensures { (t : Terrain Point) (level : Point → ℤ) (p : Point) → IsTrue (t.is_ground p)
        → level p ≡ near.now.height → near.now.around ≡ around_of t level p
        → IsShown t level result 3 p 4 }
{
    let around = near.around;
    [
        level_or_void(around[5]),
        level_or_void(around[6]),
        level_or_void(around[7]),
        level_or_void(around[4]),
        near.height,
        level_or_void(around[0]),
        level_or_void(around[3]),
        level_or_void(around[2]),
        level_or_void(around[1]),
    ]
}

fn level_or_void(level: Option<i16>) -> i16
    ensures { MatchOption level (result ≡ void) (λ v. result ≡ v) }
{
    match level {
        Some(level) => level,
        None => VOID,
    }
}
