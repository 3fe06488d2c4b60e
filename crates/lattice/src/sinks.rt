//! Which points can be sinks, and the sinks of a tile.
ghost use Rattle.std.specs.Prelude.{◌≡◌, ◌≤◌, ◌↔◌, IsTrue, length};
ghost use Rattle.lattice.specs.Limits.{most_sinks};
ghost use Rattle.lattice.specs.SinkIndices.{sinks_in as indices_in};
ghost use Rattle.lattice.specs.Mosaic.{IsHeld};

use crate::{Corner, MOST_SINKS, Point, Side, holders, index_in};
use arrayvec::ArrayVec;

/// Whether the tile of some corner, present or not, has the point: only such a point can be declared a sink.
pub fn is_held(side: Side, point: Point) -> bool
    ensures { IsTrue result ↔ IsHeld side point }
{
    // Reading the side shows the prover that it is in range.
    let _edge = side.edge();
    !holders(side, point).is_empty()
}

/// The indices of those sinks that are in the corner's tile, in the order of the sinks.
pub fn sinks_in(side: Side, corner: Corner, sinks: &[Point]) -> ArrayVec<u32, MOST_SINKS>
    requires { length sinks.now ≤ most_sinks }
    ensures { result.items ≡ indices_in side corner sinks.now }
{
    // Reading the side and the degrees shows the prover that they are in range.
    let _edge = side.edge();
    let _lat = corner.lat;
    let mut found = ArrayVec::new();
    for sink in sinks {
        if let Some(index) = index_in(side, corner, *sink) {
            found.push(index);
        }
    }
    found
}
