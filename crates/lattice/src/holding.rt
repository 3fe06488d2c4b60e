//! Which tiles have a point, and its index in each.
ghost use Rattle.std.specs.Prelude.{◌≡◌, ◌<◌, ◌≤◌, ◌*◌, ◌-◌, ◌↔◌, IsFalse, IsSome, IfSome, MatchOption, SomeIff, length, ℤ, pos, negsuc, ◌+ℤ◌, ◌*ℤ◌, ◌≤ℤ◌, ◌<ℤ◌, Contains};
ghost use Rattle.std.specs.List.{AllAdjacentBelow};
ghost use Rattle.lattice.specs.Corners.{Corner};
ghost use Rattle.lattice.specs.Lattice.{Holds, IsIndexOf, IsBefore, point_of, is_along};

use crate::{Corner, Point, Side};
use arrayvec::ArrayVec;

// Whole degrees north and east, perhaps beyond any corner.
#[derive(Clone, Copy, Default)]
struct Degrees {
    lat: i64,
    lon: i64,
}

/// The corners whose tile has the point, in the order of tiles: one for a point inside a tile, two on an edge that two
/// tiles share, four where four tiles meet, and fewer at the poles and at 180 degrees, where tiles end.
pub fn holders(side: Side, point: Point) -> ArrayVec<Corner, 4>
    ensures exactly { (c : Corner) → Contains result.items c ↔ Holds side c point }
    ensures in_order { AllAdjacentBelow IsBefore result.items (length result.items) }
{
    let edge = side.edge();
    let north = degrees_below(edge, point.y);
    let east = degrees_below(edge, point.x);
    let south = north - 1;
    let west = east - 1;
    let around = [
        Degrees {
            lat: south,
            lon: west,
        },
        Degrees {
            lat: south,
            lon: east,
        },
        Degrees {
            lat: north,
            lon: west,
        },
        Degrees {
            lat: north,
            lon: east,
        },
    ];
    let mut found = ArrayVec::new();
    for degrees in around {
        if let Some(corner) = holder_at(side, degrees, point) {
            found.push(corner);
        }
    }
    found
}

/// The point's index in the corner's tile, if the tile has it: its row from the north times the side, plus its column
/// from the west.
pub fn index_in(side: Side, corner: Corner, point: Point) -> Option<u32>
    ensures held { IsSome result ↔ Holds side corner point }
    ensures index { IfSome result (λ e. IsIndexOf side corner point e) }
{
    let edge = side.edge();
    let north = steps_along(edge, corner.lat, point.y)?;
    let east = steps_along(edge, corner.lon, point.x)?;
    Some((edge - north) * side.samples() + east)
}

/// The point of the sample with this index in the corner's tile.
pub fn point_at(side: Side, corner: Corner, index: u32) -> Point
    requires { index < side * side }
    ensures value { result ≡ point_of side corner index }
    ensures index { IsIndexOf side corner result index }
{
    let edge = side.edge();
    let row = index / side.samples();
    let column = index % side.samples();
    Point {
        y: value_along(edge, corner.lat, edge - row),
        x: value_along(edge, corner.lon, column),
    }
}

ghost use Rattle.lattice.specs.Degrees.{corner_at};

// The corner at these degrees, if there is one and its tile has the point.
fn holder_at(side: Side, degrees: Degrees, point: Point) -> Option<Corner>
    ensures { SomeIff result (Holds side (corner_at degrees) point) (corner_at degrees) }
{
    let corner = Corner::at(degrees.lat, degrees.lon)?;
    index_in(side, corner, point)?;
    Some(corner)
}

// The greatest whole degree whose samples are at this value or below it.
fn degrees_below(edge: u32, value: i32) -> i64
    requires edge { 2 ≤ edge }
    ensures from { (result *ℤ pos edge) ≤ℤ value }
    ensures to { value <ℤ (result *ℤ pos edge +ℤ pos edge) }
    ensures low { negsuc 2147483647 ≤ℤ result }
    ensures high { result ≤ℤ pos 2147483647 }
{
    i64::from(value).div_euclid(i64::from(edge))
}

// The number of samples from a tile's first edge north (or east) to the value, if the value is within the tile.
fn steps_along(edge: u32, corner: i16, value: i32) -> Option<u32>
    requires edge { edge ≤ 3600 }
    ensures { MatchOption result (IsFalse (is_along (pos edge) corner value)) (λ k. (k ≤ edge)
        × (value ≡ corner *ℤ pos edge +ℤ pos k)) }
{
    let steps = i64::from(value) - first_edge(edge, corner);
    if 0 <= steps && steps <= i64::from(edge) {
        Some(steps as u32)
    } else {
        None
    }
}

// The value this many samples north (or east) of a tile's first edge.
fn value_along(edge: u32, corner: i16, steps: u32) -> i32
    requires edge { edge ≤ 3600 }
    requires steps { steps ≤ edge }
    ensures { result ≡ corner *ℤ pos edge +ℤ pos steps }
{
    (first_edge(edge, corner) + i64::from(steps)) as i32
}

// The south (or west) edge of a tile.
fn first_edge(edge: u32, corner: i16) -> i64
    requires edge { edge ≤ 3600 }
    ensures value { result ≡ corner *ℤ pos edge }
    ensures low { negsuc 199999999 ≤ℤ result }
    ensures high { result ≤ℤ pos 200000000 }
{
    i64::from(corner) * i64::from(edge)
}
