//! Which tiles a change of the points in a box reaches.
ghost use Rattle.std.specs.Prelude.{◌≡◌, ◌&&◌, ◌+ℤ◌, ◌-ℤ◌, pos, int_le};
ghost use Rattle.levels.specs.Reaching.{is_reached, reaches};

use lattice::{Corner, Point, Side, point_at};

/// Whether tile number t has a point of the box, ends included, or a point next to one. True also if there is no such tile.
///
/// A tile's block consists of the heights of its own points and the sinks among them. Whether a rim point is an outlet of the
/// mosaic also depends on the points around the tile. So the box reaches one step further.
pub(crate) fn is_reached(side: Side, corners: &[Corner], from: Point, to: Point, t: usize) -> bool
    ensures { result ≡ is_reached side corners.now from to t }
{
    match corners.get(t) {
        Some(corner) => reaches(side, *corner, from, to),
        None => true,
    }
}

// Whether the corner's tile has a point of the box, or a point next to one.
fn reaches(side: Side, corner: Corner, from: Point, to: Point) -> bool
    ensures { result ≡ reaches side corner from to }
{
    let far = side.edge() + 1;
    let north_west = point_at(side, corner, 0);
    meets(north_west.y, far, 1, from.y, to.y) && meets(north_west.x, 1, far, from.x, to.x)
}

// Whether one of the values from `from` to `to` lies at most `before` below this value, or at most `after` above it.
fn meets(value: i32, before: u32, after: u32, from: i32, to: i32) -> bool
    ensures { result ≡ (int_le (value -ℤ pos before) to && int_le from (value +ℤ pos after)) }
{
    let value = i64::from(value);
    value - i64::from(before) <= i64::from(to) && i64::from(from) <= value + i64::from(after)
}
