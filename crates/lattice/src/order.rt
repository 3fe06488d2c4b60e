//! The orders of tiles and of points.
ghost use Rattle.std.specs.Prelude.{◌≡◌};
ghost use Rattle.lattice.specs.Corners.{is_before};
ghost use Rattle.lattice.specs.Points.{is_point_before};

use crate::{Corner, Point};

/// Whether the first corner is before the second in the order of tiles: rising latitude, then longitude.
pub fn is_before(first: Corner, second: Corner) -> bool
    ensures { result ≡ is_before first second }
{
    first < second
}

/// Whether the first point is before the second: rising y, then x.
pub fn is_point_before(first: Point, second: Point) -> bool
    ensures { result ≡ is_point_before first second }
{
    first < second
}
