//! The sizes of planes, in pages.
ghost use Rattle.std.specs.Prelude.{◌≡◌};
ghost use Rattle.page_codec.specs.Sizes.{pages_of, AreLeastPages};

use crate::PAGE_BYTES;
use lattice::Side;

// The length of a point in a plane, in bytes.
const POINT_BYTES: u32 = 2;

/// The number of pages of a tile's plane, at two bytes a point.
pub fn pages_in_plane(side: Side) -> u32
    ensures value { result ≡ pages_of side }
    ensures least { AreLeastPages side result }
{
    (POINT_BYTES * side.area()).div_ceil(PAGE_BYTES as u32)
}
