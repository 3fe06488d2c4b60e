//! Which sides stores allow.
ghost use Rattle.std.specs.Prelude.{◌↔◌, IsTrue};
ghost use Rattle.lattice.specs.Limits.{IsSide};

use lattice::LARGEST_SIDE;

/// Whether stores allow tiles with this many samples along an edge: 3 to 3601.
pub fn side_ok(n: u32) -> bool
    ensures { IsTrue result ↔ IsSide n }
{
    3 <= n && n <= LARGEST_SIDE
}
