//! Which tiles are neighbours.
ghost use Rattle.std.specs.Prelude.{◌≡◌};
ghost use Rattle.edits.specs.Touched.{are_neighbours};

use lattice::Corner;

/// Whether the corners are at most one degree of latitude and one of longitude apart: the same, or neighbours.
pub fn are_neighbours(a: Corner, b: Corner) -> bool
    ensures { result ≡ are_neighbours a b }
{
    a.lat.abs_diff(b.lat) < 2 && a.lon.abs_diff(b.lon) < 2
}
