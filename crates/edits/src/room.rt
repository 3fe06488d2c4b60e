//! Whether the mosaic has room for another tile.
ghost use Rattle.std.specs.Prelude.{◌<◌, ◌≤◌, IsTrue, IsFalse, length};

use catalogue::Samples;

/// Whether at least `capacity` tiles are present.
pub(crate) fn is_full<S: Samples>(samples: &S, capacity: u32) -> bool
    ensures full { IsTrue result → capacity ≤ length (S.corners samples.now) }
    ensures room { IsFalse result → length (S.corners samples.now) < capacity }
{
    samples.count() >= capacity as usize
}
