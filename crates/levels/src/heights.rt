//! Compares heights with stored levels.
ghost use Rattle.std.specs.Prelude.{◌≡◌, IfOk};
ghost use Rattle.std.specs.Ordering.{int_eq};
ghost use Rattle.lattice.specs.Height.{height_of};
ghost use Rattle.lattice.specs.Ground.{metres as metres_of};
ghost use Rattle.catalogue.specs.Readers.{OnlyReads};

use catalogue::{Samples, height};
use lattice::{Height, Point, Refusal, VOID};

/// Whether `metres` is the point's height, or the void value for a point without a height. It reads only this point.
pub(crate) fn is_height<S: Samples>(
    samples: &mut S,
    point: Point,
    metres: i16,
) -> Result<bool, Refusal>
    ensures value { S.is_honest samples.new
        → IfOk result (λ answer. answer ≡ int_eq metres (metres_of (height_of (S.mosaic samples.old) point))) }
    ensures reads { OnlyReads S.Samples samples.old samples.new result }
{
    match height(samples, point)? {
        Height::At(found) => Ok(metres == found),
        Height::Outside | Height::Void => Ok(metres == VOID),
    }
}
