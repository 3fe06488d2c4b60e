//! The height of a point by the seam rule.
ghost use Rattle.std.specs.Prelude.{◌≡◌, IfOk};
ghost use Rattle.lattice.specs.Height.{height_of};
ghost use Rattle.catalogue.specs.Readers.{OnlyReads};
ghost use Rattle.catalogue.specs.SeamRule.{sample_in};

use crate::Samples;
use lattice::{Corner, Height, Point, Refusal, VOID, holders, index_in};

/// The height of the point: the first sample that isn't void among those of the present tiles with the point, in the
/// order of tiles. Tiles that share an edge may disagree there.
pub fn height<S: Samples>(samples: &mut S, point: Point) -> Result<Height, Refusal>
    ensures value { S.is_honest samples.new
        → IfOk result (λ h. h ≡ height_of (S.mosaic samples.old) point) }
    ensures reads { OnlyReads S.Samples samples.old samples.new result }
{
    let mut found = Height::Outside;
    let corners = holders(samples.side(), point);
    for corner in corners.as_slice() {
        match sample_at(samples, *corner, point)? {
            None => {}
            Some(VOID) => found = Height::Void,
            Some(metres) => return Ok(Height::At(metres)),
        }
    }
    Ok(found)
}

// The sample of the point in the corner's tile, if the tile is present and has the point.
pub(crate) fn sample_at<S: Samples>(
    samples: &mut S,
    corner: Corner,
    point: Point,
) -> Result<Option<i16>, Refusal>
    ensures value { S.is_honest samples.new
        → IfOk result (λ found. found ≡ sample_in (S.mosaic samples.old) corner point) }
    ensures reads { OnlyReads S.Samples samples.old samples.new result }
{
    if !samples.present(corner) {
        return Ok(None);
    }
    let Some(index) = index_in(samples.side(), corner, point) else {
        return Ok(None);
    };
    let sample = samples.sample(corner, index)?;
    Ok(Some(sample))
}
