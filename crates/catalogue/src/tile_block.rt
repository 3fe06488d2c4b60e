//! The heights of a tile's block, by the seam rule.
ghost use Rattle.std.specs.Prelude.{◌≡◌, ◌<◌, ◌*◌, ◌-◌, ◌⊎◌, IfOk, IfErr, OnOk, length, vec_len, slice_index_or, slice_set, Contains, All};
ghost use Rattle.lattice.specs.Block.{AreHeightsOf};
ghost use Rattle.lattice.specs.Ground.{metres as metres_of};
ghost use Rattle.lattice.specs.Height.{height_of};
ghost use Rattle.lattice.specs.Lattice.{point_of};
ghost use Rattle.lattice.specs.Mosaic.{IsSample, void};
ghost use Rattle.lattice.specs.declared.refusal.Refusal.TheVariants.{NoMemory};
ghost use Rattle.catalogue.specs.Readers.{OnlyReads, reads_of};
ghost use Rattle.catalogue.specs.Reading.{AreSamplesOf, MayRefuse};
ghost use Rattle.catalogue.specs.Elsewhere.{IsOwnOrHeight, is_held_elsewhere as held_elsewhere};

use crate::Samples;
use crate::seam_rule::height;
use lattice::{
    Corner, Height, Point, Refusal, VOID, holders, point_at, rim_index, samples_in_range,
};
use std::alloc::Global;

/// The heights of the points of the corner's tile by the seam rule, by index; void for a point without a height.
///
/// It reads the tile's samples in one read, and further samples only for rim points that another tile has, too. Refused
/// with NoMemory, or as a read of samples is.
pub fn block_heights<S: Samples>(
    alloc: Global,
    samples: &mut S,
    corner: Corner,
) -> Result<Vec<i16>, Refusal>
    requires { Contains (S.corners samples.old) corner }
    ensures heights { S.is_honest samples.new
        → IfOk result (λ heights. AreHeightsOf (S.mosaic samples.old) corner heights.items) }
    ensures whole { IfOk result (λ heights. vec_len heights ≡ S.side_of samples.old * S.side_of samples.old) }
    ensures samples { IfOk result (λ heights. All IsSample heights.items) }
    ensures refusal { IfErr result (λ r. (r ≡ NoMemory)
        ⊎ MayRefuse (S.failures samples.old) (S.failures samples.new) r) }
    ensures reads { OnlyReads S.Samples samples.old samples.new (reads_of result) }
{
    let mut heights = vec![in alloc; 0; samples.side().area() as usize]?;
    samples.read_samples(corner, 0, heights.as_mut_slice())?;
    put_rim(samples, corner, heights.as_mut_slice())?;
    samples_in_range(&heights);
    Ok(heights)
}

// Replaces the samples of the rim by the heights by the seam rule. No other tile has a point inside.
fn put_rim<S: Samples>(samples: &mut S, corner: Corner, heights: &mut [i16]) -> Result<(), Refusal>
    requires present { Contains (S.corners samples.old) corner }
    requires whole { length heights.old ≡ S.side_of samples.old * S.side_of samples.old }
    ensures heights { S.is_honest samples.new
        → AreSamplesOf (S.mosaic samples.old) corner 0 heights.old
        → OnOk result (AreHeightsOf (S.mosaic samples.old) corner heights.new) }
    ensures reads { OnlyReads S.Samples samples.old samples.new result }
{
    let side = samples.side();
    for number in 0..side.rim() {
        put_at(samples, corner, rim_index(side, number), heights)?;
    }
    Ok(())
}

// Writes the height of the sample's point by the seam rule at the index. If no other tile has the point, the sample may
// stay.
fn put_at<S: Samples>(
    samples: &mut S,
    corner: Corner,
    index: u32,
    heights: &mut [i16],
) -> Result<(), Refusal>
    requires present { Contains (S.corners samples.old) corner }
    requires index { index < S.side_of samples.old * S.side_of samples.old }
    requires whole { length heights.old ≡ S.side_of samples.old * S.side_of samples.old }
    ensures height { S.is_honest samples.new
        → IsOwnOrHeight (S.mosaic samples.old) corner index (slice_index_or heights.old index void)
        → OnOk result (heights.new ≡ slice_set heights.old index (metres_of (height_of (S.mosaic samples.old) (point_of (S.side_of samples.old) corner index)))) }
    ensures reads { OnlyReads S.Samples samples.old samples.new result }
{
    let point = point_at(samples.side(), corner, index);
    if is_held_elsewhere(samples, corner, point) {
        let height = height(samples, point)?;
        heights[index as usize] = metres(height);
    }
    Ok(())
}

// Whether a present tile other than the corner's has the point.
fn is_held_elsewhere<S: Samples>(samples: &S, corner: Corner, point: Point) -> bool
    ensures { S.is_honest samples.now
        → result ≡ held_elsewhere (S.mosaic samples.now) corner point }
{
    let corners = holders(samples.side(), point);
    for holder in corners.as_slice() {
        if *holder != corner && samples.present(*holder) {
            return true;
        }
    }
    false
}

// The height in metres, or the void sample.
fn metres(height: Height) -> i16
    ensures { result ≡ metres_of height }
{
    match height {
        Height::At(metres) => metres,
        _ => VOID,
    }
}
