//! Points at which tiles disagree.
ghost use Rattle.std.specs.Prelude.{◌≡◌, ◌+◌, ◌*◌, ◌<◌, ◌≤◌, negsuc, pos, ◌+ℤ◌, IfOk};
ghost use Rattle.lattice.specs.Lattice.{point_of};
ghost use Rattle.lattice.specs.Height.{disagrees as differing};
ghost use Rattle.catalogue.specs.Readers.{OnlyReads};
ghost use Rattle.catalogue.specs.Seams.{IsSeamCount};
ghost use Rattle.catalogue.specs.SeamCounting.{is_first, present_holders, is_own_seam as own_seam, seams_of, seams_before};

use crate::Samples;
use crate::listing::present_at;
use crate::seam_rule::sample_at;
use lattice::{Corner, Point, Refusal, holders, point_at, rim_index};

/// The number of points at which tiles disagree: two present tiles have the point, with different samples. A void
/// counts as a sample, and each point counts once.
pub fn seams<S: Samples>(samples: &mut S) -> Result<u64, Refusal>
    ensures value { S.is_honest samples.new
        → IfOk result (λ count. IsSeamCount (S.mosaic samples.old) count) }
    ensures reads { OnlyReads S.Samples samples.old samples.new result }
{
    let mut count = 0;
    for lat in -90..90 {
        count += seams_in_row(samples, lat)?;
    }
    Ok(count)
}

// The number of disagreeing points whose first present tile has this latitude.
fn seams_in_row<S: Samples>(samples: &mut S, lat: i16) -> Result<u64, Refusal>
    ensures value { S.is_honest samples.new
        → IfOk result (λ count. seams_before (S.mosaic samples.old) (lat +ℤ pos 1) (negsuc 179)
        ≡ seams_before (S.mosaic samples.old) lat (negsuc 179) + count) }
    ensures few { IfOk result (λ count. count ≤ 5184000) }
    ensures reads { OnlyReads S.Samples samples.old samples.new result }
{
    let mut count = 0;
    for lon in -180..180 {
        count += seams_at(samples, lat, lon)?;
    }
    Ok(count)
}

// The number of disagreeing points whose first present tile is at this latitude and longitude.
fn seams_at<S: Samples>(samples: &mut S, lat: i16, lon: i16) -> Result<u64, Refusal>
    ensures value { S.is_honest samples.new
        → IfOk result (λ count. seams_before (S.mosaic samples.old) lat (lon +ℤ pos 1)
        ≡ seams_before (S.mosaic samples.old) lat lon + count) }
    ensures few { IfOk result (λ count. count ≤ 14400) }
    ensures reads { OnlyReads S.Samples samples.old samples.new result }
{
    match present_at(samples, lat, lon) {
        Some(corner) => seams_in_tile(samples, corner),
        None => Ok(0),
    }
}

// The number of disagreeing points whose first present tile is the corner's.
fn seams_in_tile<S: Samples>(samples: &mut S, corner: Corner) -> Result<u64, Refusal>
    ensures value { S.is_honest samples.new
        → IfOk result (λ count. count ≡ seams_of (S.mosaic samples.old) corner) }
    ensures few { IfOk result (λ count. count ≤ 14400) }
    ensures reads { OnlyReads S.Samples samples.old samples.new result }
{
    let mut count = 0;
    let side = samples.side();
    // Only one tile has a point off the rim.
    for number in 0..side.rim() {
        if is_own_seam(samples, corner, rim_index(side, number))? {
            count += 1;
        }
    }
    Ok(count)
}

// Whether tiles disagree at this sample's point, and the corner's tile is the first present one that has it.
fn is_own_seam<S: Samples>(samples: &mut S, corner: Corner, index: u32) -> Result<bool, Refusal>
    requires { index < S.side_of samples.old * S.side_of samples.old }
    ensures value { S.is_honest samples.new
        → IfOk result (λ answer. answer ≡ own_seam (S.mosaic samples.old) corner (point_of (S.side_of samples.old) corner index)) }
    ensures reads { OnlyReads S.Samples samples.old samples.new result }
{
    let point = point_at(samples.side(), corner, index);
    if !is_first_holder(samples, corner, point) {
        return Ok(false);
    }
    disagrees(samples, point)
}

// Whether the corner's tile is the first present one with the point.
fn is_first_holder<S: Samples>(samples: &S, corner: Corner, point: Point) -> bool
    ensures { S.is_honest samples.now
        → result ≡ is_first corner (present_holders (S.mosaic samples.now) point) }
{
    let corners = holders(samples.side(), point);
    for holder in corners.as_slice() {
        if samples.present(*holder) {
            return *holder == corner;
        }
    }
    false
}

// Whether two present tiles have the point, with different samples.
fn disagrees<S: Samples>(samples: &mut S, point: Point) -> Result<bool, Refusal>
    ensures value { S.is_honest samples.new
        → IfOk result (λ answer. answer ≡ differing (S.mosaic samples.old) point) }
    ensures reads { OnlyReads S.Samples samples.old samples.new result }
{
    let corners = holders(samples.side(), point);
    let mut first: Option<i16> = None;
    for corner in corners.as_slice() {
        if let Some(sample) = sample_at(samples, *corner, point)? {
            match first {
                None => first = Some(sample),
                Some(other) if other != sample => return Ok(true),
                Some(_) => {}
            }
        }
    }
    Ok(false)
}
