//! Adjacent points, and outlets.
ghost use Rattle.std.specs.Prelude.{◌≡◌, false, Contains, IfOk, IfSome, IfNone};
ghost use Rattle.lattice.specs.Ground.{is_ground as ground, is_near as near, share_tile as shared, is_adjacent, degree_of, is_outlet, is_sink as is_declared};
ghost use Rattle.lattice.specs.Lattice.{Holds};
ghost use Rattle.catalogue.specs.Readers.{OnlyReads};

use crate::{Samples, height};
use lattice::{Corner, Height, Point, Refusal, holders, index_in, steps};

/// Whether the two points are adjacent: both have a height, they are different and at most one row and one column
/// apart, and one present tile has both.
pub fn adjacent<S: Samples>(samples: &mut S, p: Point, q: Point) -> Result<bool, Refusal>
    ensures value { S.is_honest samples.new
        → IfOk result (λ answer. answer ≡ is_adjacent (S.mosaic samples.old) p q) }
    ensures reads { OnlyReads S.Samples samples.old samples.new result }
{
    if p == q || !is_near(p, q) || !share_tile(samples, p, q) {
        return Ok(false);
    }
    if !is_ground(samples, p)? {
        return Ok(false);
    }
    is_ground(samples, q)
}

/// The number of points adjacent to the point, at most eight.
pub fn degree<S: Samples>(samples: &mut S, point: Point) -> Result<u32, Refusal>
    ensures value { S.is_honest samples.new
        → IfOk result (λ count. count ≡ degree_of (S.mosaic samples.old) point) }
    ensures reads { OnlyReads S.Samples samples.old samples.new result }
{
    let reach = steps(point);
    let mut count = 0;
    for step in reach.as_slice() {
        if adjacent(samples, point, step.to)? {
            count += 1;
        }
    }
    Ok(count)
}

/// Whether water can leave at the point: it has a height, and is declared a sink or has fewer than eight adjacent points.
pub fn outlet<S: Samples>(samples: &mut S, point: Point) -> Result<bool, Refusal>
    ensures value { S.is_honest samples.new
        → IfOk result (λ answer. answer ≡ is_outlet (S.mosaic samples.old) point) }
    ensures reads { OnlyReads S.Samples samples.old samples.new result }
{
    if !is_ground(samples, point)? {
        return Ok(false);
    }
    if is_sink(samples, point) {
        return Ok(true);
    }
    let count = degree(samples, point)?;
    Ok(count < 8)
}

/// Whether the point is declared a sink.
pub fn is_sink<S: Samples>(samples: &S, point: Point) -> bool
    ensures { S.is_honest samples.now → result ≡ is_declared (S.mosaic samples.now) point }
{
    samples.sinks().contains(&point)
}

/// Whether the point has a height. Refused as a read is.
pub fn is_ground<S: Samples>(samples: &mut S, point: Point) -> Result<bool, Refusal>
    ensures value { S.is_honest samples.new
        → IfOk result (λ answer. answer ≡ ground (S.mosaic samples.old) point) }
    ensures reads { OnlyReads S.Samples samples.old samples.new result }
{
    let height = height(samples, point)?;
    Ok(matches!(height, Height::At(_)))
}

// Whether the points are at most one row and one column apart.
fn is_near(p: Point, q: Point) -> bool
    ensures { result ≡ near p q }
{
    p.y.abs_diff(q.y) < 2 && p.x.abs_diff(q.x) < 2
}

/// Whether one present tile has both points.
pub fn share_tile<S: Samples>(samples: &S, p: Point, q: Point) -> bool
    ensures { S.is_honest samples.now → result ≡ shared (S.mosaic samples.now) p q }
{
    tile_of_both(samples, p, q).is_some()
}

/// A present tile with both points, if there is one.
pub fn tile_of_both<S: Samples>(samples: &S, p: Point, q: Point) -> Option<Corner>
    ensures some { IfSome result (λ c. Contains (S.corners samples.now) c
        × (Holds (S.side_of samples.now) c p × Holds (S.side_of samples.now) c q)) }
    ensures none { S.is_honest samples.now
        → IfNone result (shared (S.mosaic samples.now) p q ≡ false) }
{
    let side = samples.side();
    let corners = holders(side, p);
    for corner in corners.as_slice() {
        if samples.present(*corner) && index_in(side, *corner, q).is_some() {
            return Some(*corner);
        }
    }
    None
}
