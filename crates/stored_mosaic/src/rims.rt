//! Which points on the rims of tiles are void: their heights may come from other tiles, too.
ghost use Rattle.std.specs.Prelude.{◌≡◌, ◌*◌, ◌-◌, ◌<◌, ◌&&◌, IsTrue, IfOk, IfErr, All, Contains, map, vec_len};
ghost use Rattle.lattice.specs.Block.{is_rim};
ghost use Rattle.catalogue.specs.Endings.{ends_any};
ghost use Rattle.catalogue.specs.Readers.{OnlyReads, reads_of};
ghost use Rattle.edits.specs.Effect.{is_in_box, is_void_at};
ghost use Rattle.stored_mosaic.specs.Underway.{AreRimVoids, is_void_by_rim};

use crate::voids::{Patch, is_in_box};
use catalogue::{Samples, height};
use lattice::{Corner, Height, Point, Refusal, Side, point_at, rim_index, rim_number};
use std::alloc::Global;

/// The points of a box on the rim of the corner's tile that are void by the seam rule, by rim number.
#[derive(Drop)]
pub(crate) struct RimVoids {
    pub corner: Corner,
    pub(crate) voids: Vec<bool>,
}

// The void points of the box on the rims of the tiles, tile after tile.
pub(crate) fn read_rims<S: Samples>(
    alloc: Global,
    samples: &mut S,
    tiles: &[Corner],
    patch: Patch,
) -> Result<Vec<RimVoids>, Refusal>
    ensures voids { S.is_honest samples.new
        → IfOk result (λ rims. All (AreRimVoids (S.mosaic samples.old) patch) rims.items) }
    ensures whole { IfOk result (λ rims. All (λ rim. vec_len rim.voids ≡ 4 * (S.side_of samples.old - 1)) rims.items) }
    ensures corners { IfOk result (λ rims. map (λ rim. rim.corner) rims.items ≡ tiles.now) }
    ensures causes { IfErr result (λ r. IsTrue (ends_any r)) }
    ensures reads { OnlyReads S.Samples samples.old samples.new (reads_of result) }
{
    let mut rims = Vec::new(alloc);
    for corner in tiles {
        let rim = read_rim(alloc, samples, *corner, patch)?;
        match rims.push(rim) {
            Ok(()) => (),
            Err(_) => return Err(Refusal::NoMemory),
        }
    }
    Ok(rims)
}

// The void points of the box on the rim of the tile.
fn read_rim<S: Samples>(
    alloc: Global,
    samples: &mut S,
    corner: Corner,
    patch: Patch,
) -> Result<RimVoids, Refusal>
    ensures voids { S.is_honest samples.new
        → IfOk result (AreRimVoids (S.mosaic samples.old) patch) }
    ensures whole { IfOk result (λ rim. vec_len rim.voids ≡ 4 * (S.side_of samples.old - 1)) }
    ensures corner { IfOk result (λ rim. rim.corner ≡ corner) }
    ensures causes { IfErr result (λ r. IsTrue (ends_any r)) }
    ensures reads { OnlyReads S.Samples samples.old samples.new (reads_of result) }
{
    let side = samples.side();
    let mut voids = vec![in alloc; false; side.rim() as usize]?;
    for number in 0..side.rim() {
        let point = point_at(side, corner, rim_index(side, number));
        let is_void = is_void_in_box(samples, patch, point)?;
        voids[number as usize] = is_void;
    }
    Ok(RimVoids { corner, voids })
}

// Whether the point is in the box and void by the seam rule. For a point outside the box nothing is read.
fn is_void_in_box<S: Samples>(samples: &mut S, patch: Patch, point: Point) -> Result<bool, Refusal>
    ensures value { S.is_honest samples.new
        → IfOk result (λ b. b ≡ (is_in_box patch.from patch.to point
        && is_void_at (S.mosaic samples.old) point)) }
    ensures reads { OnlyReads S.Samples samples.old samples.new result }
{
    if !is_in_box(patch, point) {
        return Ok(false);
    }
    is_void_at(samples, point)
}

// Whether the point's height by the seam rule is void.
fn is_void_at<S: Samples>(samples: &mut S, point: Point) -> Result<bool, Refusal>
    ensures value { S.is_honest samples.new
        → IfOk result (λ b. b ≡ is_void_at (S.mosaic samples.old) point) }
    ensures reads { OnlyReads S.Samples samples.old samples.new result }
{
    match height(samples, point)? {
        Height::Void => Ok(true),
        Height::Outside | Height::At(_) => Ok(false),
    }
}

impl RimVoids {
    // Whether the point of a void sample is void by the seam rule. Inside a tile it is; for a point on the rim, the
    // list says so.
    pub(crate) fn is_void(&self, side: Side, index: u32) -> bool
        requires index { index < side * side }
        requires whole { vec_len self.now.voids ≡ 4 * (side - 1) }
        ensures { result ≡ is_void_by_rim side self.now index }
    {
        !is_on_rim(side, index) || self.voids[rim_number(side, index) as usize]
    }
}

// Whether the sample is in the first or last row or column.
fn is_on_rim(side: Side, index: u32) -> bool
    requires { index < side * side }
    ensures { result ≡ is_rim side index }
{
    let n = side.samples();
    let row = index / n;
    let column = index % n;
    row == 0 || row + 1 == n || column == 0 || column + 1 == n
}
