//! The tiles that a patch changes: those with a void point in its box.
ghost use Rattle.std.specs.Prelude.{◌≡◌, ◌≢◌, ◌≤◌, ◌+◌, ◌*◌, ◌<◌, ℕ, Ok, Err, Contains, IsTrue, IsFalse, IfOk, IfErr, OnOk, length};
ghost use Rattle.std.specs.List.{AllPairs};
ghost use Rattle.lattice.specs.Corners.{Corner, same_corner};
ghost use Rattle.lattice.specs.Lattice.{Holds};
ghost use Rattle.lattice.specs.Mosaic.{Tile};
ghost use Rattle.lattice.specs.declared.point.Point.{Point};
ghost use Rattle.lattice.specs.declared.refusal.Refusal.TheVariants.{NoMemory};
ghost use Rattle.arrayvec.specs.ArrayVec.{array_vec_len};
ghost use Rattle.catalogue.specs.Endings.{ends_any};
ghost use Rattle.catalogue.specs.Readers.{OnlyReads, reads_of};
ghost use Rattle.catalogue.specs.Reading.{AreSamplesOf, IsSampleOf};
ghost use Rattle.edits.specs.Edits.{ArePresent, AreTiles, AreVoidTiles};
ghost use Rattle.edits.specs.Effect.{effect, has_void_from, is_box, is_height, is_in_box, is_void_at, patched};
ghost use Rattle.edits.specs.Plans.{is_own, may_end};
ghost use Rattle.edits.specs.TileRows.{HasVoid, is_void_at_index};
ghost use Rattle.edits.specs.declared.command.Command.TheVariants.{Patch};

use crate::boxes::BoxPoints;
use crate::point_edit::{HIGHEST, LOWEST};
use crate::steps::steps_within;
use arrayvec::ArrayVec;
use catalogue::{Samples, height};
use lattice::{
    Corner, Height, LARGEST_SIDE, Point, Refusal, Side, VOID, holders, point_at, samples_in_range,
};

/// The present tiles with a void point in the box of a patch.
pub(crate) fn tiles_to_patch<S: Samples>(
    samples: &mut S,
    from: Point,
    to: Point,
    height: i32,
) -> Result<ArrayVec<Corner, 16>, Refusal>
    ensures made { (capacity : ℕ) → S.is_honest samples.new
        → OnOk result (effect capacity (S.mosaic samples.old) (Patch from to height)
        ≡ Ok (patched from to height (S.mosaic samples.old))) }
    ensures refused { (capacity : ℕ) → S.is_honest samples.new
        → IfErr result (λ r. IsTrue (is_own (Patch from to height) r)
        → effect capacity (S.mosaic samples.old) (Patch from to height) ≡ Err r) }
    ensures causes { IfErr result (λ r. IsTrue (may_end (Patch from to height) r)) }
    ensures memory { IfErr result (λ r. r ≢ NoMemory) }
    ensures height { OnOk result (IsTrue (is_height height)) }
    ensures size { OnOk result (IsTrue (is_box (S.side_of samples.old) from to)) }
    ensures tiles { IfOk result (λ tiles. AreTiles (S.corners samples.old) tiles.items) }
    ensures voids { S.is_honest samples.new
        → IfOk result (λ tiles. AreVoidTiles (S.mosaic samples.old) from to tiles.items) }
    ensures reads { OnlyReads S.Samples samples.old samples.new (reads_of result) }
{
    if height < LOWEST || HIGHEST < height {
        return Err(Refusal::BadHeight);
    }
    let Some(_points) = BoxPoints::new(samples.side(), from, to) else {
        return Err(Refusal::BadBox);
    };
    let tiles = tiles_of_box(samples, from, to)?;
    if tiles.is_empty() {
        return Err(Refusal::NothingVoid);
    }
    Ok(tiles)
}

// The present tiles with a void point in the box.
fn tiles_of_box<S: Samples>(
    samples: &mut S,
    from: Point,
    to: Point,
) -> Result<ArrayVec<Corner, 16>, Refusal>
    requires { IsTrue (is_box (S.side_of samples.old) from to) }
    ensures tiles { IfOk result (λ tiles. ArePresent (S.corners samples.old) tiles.items) }
    ensures voids { S.is_honest samples.new
        → IfOk result (λ tiles. AreVoidTiles (S.mosaic samples.old) from to tiles.items) }
    ensures causes { IfErr result (λ r. IsTrue (ends_any r)) }
    ensures memory { IfErr result (λ r. r ≢ NoMemory) }
    ensures reads { OnlyReads S.Samples samples.old samples.new (reads_of result) }
{
    let mut tiles = ArrayVec::new();
    let corners = holders_of_box(samples.side(), from, to);
    for corner in corners.as_slice() {
        if samples.present(*corner) && has_void(samples, *corner, from, to)? {
            tiles.push(*corner);
        }
    }
    Ok(tiles)
}

// All tiles with a point of the box, each once. The box is no wider than a tile, so each of these tiles has one of its
// corners.
fn holders_of_box(side: Side, from: Point, to: Point) -> ArrayVec<Corner, 16>
    requires { IsTrue (is_box side from to) }
    ensures all { (c : Corner) (p : Point) → IsTrue (is_in_box from to p) → Holds side c p
        → Contains result.items c }
    ensures once { AllPairs (λ c d. IsFalse (same_corner c d)) result.items }
{
    // This call shows the prover that a side is at least 3.
    let _edge = side.edge();
    let mut corners = ArrayVec::new();
    add_holders(side, from, &mut corners);
    add_holders(side, Point { y: from.y, x: to.x }, &mut corners);
    add_holders(side, Point { y: to.y, x: from.x }, &mut corners);
    add_holders(side, to, &mut corners);
    corners
}

// Adds the tiles with the point, except those already listed, so that each tile is searched once.
fn add_holders(side: Side, point: Point, corners: &mut ArrayVec<Corner, 16>)
    requires room { array_vec_len corners.old ≤ 12 }
    requires once { AllPairs (λ c d. IsFalse (same_corner c d)) corners.old.items }
    ensures kept { (c : Corner) → Contains corners.old.items c → Contains corners.new.items c }
    ensures added { (c : Corner) → Holds side c point → Contains corners.new.items c }
    ensures once { AllPairs (λ c d. IsFalse (same_corner c d)) corners.new.items }
    ensures few { array_vec_len corners.new ≤ array_vec_len corners.old + 4 }
{
    for corner in holders(side, point).as_slice() {
        if !corners.as_slice().contains(corner) {
            corners.push(*corner);
        }
    }
}

// Whether the corner's present tile has a void point in the box. It reads only the overlap, a row of the tile at a
// time.
fn has_void<S: Samples>(
    samples: &mut S,
    corner: Corner,
    from: Point,
    to: Point,
) -> Result<bool, Refusal>
    requires present { Contains (S.corners samples.old) corner }
    requires size { IsTrue (is_box (S.side_of samples.old) from to) }
    ensures void { S.is_honest samples.new
        → IfOk result (λ some. (t : Tile) → Contains (S.mosaic samples.old).tiles t
        → t.corner ≡ corner
        → some ≡ has_void_from (S.mosaic samples.old) from to t.corner 0 t.samples) }
    ensures causes { IfErr result (λ r. IsTrue (ends_any r)) }
    ensures memory { IfErr result (λ r. r ≢ NoMemory) }
    ensures reads { OnlyReads S.Samples samples.old samples.new (reads_of result) }
{
    let side = samples.side();
    let rows = steps_within(side, corner.lat, from.y, to.y);
    let columns = steps_within(side, corner.lon, from.x, to.x);
    let mut own = [0; LARGEST_SIDE as usize];
    for row in 0..rows.count {
        let first = (side.edge() - rows.first - row) * side.samples() + columns.first;
        if has_void_in_row(samples, corner, first, &mut own[..columns.count as usize])? {
            return Ok(true);
        }
    }
    Ok(false)
}

// Whether one of the samples of the corner's present tile is at a void point: those from the index on, as many as the
// buffer takes. They are read at once.
fn has_void_in_row<S: Samples>(
    samples: &mut S,
    corner: Corner,
    first: u32,
    own: &mut [i16],
) -> Result<bool, Refusal>
    requires present { Contains (S.corners samples.old) corner }
    requires range { first + length own.old ≤ S.side_of samples.old * S.side_of samples.old }
    ensures void { S.is_honest samples.new
        → IfOk result (HasVoid (S.mosaic samples.old) corner first (length own.old)) }
    ensures length { length own.new ≡ length own.old }
    ensures causes { IfErr result (λ r. IsTrue (ends_any r)) }
    ensures memory { IfErr result (λ r. r ≢ NoMemory) }
    ensures reads { OnlyReads S.Samples samples.old samples.new (reads_of result) }
{
    samples.read_samples(corner, first, own)?;
    has_void_among(samples, corner, first, own)
}

// Whether one of these samples of the corner's present tile, from the index on, is at a void point.
fn has_void_among<S: Samples>(
    samples: &mut S,
    corner: Corner,
    first: u32,
    own: &[i16],
) -> Result<bool, Refusal>
    requires present { Contains (S.corners samples.old) corner }
    requires range { first + length own.now ≤ S.side_of samples.old * S.side_of samples.old }
    ensures void { S.is_honest samples.new
        → AreSamplesOf (S.mosaic samples.old) corner first own.now
        → IfOk result (HasVoid (S.mosaic samples.old) corner first (length own.now)) }
    ensures causes { IfErr result (λ r. IsTrue (ends_any r)) }
    ensures memory { IfErr result (λ r. r ≢ NoMemory) }
    ensures reads { OnlyReads S.Samples samples.old samples.new (reads_of result) }
{
    // This call shows the prover that an index fits its type.
    let _area = samples.side().area();
    samples_in_range(own);
    for k in 0..own.len() {
        if is_void_sample(samples, corner, first + k as u32, own[k])? {
            return Ok(true);
        }
    }
    Ok(false)
}

// Whether the sample at the index of the corner's present tile is at a void point. If the sample isn't void, its point
// isn't either, and no tile is read.
fn is_void_sample<S: Samples>(
    samples: &mut S,
    corner: Corner,
    index: u32,
    own: i16,
) -> Result<bool, Refusal>
    requires index { index < S.side_of samples.old * S.side_of samples.old }
    ensures void { S.is_honest samples.new
        → IsSampleOf (S.mosaic samples.old) corner index own
        → IfOk result (λ b. b ≡ is_void_at_index (S.mosaic samples.old) corner index) }
    ensures causes { IfErr result (λ r. IsTrue (ends_any r)) }
    ensures memory { IfErr result (λ r. r ≢ NoMemory) }
    ensures reads { OnlyReads S.Samples samples.old samples.new (reads_of result) }
{
    if own != VOID {
        return Ok(false);
    }
    let point = point_at(samples.side(), corner, index);
    is_void(samples, point)
}

// Whether the height of the point is void.
fn is_void<S: Samples>(samples: &mut S, point: Point) -> Result<bool, Refusal>
    ensures void { S.is_honest samples.new
        → IfOk result (λ b. b ≡ is_void_at (S.mosaic samples.old) point) }
    ensures causes { IfErr result (λ r. IsTrue (ends_any r)) }
    ensures memory { IfErr result (λ r. r ≢ NoMemory) }
    ensures reads { OnlyReads S.Samples samples.old samples.new (reads_of result) }
{
    match height(samples, point)? {
        Height::Void => Ok(true),
        Height::Outside | Height::At(_) => Ok(false),
    }
}
