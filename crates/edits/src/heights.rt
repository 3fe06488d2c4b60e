//! The new heights of the points that burns and walls name.
ghost use Rattle.std.specs.Prelude.{◌≡◌, ◌≢◌, ◌||◌, ℕ, Ok, Err, IsTrue, IfOk, IfErr};
ghost use Rattle.lattice.specs.Height.{height_of};
ghost use Rattle.lattice.specs.declared.height.Height.TheVariants as height_is;
ghost use Rattle.lattice.specs.declared.refusal.Refusal.TheVariants.{NoMemory};
ghost use Rattle.catalogue.specs.Endings.{ends_any};
ghost use Rattle.catalogue.specs.Readers.{OnlyReads, reads_of};
ghost use Rattle.edits.specs.Edits.{AreEarlier, points_of, with_heights};
ghost use Rattle.edits.specs.Effect.{effect, is_named, is_repeated};
ghost use Rattle.edits.specs.Plans.{is_own, may_end};
ghost use Rattle.edits.specs.PointEdits.{fault_of, is_groundless, refuses, edit_points};
ghost use Rattle.edits.specs.declared.command.Command.TheVariants.{Burn, Wall};

use crate::NewHeight;
use crate::point_edit::{DEEPEST, HIGHEST, LOWEST, PointEdit};
use arrayvec::ArrayVec;
use catalogue::{Samples, height};
use lattice::{Height, Point, Refusal};

/// The new heights of a burn's points.
pub(crate) fn lowered<S: Samples>(
    samples: &mut S,
    depth: i32,
    points: &ArrayVec<Point, 64>,
) -> Result<ArrayVec<NewHeight, 64>, Refusal>
    ensures made { (capacity : ℕ) → S.is_honest samples.new
        → IfOk result (λ heights. effect capacity (S.mosaic samples.old) (Burn depth points.now)
        ≡ Ok (with_heights heights.items (S.mosaic samples.old))) }
    ensures refused { (capacity : ℕ) → S.is_honest samples.new
        → IfErr result (λ r. IsTrue (is_own (Burn depth points.now) r)
        → effect capacity (S.mosaic samples.old) (Burn depth points.now) ≡ Err r) }
    ensures causes { IfErr result (λ r. IsTrue (may_end (Burn depth points.now) r)) }
    ensures memory { IfErr result (λ r. r ≢ NoMemory) }
    ensures points { IfOk result (λ heights. points_of heights.items ≡ points.now.items) }
    ensures earlier { S.is_honest samples.new
        → IfOk result (λ heights. AreEarlier heights.items (S.mosaic samples.old)) }
    ensures reads { OnlyReads S.Samples samples.old samples.new (reads_of result) }
{
    if depth < 1 || DEEPEST < depth {
        return Err(Refusal::BadDepth);
    }
    new_heights(samples, points, PointEdit::Lower { by: depth as u16 })
}

/// The new heights of a wall's points.
pub(crate) fn raised<S: Samples>(
    samples: &mut S,
    height: i32,
    points: &ArrayVec<Point, 64>,
) -> Result<ArrayVec<NewHeight, 64>, Refusal>
    ensures made { (capacity : ℕ) → S.is_honest samples.new
        → IfOk result (λ heights. effect capacity (S.mosaic samples.old) (Wall height points.now)
        ≡ Ok (with_heights heights.items (S.mosaic samples.old))) }
    ensures refused { (capacity : ℕ) → S.is_honest samples.new
        → IfErr result (λ r. IsTrue (is_own (Wall height points.now) r)
        → effect capacity (S.mosaic samples.old) (Wall height points.now) ≡ Err r) }
    ensures causes { IfErr result (λ r. IsTrue (may_end (Wall height points.now) r)) }
    ensures memory { IfErr result (λ r. r ≢ NoMemory) }
    ensures points { IfOk result (λ heights. points_of heights.items ≡ points.now.items) }
    ensures earlier { S.is_honest samples.new
        → IfOk result (λ heights. AreEarlier heights.items (S.mosaic samples.old)) }
    ensures reads { OnlyReads S.Samples samples.old samples.new (reads_of result) }
{
    if height < LOWEST || HIGHEST < height {
        return Err(Refusal::BadHeight);
    }
    new_heights(samples, points, PointEdit::Raise { to: height as i16 })
}

// The new heights of the points after this edit of each. Repeated if a point is named twice.
fn new_heights<S: Samples>(
    samples: &mut S,
    points: &ArrayVec<Point, 64>,
    point_edit: PointEdit,
) -> Result<ArrayVec<NewHeight, 64>, Refusal>
    ensures made { S.is_honest samples.new
        → IfOk result (λ heights. edit_points point_edit (S.mosaic samples.old) points.now.items
        ≡ Ok (with_heights heights.items (S.mosaic samples.old))) }
    ensures refused { S.is_honest samples.new
        → IfErr result (λ r. IsTrue (refuses point_edit r)
        → edit_points point_edit (S.mosaic samples.old) points.now.items ≡ Err r) }
    ensures causes { IfErr result (λ r. IsTrue (refuses point_edit r || ends_any r)) }
    ensures memory { IfErr result (λ r. r ≢ NoMemory) }
    ensures points { IfOk result (λ heights. points_of heights.items ≡ points.now.items) }
    ensures earlier { S.is_honest samples.new
        → IfOk result (λ heights. AreEarlier heights.items (S.mosaic samples.old)) }
    ensures reads { OnlyReads S.Samples samples.old samples.new (reads_of result) }
{
    let points = points.as_slice();
    if is_repeated(points) {
        return Err(Refusal::Repeated);
    }
    let mut heights = ArrayVec::new();
    for point in points {
        let height = ground(samples, *point)?;
        let metres = point_edit.of(height)?;
        heights.push(NewHeight {
            point: *point,
            was: height,
            metres,
        });
    }
    Ok(heights)
}

/// The height of the point; a point without one is refused.
pub(crate) fn ground<S: Samples>(samples: &mut S, point: Point) -> Result<i16, Refusal>
    ensures metres { S.is_honest samples.new
        → IfOk result (λ h. height_of (S.mosaic samples.old) point ≡ height_is.At h) }
    ensures refused { S.is_honest samples.new
        → IfErr result (λ r. fault_of (height_of (S.mosaic samples.old) point) r) }
    ensures causes { IfErr result (λ r. IsTrue (is_groundless r || ends_any r)) }
    ensures memory { IfErr result (λ r. r ≢ NoMemory) }
    ensures reads { OnlyReads S.Samples samples.old samples.new (reads_of result) }
{
    match height(samples, point)? {
        Height::Outside => Err(Refusal::Outside),
        Height::Void => Err(Refusal::Void),
        Height::At(metres) => Ok(metres),
    }
}

// Whether two of the points are equal.
fn is_repeated(points: &[Point]) -> bool
    ensures { result ≡ is_repeated points.now }
{
    for (i, point) in points.iter().enumerate() {
        if is_named(&points[i + 1..], *point) {
            return true;
        }
    }
    false
}

// Whether the point is in the list.
fn is_named(points: &[Point], point: Point) -> bool
    ensures { result ≡ is_named points.now point }
{
    points.iter().any(|other| point == *other)
}
