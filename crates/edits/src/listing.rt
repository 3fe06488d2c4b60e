//! The changes that carry out an edit.
ghost use Rattle.std.specs.Prelude.{◌≡◌, ◌≤◌, ◌+◌, ◌*◌, false, [], ◌∷◌, All, IsTrue, IfOk, IfErr, OnOk, length, vec_len, ◌&&◌};
ghost use Rattle.lattice.specs.Ground.{same_point};
ghost use Rattle.lattice.specs.declared.refusal.Refusal.TheVariants.{NoMemory};
ghost use Rattle.catalogue.specs.Endings.{ends_any};
ghost use Rattle.catalogue.specs.Readers.{OnlyReads, reads_of};
ghost use Rattle.edits.specs.Changes.{CanBeMade, CanBeSet, SetOnce, Sets, all_changed};
ghost use Rattle.edits.specs.Edits.{FitsIn, edit_made, points_of, with_heights};
ghost use Rattle.edits.specs.Effect.{is_box, is_in_box, is_named, is_repeated, is_void_at};
ghost use Rattle.edits.specs.Plans.{AreFewOf, AreSetOnce};

use crate::boxes::BoxPoints;
use crate::places::places_of;
use crate::{Change, Edit, NewHeight, TileSamples};
use catalogue::{Samples, height};
use lattice::{Height, Point, Refusal, push};
use std::alloc::Global;

/// The changes that carry out the edit, in order.
pub(crate) fn changes_of<S: Samples>(
    alloc: Global,
    samples: &mut S,
    edit: &Edit,
) -> Result<Vec<Change>, Refusal>
    requires { FitsIn (S.side_of samples.old) (S.corners samples.old) (S.sinks_of samples.old) edit.now }
    ensures changes { S.is_honest samples.new
        → IfOk result (λ changes. all_changed changes.items (S.mosaic samples.old)
        ≡ edit_made edit.now (S.mosaic samples.old)) }
    ensures once { S.is_honest samples.new
        → IfOk result (λ changes. AreSetOnce (S.mosaic samples.old) edit.now changes.items) }
    ensures causes { IfErr result (λ r. IsTrue (ends_any r)) }
    ensures fits { IfOk result (λ changes. All (CanBeMade (S.side_of samples.old) (S.corners samples.old) (S.sinks_of samples.old)) changes.items) }
    ensures few { IfOk result (λ changes. AreFewOf edit.now (vec_len changes)) }
    ensures reads { OnlyReads S.Samples samples.old samples.new (reads_of result) }
{
    match edit {
        Edit::Add { corner, bytes } => {
            let samples = TileSamples::new(hgt::samples(alloc, *bytes, samples.side())?);
            one_change(
                alloc,
                Change::Add {
                    corner: *corner,
                    samples,
                },
            )
        }
        Edit::Drop { corner } => one_change(alloc, Change::Drop { corner: *corner }),
        Edit::Heights { heights } => put_heights(alloc, samples, heights.as_slice()),
        Edit::Voids {
            from,
            to,
            height,
            ..
        } => put_in_voids(alloc, samples, *from, *to, *height),
        Edit::Sink { point, .. } => one_change(alloc, Change::Sink { point: *point }),
        Edit::Unsink { point, .. } => one_change(alloc, Change::Unsink { point: *point }),
    }
}

// A list with this change alone.
fn one_change(alloc: Global, change: Change) -> Result<Vec<Change>, Refusal>
    ensures items { IfOk result (λ changes. changes.items ≡ change ∷ []) }
    ensures len { IfOk result (λ changes. vec_len changes ≡ 1) }
    ensures refusal { IfErr result (λ r. r ≡ NoMemory) }
{
    match Vec::from_array(alloc, [change]) {
        Ok(changes) => Ok(changes),
        Err(_) => Err(Refusal::NoMemory),
    }
}

// The changes that give each point its new height.
fn put_heights<S: Samples>(
    alloc: Global,
    samples: &S,
    heights: &[NewHeight],
) -> Result<Vec<Change>, Refusal>
    ensures changes { S.is_honest samples.now
        → IfOk result (λ changes. all_changed changes.items (S.mosaic samples.now)
        ≡ with_heights heights.now (S.mosaic samples.now)) }
    ensures once { is_repeated (points_of heights.now) ≡ false
        → IfOk result (λ changes. SetOnce (S.side_of samples.now) (is_named (points_of heights.now)) changes.items) }
    ensures refusal { IfErr result (λ r. r ≡ NoMemory) }
    ensures fits { IfOk result (λ changes. All (CanBeSet (S.side_of samples.now) (S.corners samples.now)) changes.items) }
    ensures few { IfOk result (λ changes. vec_len changes ≤ 4 * length heights.now) }
{
    let mut changes = Vec::new(alloc);
    for height in heights {
        put(samples, height.point, height.metres, &mut changes)?;
    }
    Ok(changes)
}

// The changes that put the sample at the void points of the box.
fn put_in_voids<S: Samples>(
    alloc: Global,
    samples: &mut S,
    from: Point,
    to: Point,
    sample: i16,
) -> Result<Vec<Change>, Refusal>
    requires { IsTrue (is_box (S.side_of samples.old) from to) }
    ensures sets { S.is_honest samples.new
        → IfOk result (λ changes. Sets (S.side_of samples.old) (S.corners samples.old) (λ p. is_in_box from to p && is_void_at (S.mosaic samples.old) p) sample [] changes.items) }
    ensures causes { IfErr result (λ r. IsTrue (ends_any r)) }
    ensures fits { IfOk result (λ changes. All (CanBeSet (S.side_of samples.old) (S.corners samples.old)) changes.items) }
    ensures reads { OnlyReads S.Samples samples.old samples.new (reads_of result) }
{
    let mut changes = Vec::new(alloc);
    let Some(points) = BoxPoints::new(samples.side(), from, to) else {
        return Ok(changes);
    };
    for k in 0..points.len() {
        put_if_void(samples, points.point(k), sample, &mut changes)?;
    }
    Ok(changes)
}

// Appends the changes that put the sample at the point, if the point is void.
fn put_if_void<S: Samples>(
    samples: &mut S,
    point: Point,
    sample: i16,
    changes: &mut Vec<Change>,
) -> Result<(), Refusal>
    ensures sets { S.is_honest samples.new
        → OnOk result (Sets (S.side_of samples.old) (S.corners samples.old) (λ q. same_point q point && is_void_at (S.mosaic samples.old) q) sample changes.old.items changes.new.items) }
    ensures causes { IfErr result (λ r. IsTrue (ends_any r)) }
    ensures fits { OnOk result (All (CanBeSet (S.side_of samples.old) (S.corners samples.old)) changes.old.items
        → All (CanBeSet (S.side_of samples.old) (S.corners samples.old)) changes.new.items) }
    ensures reads { OnlyReads S.Samples samples.old samples.new (reads_of result) }
{
    match height(samples, point)? {
        Height::Void => put(samples, point, sample, changes),
        Height::Outside | Height::At(_) => Ok(()),
    }
}

// Appends the changes that put the sample at the point.
fn put<S: Samples>(
    samples: &S,
    point: Point,
    sample: i16,
    changes: &mut Vec<Change>,
) -> Result<(), Refusal>
    ensures sets { OnOk result (Sets (S.side_of samples.now) (S.corners samples.now) (λ q. same_point q point) sample changes.old.items changes.new.items) }
    ensures refusal { IfErr result (λ r. r ≡ NoMemory) }
    ensures fits { OnOk result (All (CanBeSet (S.side_of samples.now) (S.corners samples.now)) changes.old.items
        → All (CanBeSet (S.side_of samples.now) (S.corners samples.now)) changes.new.items) }
    ensures few { OnOk result (length changes.new.items ≤ length changes.old.items + 4) }
{
    for place in places_of(samples, point).as_slice() {
        let change = Change::Set {
            corner: place.corner,
            index: place.index,
            sample,
        };
        push(changes, change)?;
    }
    Ok(())
}
