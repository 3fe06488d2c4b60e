//! Restoring: makes the labelling of a block from that of an earlier block whose heights differ at a few unknown points.
ghost use Rattle.std.specs.Prelude.{◌≡◌, ◌<◌, ◌<ℤ◌, ◌≤◌, ◌*◌, ◌+◌, ◌/◌, ◌%◌, ◌⊎◌, ℕ, ℤ, List, ◌∷◌, true, false, IfErr, IfOk, IfSome, OnOk, IsTrue, Contains, length, slice_index, slice_index_or};
ghost use Rattle.lattice.specs.Block.{is_beside};
ghost use Rattle.lattice.specs.Limits.{IsSide};
ghost use Rattle.lattice.specs.Mosaic.{void};
ghost use Rattle.lattice.specs.declared.refusal.Refusal.TheVariants.{NoMemory};
ghost use Rattle.tile_flood.specs.Carried.{AreCarried};
ghost use Rattle.labelling.specs.Labelling.{IsLabelling};
ghost use Rattle.tile_flood.specs.Mending.{IsLabelledBefore};
ghost use Rattle.tile_flood.specs.Views.{AreFittingIn, AreStandingIn, IsFittingIn, StandStillIn};
ghost use Rattle.tile_flood.specs.Restoring.{AreReached, HoldsUp, IsAbove, IsRelaxedTo, IsSettled};
ghost use Rattle.tile_flood.specs.Bands.{StayInBands};

use crate::block::Block;
use crate::flood::Flood;
use crate::labelled::Labelled;
use crate::mending::{Mended, mend};
use crate::outlets::own_label;
use crate::seeding::{Span, is_plain};
use crate::values::{at, has_level, label_at};
use crate::views::Planes;
use arrayvec::ArrayVec;
use labelling::NO_LABEL;
use lattice::{Refusal, VOID, samples_in_range};
use std::alloc::{AllocError, Global};

// If more points than this may have changed, the block is flooded anew.
const MOST_CHANGED: usize = 64;

// The number of columns that are tested together; in most such spans each level fits.
const SPAN: usize = 64;

/// The labelling of the block. The given levels and labels may be a labelling of the block before the heights of a few points
/// changed. If that can't be confirmed, the block is flooded. The only refusal is NoMemory.
pub fn restore(alloc: Global, block: &Block, labelled: Labelled) -> Result<Mended, Refusal>
    requires { labelled.side ≡ block.now.side }
    ensures side { IfOk result (λ mended. mended.labelled.side ≡ block.now.side) }
    ensures labelling { IfOk result (λ mended. IsLabelling block.now mended.labelled.levels mended.labelled.labels) }
    ensures carried { IfOk result (λ mended. AreCarried block.now mended.labelled.levels mended.labelled.labels) }
    ensures bands { IfOk result (λ mended. StayInBands labelled mended.labelled mended.changed_bands.items) }
    ensures refusal { IfErr result (λ refusal. refusal ≡ NoMemory) }
{
    if let Some(points) = changed_points(alloc, block, &labelled)? {
        return mend(alloc, block, labelled, points.as_slice());
    }
    let labelled = Flood::run(alloc, block)?;
    Ok(Mended {
        labelled,
        changed_bands: Vec::new(alloc),
    })
}

// The points whose heights may have changed since these were a labelling of the block; None if that can't be confirmed. A
// labelling is confirmed if each point is supported. An outlet or void is supported by its own level and label, any other
// point by a supported neighbour that gives it both.
fn changed_points(
    alloc: Global,
    block: &Block,
    labelled: &Labelled,
) -> Result<Option<ArrayVec<u32, MOST_CHANGED>>, AllocError>
    requires { labelled.now.side ≡ block.now.side }
    ensures { IfOk result (λ found. IfSome found (λ points. IsLabelledBefore block.now points.items labelled.now.levels labelled.now.labels)) }
{
    let planes = Planes {
        block: block.view(),
        levels: labelled.levels(),
        labels: labelled.labels(),
    };
    samples_in_range(planes.levels);
    let mut stands = vec![in alloc; false; planes.block.heights.len()]?;
    let mut points = ArrayVec::new();
    for i in 0..planes.block.n {
        if !look_at_row(&planes, i, &mut stands, &mut points) {
            return Ok(None);
        }
    }
    if do_all_stand(alloc, &planes, &mut stands)? {
        Ok(Some(points))
    } else {
        Ok(None)
    }
}

fn are_all(stands: &[bool]) -> bool
    ensures { IsTrue result → (e : ℕ) → e < length stands.now
        → slice_index_or stands.now e false ≡ true }
{
    let mut all = true;
    for e in 0..stands.len() {
        all = all & stands[e];
    }
    all
}

// Lists the points of a row whose levels don't fit, and marks the outlets and voids as supported. False if a point can't have
// its level or label, or the list is full.
fn look_at_row(
    planes: &Planes,
    i: usize,
    stands: &mut [bool],
    points: &mut ArrayVec<u32, MOST_CHANGED>,
) -> bool
    requires i { i < planes.now.block.n }
    requires standing { AreStandingIn planes.now stands.old }
    requires fitting { AreFittingIn planes.now points.old.items (i * planes.now.block.n) }
    ensures standing { AreStandingIn planes.now stands.new }
    ensures fitting { IsTrue result
        → AreFittingIn planes.now points.new.items ((i + 1) * planes.now.block.n) }
{
    mark_lower(planes, i, stands);
    if !look_at(planes, i, 0, stands, points) {
        return false;
    }
    let mut from = 1;
    while from < planes.block.n - 1 {
        let to = (from + SPAN).min(planes.block.n - 1);
        if !look_at_span(planes, Span { row: i, from, to }, stands, points) {
            return false;
        }
        from = to;
    }
    look_at(planes, i, planes.block.n - 1, stands, points)
}

// Lists the points of the span whose levels don't fit, and marks its outlets as supported.
fn look_at_span(
    planes: &Planes,
    span: Span,
    stands: &mut [bool],
    points: &mut ArrayVec<u32, MOST_CHANGED>,
) -> bool
    requires row { span.row < planes.now.block.n }
    requires columns { (0 < span.from) × ((span.from ≤ span.to) × (span.to < planes.now.block.n)) }
    requires standing { AreStandingIn planes.now stands.old }
    requires fitting { AreFittingIn planes.now points.old.items (span.row * planes.now.block.n
        + span.from) }
    ensures standing { AreStandingIn planes.now stands.new }
    ensures fitting { IsTrue result
        → AreFittingIn planes.now points.new.items (span.row * planes.now.block.n + span.to) }
{
    if is_plain(&planes.block, span) && are_settled(planes, span) {
        return true;
    }
    for j in span.from..span.to {
        if !look_at(planes, span.row, j, stands, points) {
            return false;
        }
    }
    true
}

// Lists the point, unless its level fits, and marks it as supported if it is an outlet or a void. False if it can't have its
// level or label, or the list is full.
fn look_at(
    planes: &Planes,
    i: usize,
    j: usize,
    stands: &mut [bool],
    points: &mut ArrayVec<u32, MOST_CHANGED>,
) -> bool
    requires cell { (i < planes.now.block.n) × (j < planes.now.block.n) }
    requires standing { AreStandingIn planes.now stands.old }
    ensures standing { AreStandingIn planes.now stands.new }
    ensures kept { (z : ℕ) → Contains points.old.items z → Contains points.new.items z }
    ensures fitting { IsTrue result
        → IsFittingIn planes.now points.new.items (i * planes.now.block.n + j) }
{
    let e = i * planes.block.n + j;
    if !has_level(planes.block.heights, e) {
        stands[e] = true;
        return !has_level(planes.levels, e) && label_at(planes.labels, e) == NO_LABEL;
    }
    if !has_level(planes.levels, e) || label_at(planes.labels, e) == NO_LABEL {
        return false;
    }
    if let Some(own) = own_label(&planes.block, i, j) {
        stands[e] = true;
        return label_at(planes.labels, e) == own && list_unless(is_own_level(planes, e), e, points);
    }
    let alone = Span {
        row: i,
        from: j,
        to: j + 1,
    };
    list_unless(are_settled(planes, alone), e, points)
}

fn is_own_level(planes: &Planes, e: usize) -> bool
    requires { e < planes.now.block.n * planes.now.block.n }
    ensures { IsTrue result
        → slice_index_or planes.now.levels.now e void
        ≡ slice_index_or planes.now.block.heights.now e void }
{
    at(planes.levels, e) == at(planes.block.heights, e)
}

// Lists the point, unless its level fits. False if the list is full.
fn list_unless(fits: bool, e: usize, points: &mut ArrayVec<u32, MOST_CHANGED>) -> bool
    requires { e < 4294967296 }
    ensures kept { (z : ℕ) → Contains points.old.items z → Contains points.new.items z }
    ensures listed { IsTrue result → IsTrue fits ⊎ Contains points.new.items e }
{
    fits || points.try_push(e as u32).is_ok()
}

// Whether the span lies inside the block, and each of its points is ground with a level that fits: its height and the levels
// around it give that level.
fn are_settled(planes: &Planes, span: Span) -> bool
    requires row { span.row < planes.now.block.n }
    requires columns { span.from ≤ span.to }
    ensures { IsTrue result → (j : ℕ) → span.from ≤ j → j < span.to
        → IsSettled planes.now.block.n planes.now.block.heights.now planes.now.levels.now planes.now.labels.now (span.row * planes.now.block.n + j) }
{
    let i = span.row;
    if i == 0 || i + 1 >= planes.block.n || span.from == 0 || span.to >= planes.block.n {
        return false;
    }
    let e = i * planes.block.n + span.from;
    let count = span.to - span.from;
    if !are_above(planes, e, count) {
        return false;
    }
    for d in 0..9 {
        let f = e - planes.block.n - 1 + d / 3 * planes.block.n + d % 3;
        if !are_relaxed(planes, e, f, count) {
            return false;
        }
    }
    true
}

// Whether `count` points from e on are ground with labels, and none is higher than its level.
fn are_above(planes: &Planes, e: usize, count: usize) -> bool
    requires { e + count ≤ planes.now.block.n * planes.now.block.n }
    ensures { IsTrue result → (k : ℕ) → k < count
        → IsAbove planes.now.block.heights.now planes.now.levels.now planes.now.labels.now (e + k) }
{
    let mut above = true;
    for k in 0..count {
        above = above
            & (at(planes.block.heights, e + k) != VOID)
            & (at(planes.levels, e + k) != VOID)
            & (label_at(planes.labels, e + k) != NO_LABEL)
            & (at(planes.levels, e + k) >= at(planes.block.heights, e + k));
    }
    above
}

// Whether each of `count` points from e on has a level at most its height, or at most its counterpart's level from f on.
fn are_relaxed(planes: &Planes, e: usize, f: usize, count: usize) -> bool
    requires inside { e + count ≤ planes.now.block.n * planes.now.block.n }
    requires beside { f + count ≤ planes.now.block.n * planes.now.block.n }
    ensures { IsTrue result → (k : ℕ) → k < count
        → IsRelaxedTo planes.now.block.heights.now planes.now.levels.now (e + k) (f + k) }
{
    let mut relaxed = true;
    for k in 0..count {
        relaxed = relaxed & is_relaxed_to(planes, e + k, f + k);
    }
    relaxed
}

fn is_relaxed_to(planes: &Planes, e: usize, f: usize) -> bool
    requires { (e < planes.now.block.n * planes.now.block.n)
        × (f < planes.now.block.n * planes.now.block.n) }
    ensures { IsTrue result → IsRelaxedTo planes.now.block.heights.now planes.now.levels.now e f }
{
    (at(planes.levels, e) <= at(planes.block.heights, e))
        | (at(planes.levels, e) <= at(planes.levels, f))
}

// Marks the points of a row, inside the block, that have a lower neighbour with their label.
fn mark_lower(planes: &Planes, i: usize, stands: &mut [bool])
    requires i { i < planes.now.block.n }
    requires standing { length stands.old ≡ planes.now.block.n * planes.now.block.n }
    ensures standing { StandStillIn planes.now stands.old stands.new }
{
    if i == 0 || i + 1 >= planes.block.n {
        return;
    }
    let e = i * planes.block.n + 1;
    let count = planes.block.n - 2;
    for d in 0..9 {
        let f = e - planes.block.n - 1 + d / 3 * planes.block.n + d % 3;
        mark_above(planes, e, f, count, stands);
    }
}

// Of `count` points from e on, marks each whose counterpart from f on has its label and a lower level.
fn mark_above(planes: &Planes, e: usize, f: usize, count: usize, stands: &mut [bool])
    requires inside { (e + count ≤ planes.now.block.n * planes.now.block.n)
        × (f + count ≤ planes.now.block.n * planes.now.block.n) }
    requires beside { (k : ℕ) → k < count → IsTrue (is_beside planes.now.block.n (e + k) (f + k)) }
    requires standing { length stands.old ≡ planes.now.block.n * planes.now.block.n }
    ensures standing { StandStillIn planes.now stands.old stands.new }
{
    for k in 0..count {
        stands[e + k] = stands[e + k] | is_over(planes, e + k, f + k);
    }
}

// Whether e has f's label and a higher level.
fn is_over(planes: &Planes, e: usize, f: usize) -> bool
    requires { (e < planes.now.block.n * planes.now.block.n)
        × (f < planes.now.block.n * planes.now.block.n) }
    ensures { IsTrue result
        → (slice_index_or planes.now.levels.now f void <ℤ slice_index_or planes.now.levels.now e void) × (slice_index planes.now.labels.now f
        ≡ slice_index planes.now.labels.now e) }
{
    (at(planes.levels, f) < at(planes.levels, e))
        & (label_at(planes.labels, f) == label_at(planes.labels, e))
}

// Marks all points that the marked ones support. Returns whether all points are marked then.
fn do_all_stand(alloc: Global, planes: &Planes, stands: &mut [bool]) -> Result<bool, AllocError>
    requires stands { length stands.old ≡ planes.now.block.n * planes.now.block.n }
    ensures all { IfOk result (λ all. IsTrue all → (e : ℕ)
        → e < planes.now.block.n * planes.now.block.n
        → slice_index_or stands.new e false ≡ true) }
    ensures standing { OnOk result (StandStillIn planes.now stands.old stands.new) }
{
    let mut reached = Vec::new(alloc);
    for e in 0..planes.levels.len() {
        stand_from(planes, e, stands, &mut reached)?;
    }
    Ok(are_all(stands))
}

// Marks the point if a neighbour supports it, and then all points that it supports in turn.
fn stand_from(
    planes: &Planes,
    e: usize,
    stands: &mut [bool],
    reached: &mut Vec<u32>,
) -> Result<(), AllocError>
    requires stands { length stands.old ≡ planes.now.block.n * planes.now.block.n }
    requires e { e < planes.now.block.n * planes.now.block.n }
    requires reached { AreReached planes.now.block.n stands.old reached.old.items }
    ensures reached { OnOk result (AreReached planes.now.block.n stands.new reached.new.items) }
    ensures standing { OnOk result (StandStillIn planes.now stands.old stands.new) }
{
    if stands[e] || !is_beside_standing(planes, stands, e) {
        return Ok(());
    }
    stands[e] = true;
    reached.push(e as u32)?;
    spread(planes, stands, reached)?;
    Ok(())
}

// Whether a supported neighbour of the point has the point's level and label.
fn is_beside_standing(planes: &Planes, stands: &[bool], e: usize) -> bool
    requires stands { length stands.now ≡ planes.now.block.n * planes.now.block.n }
    requires e { e < planes.now.block.n * planes.now.block.n }
    ensures { IsTrue result
        → (f : ℕ) × HoldsUp planes.now.block.n planes.now.levels.now planes.now.labels.now stands.now e f }
{
    let Some(from) = window_start(planes.block.n, e) else {
        return false;
    };
    for d in 0..9 {
        if stands_alike(planes, stands, e, from + d / 3 * planes.block.n + d % 3) {
            return true;
        }
    }
    false
}

// The first point of the window of 3 x 3 points around e; None if part of the window is outside the block. Points of the rim
// are outlets or voids, and so supported.
fn window_start(n: usize, e: usize) -> Option<usize>
    requires side { IsSide n }
    requires small { n * n < 4294967296 }
    requires e { e < n * n }
    ensures { IfSome result (λ from. (d : ℕ) → d < 9
        → (from + d / 3 * n + d % 3 < n * n)
        × IsTrue (is_beside n e (from + d / 3 * n + d % 3))) }
{
    let i = e / n;
    let j = e % n;
    if i == 0 || i + 1 >= n || j == 0 || j + 1 >= n {
        return None;
    }
    Some(e - n - 1)
}

// Whether f is supported, and has the level and the label of e.
fn stands_alike(planes: &Planes, stands: &[bool], e: usize, f: usize) -> bool
    requires inside { (e < planes.now.block.n * planes.now.block.n)
        × (f < planes.now.block.n * planes.now.block.n) }
    requires stands { f < length stands.now }
    ensures { IsTrue result
        → (slice_index_or stands.now f false ≡ true)
        × ((slice_index_or planes.now.levels.now f void
        ≡ slice_index_or planes.now.levels.now e void)
        × (slice_index planes.now.labels.now f ≡ slice_index planes.now.labels.now e)) }
{
    stands[f]
        && at(planes.levels, e) == at(planes.levels, f)
        && label_at(planes.labels, e) == label_at(planes.labels, f)
}

// Marks all points that the listed points support. The list is empty in the end.
fn spread(planes: &Planes, stands: &mut [bool], reached: &mut Vec<u32>) -> Result<(), AllocError>
    requires stands { length stands.old ≡ planes.now.block.n * planes.now.block.n }
    requires reached { AreReached planes.now.block.n stands.old reached.old.items }
    ensures reached { OnOk result (AreReached planes.now.block.n stands.new reached.new.items) }
    ensures standing { OnOk result (StandStillIn planes.now stands.old stands.new) }
{
    // No point is listed twice, so this many rounds suffice.
    for _ in 0..planes.levels.len() {
        let Some(e) = reached.pop() else {
            return Ok(());
        };
        spread_from(planes, e as usize, stands, reached)?;
    }
    Ok(())
}

// Marks the neighbours of e that e supports, and lists them.
fn spread_from(
    planes: &Planes,
    e: usize,
    stands: &mut [bool],
    reached: &mut Vec<u32>,
) -> Result<(), AllocError>
    requires stands { length stands.old ≡ planes.now.block.n * planes.now.block.n }
    requires e { e < planes.now.block.n * planes.now.block.n }
    requires reached { AreReached planes.now.block.n stands.old (e ∷ reached.old.items) }
    ensures reached { OnOk result (AreReached planes.now.block.n stands.new (e ∷ reached.new.items)) }
    ensures standing { OnOk result (StandStillIn planes.now stands.old stands.new) }
{
    let Some(from) = window_start(planes.block.n, e) else {
        return Ok(());
    };
    for d in 0..9 {
        let f = from + d / 3 * planes.block.n + d % 3;
        spread_to(planes, e, f, stands, reached)?;
    }
    Ok(())
}

// Marks f, next to e, if e supports it, and lists it.
fn spread_to(
    planes: &Planes,
    e: usize,
    f: usize,
    stands: &mut [bool],
    reached: &mut Vec<u32>,
) -> Result<(), AllocError>
    requires stands { length stands.old ≡ planes.now.block.n * planes.now.block.n }
    requires e { e < planes.now.block.n * planes.now.block.n }
    requires f { f < planes.now.block.n * planes.now.block.n }
    requires beside { IsTrue (is_beside planes.now.block.n e f) }
    requires reached { AreReached planes.now.block.n stands.old (e ∷ reached.old.items) }
    ensures reached { OnOk result (AreReached planes.now.block.n stands.new (e ∷ reached.new.items)) }
    ensures standing { OnOk result (StandStillIn planes.now stands.old stands.new) }
{
    if stands[f] || !stands_alike(planes, stands, f, e) {
        return Ok(());
    }
    stands[f] = true;
    reached.push(f as u32)?;
    Ok(())
}
