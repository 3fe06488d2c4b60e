//! Reads labellings from a tile's stored bytes.
ghost use Rattle.std.specs.Prelude.{◌≡◌, ◌≢◌, ◌+◌, ◌-◌, ◌*◌, ◌<◌, ◌≤◌, ◌≤ℤ◌, ◌++◌, ◌∷◌, [], ◌⊎◌, ℕ, List, None, IsTrue, IsOk, IfOk, IfErr, OnOk, length, slice_index, slice_index_or};
ghost use Rattle.lattice.specs.Block.{Block};
ghost use Rattle.lattice.specs.Limits.{largest_side};
ghost use Rattle.lattice.specs.Mosaic.{void};
ghost use Rattle.lattice.specs.declared.refusal.Refusal.TheVariants.{NoMemory, Damaged};
ghost use Rattle.tile_flood.specs.Kept.{labels_in, levels_in};
ghost use Rattle.labelling.specs.Labelling.{IsLabelling};
ghost use Rattle.labelling.specs.Raising.{raised_level};
ghost use Rattle.tile_labellings.specs.Labellings.{AreLevelsOfRim, DoMarksFit};
ghost use Rattle.tile_labellings.specs.Spots.{DoMarksFitAt, StandsAt};

use crate::bytes::{label_from, labels_from, level_from, levels_from};
use labelling::{NO_LABEL, OUT};
use lattice::{Refusal, Side, VOID, rim_index};
use std::alloc::{AllocError, Global};
use tile_flood::{Labelled, raise_at};

/// The labelling in the stored bytes of a tile.
///
/// Damaged if levels and labels don't fit each other, so that no ground has such a labelling. The other refusal is NoMemory.
pub fn labelled_from(
    alloc: Global,
    side: Side,
    levels: &[u8],
    labels: &[u8],
) -> Result<Labelled, Refusal>
    requires levels { length levels.now ≡ 2 * (side * side) }
    requires labels { length labels.now ≡ 2 * (side * side) }
    ensures side { IfOk result (λ labelled. labelled.side ≡ side) }
    ensures levels { IfOk result (λ labelled. labelled.levels ≡ levels_in levels.now) }
    ensures labels { IfOk result (λ labelled. labelled.labels ≡ labels_in labels.now) }
    ensures fit { IfOk result (λ labelled. DoMarksFit labelled.side labelled.levels labelled.labels) }
    ensures sound { (b : Block) → b.side ≡ side
        → IsLabelling b (levels_in levels.now) (labels_in labels.now)
        → ((e : ℕ) → void ≤ℤ slice_index_or b.heights e void) → IfErr result (λ r. r ≡ NoMemory) }
    ensures refusal { IfErr result (λ r. (r ≡ NoMemory) ⊎ (r ≡ Damaged)) }
{
    let levels = levels_from(alloc, levels)?;
    let labels = labels_from(alloc, labels)?;
    let Some(labelled) = Labelled::new(side, levels, labels) else {
        return Err(Refusal::Damaged);
    };
    let rim = rim_levels(alloc, &labelled)?;
    if do_marks_fit(&labelled, &rim) {
        Ok(labelled)
    } else {
        Err(Refusal::Damaged)
    }
}

/// The level and the label of one point, from two stored bytes each.
///
/// The only refusal is Damaged, if no ground has such a labelling: only one of them is that of a void, or the label is
/// neither OUT nor the number of a rim point. Whether that rim point has a level isn't checked.
pub fn labelled_at(side: Side, level: &[u8; 2], label: &[u8; 2]) -> Result<(i16, u16), Refusal>
    ensures level { IfOk result (λ label_at. (bytes : List ℕ) (e : ℕ) → StandsAt bytes e level.now
        → slice_index_or (levels_in bytes) e void ≡ label_at.0) }
    ensures label { IfOk result (λ label_at. (bytes : List ℕ) (e : ℕ) → StandsAt bytes e label.now
        → slice_index (labels_in bytes) e ≡ label_at.1) }
    ensures fit { IfOk result (λ label_at. DoMarksFitAt side label_at.0 label_at.1) }
    ensures sound { (b : Block) (levels labels : List ℕ) (e : ℕ) → b.side ≡ side
        → IsLabelling b (levels_in levels) (labels_in labels)
        → ((z : ℕ) → void ≤ℤ slice_index_or b.heights z void) → e < side * side
        → StandsAt levels e level.now → StandsAt labels e label.now → IsOk result }
    ensures refusal { IfErr result (λ r. r ≡ Damaged) }
{
    let level = level_from(level);
    let label = label_from(label);
    if do_marks_fit_at(side, level, label) {
        Ok((level, label))
    } else {
        Err(Refusal::Damaged)
    }
}

// Whether a point of a tile with this side can have this level and this label.
fn do_marks_fit_at(side: Side, level: i16, label: u16) -> bool
    ensures low { 3 ≤ side }
    ensures high { side ≤ largest_side }
    ensures yes { IsTrue result → DoMarksFitAt side level label }
    ensures no { DoMarksFitAt side level label → IsTrue result }
{
    if label == NO_LABEL {
        return level == VOID;
    }
    level != VOID && (label == OUT || u32::from(label) < side.rim())
}

// The levels of the rim, by rim number.
fn rim_levels(alloc: Global, labelled: &Labelled) -> Result<Vec<i16>, AllocError>
    ensures { IfOk result (λ rim. AreLevelsOfRim labelled.now.side labelled.now.levels rim.items) }
{
    let side = labelled.side();
    let mut rim = Vec::new(alloc);
    for number in 0..side.rim() {
        let index = rim_index(side, number);
        add(&mut rim, labelled.levels()[index as usize])?;
    }
    Ok(rim)
}

// Whether each point's level and label fit each other: `raise_at` has a result for it.
fn do_marks_fit(labelled: &Labelled, rim: &[i16]) -> bool
    ensures low { 3 ≤ labelled.now.side }
    ensures high { labelled.now.side ≤ largest_side }
    ensures yes { IsTrue result → (e : ℕ) → e < labelled.now.side * labelled.now.side
        → raised_level rim.now (slice_index_or labelled.now.levels e void) (slice_index labelled.now.labels e) ≢ None }
    ensures no { (IsTrue result → ⊥)
        → (e : ℕ) × ((e < labelled.now.side * labelled.now.side)
        × (raised_level rim.now (slice_index_or labelled.now.levels e void) (slice_index labelled.now.labels e)
        ≡ None)) }
{
    let levels = labelled.levels();
    let labels = labelled.labels();
    // A label that fits any level. Most points have the label of the point before them.
    let mut known = OUT;
    for index in 0..labelled.side().area() {
        let level = levels[index as usize];
        let label = labels[index as usize];
        if label != known || level == VOID {
            if raise_at(labelled, rim, index).is_none() {
                return false;
            }
            if level != VOID {
                known = label;
            }
        }
    }
    true
}

fn add(rim: &mut Vec<i16>, level: i16) -> Result<(), AllocError>
    ensures { OnOk result (rim.new.items ≡ rim.old.items ++ level ∷ []) }
{
    rim.push(level)?;
    Ok(())
}
