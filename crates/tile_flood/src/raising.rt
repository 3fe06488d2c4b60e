//! From levels inside a block to filled levels.
ghost use Rattle.std.specs.Prelude.{◌*◌, IsTrue, IsSomeAnd, ◌≡◌, ◌<◌, ◌⊎◌, [], ◌∷◌, ◌++◌, IfOk, IfErr, OnOk, length, slice_index, slice_index_or};
ghost use Rattle.lattice.specs.Corners.{Corner};
ghost use Rattle.lattice.specs.Mosaic.{Mosaic, void};
ghost use Rattle.lattice.specs.Lattice.{point_of};
ghost use Rattle.lattice.specs.Ground.{is_ground, terrain};
ghost use Rattle.lattice.specs.Terrain.{IsFilledLevel};
ghost use Rattle.lattice.specs.declared.refusal.Refusal.TheVariants.{NoMemory, Damaged};
ghost use Rattle.labelling.specs.Raising.{IsRimFilled, AreRaised, CannotBeRaised, raised_level};
ghost use Rattle.water.specs.TileLevels.{AreTileLevels};

use crate::labelled::Labelled;
use crate::values::at;
use labelling::{NO_LABEL, OUT};
use lattice::{Refusal, VOID};
use std::alloc::{AllocError, Global};

/// The filled level of each point of a block, in metres, row by row from the north-west; -32768 for a void. It is the greater
/// of the point's in-block level and the filled level of the rim point that its label names. For the label `OUT` it is the
/// in-block level. `rim` has the filled levels of the rim by rim number; -32768 for a void rim point.
///
/// Damaged in three cases. The rim levels aren't as many as a tile has rim points. A label is no rim number and no special
/// label, or names a void rim point. Or only one of a point's level and label is that of a void. A valid labelling with the
/// filled levels of its rim is never Damaged. The other refusal is NoMemory.
pub fn raise(alloc: Global, labelled: &Labelled, rim: &[i16]) -> Result<Vec<i16>, Refusal>
    ensures filled { (m : Mosaic) (c : Corner)
        → IsRimFilled m c labelled.now.side labelled.now.levels labelled.now.labels rim.now
        → IfOk result (λ filled. AreTileLevels m c filled.items) }
    ensures not_damaged { (m : Mosaic) (c : Corner)
        → IsRimFilled m c labelled.now.side labelled.now.levels labelled.now.labels rim.now
        → IfErr result (λ refusal. refusal ≡ NoMemory) }
    ensures value { IfOk result (λ filled. AreRaised labelled.now.side labelled.now.levels labelled.now.labels rim.now filled.items) }
    ensures refusal { IfErr result (λ refusal. (refusal ≡ NoMemory)
        ⊎ ((refusal ≡ Damaged)
        × CannotBeRaised labelled.now.side labelled.now.levels labelled.now.labels rim.now)) }
{
    let side = labelled.side();
    if rim.len() != 4 * (side.samples() as usize - 1) {
        return Err(Refusal::Damaged);
    }
    let levels = labelled.levels();
    let labels = labelled.labels();
    let mut filled = Vec::with_capacity(alloc, levels.len())?;
    for e in 0..levels.len() {
        let Some(level) = raised(rim, levels, labels, e) else {
            return Err(Refusal::Damaged);
        };
        add(&mut filled, level)?;
    }
    Ok(filled)
}

/// The filled level of the point with this index, in metres; -32768 for a void. It equals what `raise` computes, without the
/// rest of the tile. None if the point can't be raised. Allocates nothing.
pub fn raise_at(labelled: &Labelled, rim: &[i16], index: u32) -> Option<i16>
    requires { index < labelled.now.side * labelled.now.side }
    ensures filled { (m : Mosaic) (c : Corner)
        → IsRimFilled m c labelled.now.side labelled.now.levels labelled.now.labels rim.now
        → IsSomeAnd result (λ level. IsTrue (is_ground m (point_of m.side c index))
        → IsFilledLevel (terrain m) (point_of m.side c index) level) }
    ensures value { result ≡ raised_level rim.now (slice_index_or labelled.now.levels index void) (slice_index labelled.now.labels index) }
{
    let levels = labelled.levels();
    let labels = labelled.labels();
    raised(rim, levels, labels, index as usize)
}

// The filled level of point e; None if it can't be raised.
fn raised(rim: &[i16], levels: &[i16], labels: &[u16], e: usize) -> Option<i16>
    requires e { (e < length levels.now) × (e < length labels.now) }
    ensures { result ≡ raised_level rim.now (slice_index_or levels.now e void) (slice_index labels.now e) }
{
    let level = at(levels, e);
    let label = labels[e];
    let is_void = level == VOID;
    if label == NO_LABEL {
        return if is_void { Some(VOID) } else { None };
    }
    if is_void {
        return None;
    }
    if label == OUT {
        return Some(level);
    }
    let over = rim.get(label as usize).copied().unwrap_or(VOID);
    if over == VOID {
        None
    } else {
        Some(level.max(over))
    }
}

fn add(filled: &mut Vec<i16>, level: i16) -> Result<(), AllocError>
    ensures { OnOk result (filled.new.items ≡ filled.old.items ++ level ∷ []) }
{
    filled.push(level)?;
    Ok(())
}
