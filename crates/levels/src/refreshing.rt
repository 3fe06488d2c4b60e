//! Labellings of tiles for their current heights.
ghost use Rattle.std.specs.Prelude.{◌≡◌, ◌⊎◌, ℕ, Ok, IfOk, IfErr, IfSome, OnOk, IsTrue, Contains};
ghost use Rattle.lattice.specs.Corners.{Corner};
ghost use Rattle.lattice.specs.Mosaic.{Mosaic};
ghost use Rattle.lattice.specs.declared.refusal.Refusal.TheVariants.{NoMemory};
ghost use Rattle.catalogue.specs.Asked.{Asked};
ghost use Rattle.catalogue.specs.Endings.{ends_any};
ghost use Rattle.catalogue.specs.Readers.{OnlyReads, reads_of};
ghost use Rattle.catalogue.specs.Reading.{MayRefuse};
ghost use Rattle.tile_labellings.specs.Spots.{IsLabelledAt};
ghost use Rattle.tile_labellings.specs.TileLabellings.{labelled_of, IsCurrent, IsTileLabelling};
ghost use Rattle.levels.specs.Holding.{IsEntered};

use crate::labelling_cache::LabellingCache;
use catalogue::Samples;
use lattice::{Corner, Refusal};
use std::alloc::Global;
use tile_labellings::{Labellings, TileLabelling};

/// The labelling of tile t, which has this corner, for its current heights. It is the cached one, mended where heights may
/// have changed, or a new one. It is removed from the cache.
///
/// Damaged if there is no such tile, or if the stored values are no labelling. Other refusals are NoMemory and those of
/// reading samples.
pub(crate) fn current_labelling<S: Labellings>(
    alloc: Global,
    samples: &mut S,
    labellings: &mut LabellingCache,
    t: usize,
    corner: Corner,
) -> Result<TileLabelling, Refusal>
    ensures valid { S.is_honest samples.new
        → IsEntered (S.mosaic samples.old) corner labellings.old.held.items t
        → IfOk result (IsTileLabelling (S.mosaic samples.old) corner) }
    ensures current { IfOk result IsCurrent }
    ensures side { IfOk result (λ labelling. (labelled_of labelling).side ≡ S.side_of samples.old) }
    ensures present { OnOk result (Contains (S.corners samples.old) corner) }
    ensures left { (m : Mosaic) (c : Corner) (u : ℕ) → IsEntered m c labellings.old.held.items u
        → IsEntered m c labellings.new.held.items u }
    ensures same_side { labellings.new.side ≡ labellings.old.side }
    ensures honest { S.is_honest samples.new → S.is_honest samples.old }
    ensures mosaic { S.is_honest samples.new → S.mosaic samples.new ≡ S.mosaic samples.old }
    ensures asked { (S.is_honest samples.new → Contains (S.corners samples.old) corner)
        → Asked S.Samples samples.old samples.new result }
    ensures reads { OnOk result (OnlyReads {T = Unit {0}} S.Samples samples.old samples.new (Ok tt)) }
    ensures causes { IfErr result (λ r. IsTrue (ends_any r)) }
{
    if !samples.present(corner) {
        return Err(Refusal::Damaged);
    }
    if let Some(refreshed) = refreshed(alloc, samples, labellings, t, corner)? {
        return Ok(refreshed);
    }
    let labelling = samples.labelling(alloc, corner)?;
    Ok(labelling)
}

/// The level and the label of the point with this index in tile t, read singly from the stored levels and labels. None if
/// none are stored, or if the tile's labelling is worth caching.
///
/// Damaged if there is no such tile, or if no labelling could have the values read. Other refusals are those of reading
/// samples.
pub(crate) fn kept_label_at<S: Labellings>(
    samples: &mut S,
    labellings: &mut LabellingCache,
    t: usize,
    corner: Corner,
    index: u32,
) -> Result<Option<(i16, u16)>, Refusal>
    ensures label_at { S.is_honest samples.new
        → IfOk result (λ found. IfSome found (λ label_at. IsLabelledAt (S.mosaic samples.old) corner index label_at.0 label_at.1)) }
    ensures same { labellings.new.held.items ≡ labellings.old.held.items }
    ensures same_side { labellings.new.side ≡ labellings.old.side }
    ensures asked { (S.is_honest samples.new → Contains (S.corners samples.old) corner)
        → Asked S.Samples samples.old samples.new result }
    ensures reads { OnOk result (OnlyReads {T = Unit {0}} S.Samples samples.old samples.new (Ok tt)) }
    ensures honest { S.is_honest samples.new → S.is_honest samples.old }
    ensures mosaic { S.is_honest samples.new → S.mosaic samples.new ≡ S.mosaic samples.old }
    ensures causes { IfErr result (λ r. IsTrue (ends_any r)) }
{
    if !labellings.reads_alone(t) {
        return Ok(None);
    }
    if !samples.present(corner) {
        return Err(Refusal::Damaged);
    }
    if index >= samples.side().area() {
        return Ok(None);
    }
    let found = samples.kept_at(corner, index)?;
    Ok(found)
}

// The cached labelling of the tile, mended where heights may have changed; it is removed from the cache. None if none is
// cached, or if the tile has to be flooded anew.
fn refreshed<S: Samples>(
    alloc: Global,
    samples: &mut S,
    labellings: &mut LabellingCache,
    t: usize,
    corner: Corner,
) -> Result<Option<TileLabelling>, Refusal>
    ensures valid { S.is_honest samples.new
        → IsEntered (S.mosaic samples.old) corner labellings.old.held.items t
        → IfOk result (λ found. IfSome found (IsTileLabelling (S.mosaic samples.old) corner)) }
    ensures current { IfOk result (λ found. IfSome found IsCurrent) }
    ensures side { IfOk result (λ found. IfSome found (λ refreshed. (labelled_of refreshed).side
        ≡ S.side_of samples.old)) }
    ensures left { (m : Mosaic) (c : Corner) (u : ℕ) → IsEntered m c labellings.old.held.items u
        → IsEntered m c labellings.new.held.items u }
    ensures same_side { labellings.new.side ≡ labellings.old.side }
    ensures refusal { IfErr result (λ r. (r ≡ NoMemory)
        ⊎ MayRefuse (S.failures samples.old) (S.failures samples.new) r) }
    ensures reads { OnlyReads S.Samples samples.old samples.new (reads_of result) }
{
    let Some(held) = labellings.take(t) else {
        return Ok(None);
    };
    held.refreshed(alloc, samples, corner)
}
