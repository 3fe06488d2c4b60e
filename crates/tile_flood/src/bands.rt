//! The passages between labels, by bands of rows. After a mending only few bands have to be searched again.
ghost use Rattle.std.specs.Prelude.{◌≡◌, ◌<◌, ◌≤◌, ◌*◌, ◌+◌, ℕ, ℤ, List, true, false, IfOk, IfErr, OnOk, IsTrue, length, slice_set, slice_index_or};
ghost use Rattle.std.specs.Global.{Vec as VecOf};
ghost use Rattle.lattice.specs.declared.refusal.Refusal.TheVariants.{NoMemory};
ghost use Rattle.labelling.specs.Spills.{AreSpills};
ghost use Rattle.labelling.specs.declared.spill.Spill.{Spill as SpillOf};
ghost use Rattle.tile_flood.specs.Bands.{AreBands, AreOfBand, AreOfPoints};

use crate::labelled::Labelled;
use crate::passing::{Passages, first_of_each, gather_row};
use crate::views::LabelledView;
use labelling::Spill;
use lattice::Refusal;
use std::alloc::{AllocError, Global};

// The number of rows of a band.
pub(crate) const BAND: usize = 32;

/// For each band of 32 rows, the passages from its points to later points with another label.
pub fn spill_bands(alloc: Global, labelled: &Labelled) -> Result<Vec<Vec<Spill>>, AllocError>
    ensures { IfOk result (λ bands. AreBands labelled.now.side labelled.now.levels labelled.now.labels bands.items) }
{
    let view = labelled.view();
    let mut bands = Vec::new(alloc);
    while bands.len() * BAND < view.n {
        let band = band(alloc, &view, bands.len())?;
        bands.push(band)?;
    }
    Ok(bands)
}

/// Searches the bands again that may have changed.
pub fn renew_bands(
    alloc: Global,
    labelled: &Labelled,
    bands: &mut Vec<Vec<Spill>>,
    changed: &[bool],
) -> Result<(), AllocError>
    requires few { length bands.old.items ≤ labelled.now.side }
    requires whole { labelled.now.side ≤ length bands.old.items * 32 }
    requires still { (b : ℕ) (d : VecOf SpillOf) → b < length bands.old.items → b < length changed.now
        → slice_index_or changed.now b true ≡ false
        → AreOfBand labelled.now.side labelled.now.levels labelled.now.labels b (slice_index_or bands.old.items b d).items }
    ensures { OnOk result (AreBands labelled.now.side labelled.now.levels labelled.now.labels bands.new.items) }
{
    let view = labelled.view();
    for b in 0..bands.len() {
        if !is_still(changed, b) {
            let band = band(alloc, &view, b)?;
            put(bands, b, band);
        }
    }
    Ok(())
}

fn put(bands: &mut Vec<Vec<Spill>>, b: usize, band: Vec<Spill>)
    requires { b < length bands.old.items }
    ensures { bands.new.items ≡ slice_set bands.old.items b band }
{
    bands[b] = band;
}

// Whether `changed` says that the band hasn't changed.
fn is_still(changed: &[bool], b: usize) -> bool
    ensures { IsTrue result → (b < length changed.now) × (slice_index_or changed.now b true ≡ false) }
{
    b < changed.len() && !changed[b]
}

/// The spills of a labelling, from its bands. The only refusal is NoMemory.
pub fn spills_of(alloc: Global, bands: &[Vec<Spill>]) -> Result<Vec<Spill>, Refusal>
    ensures spills { IfOk result (λ spills. (n : ℕ) (levels : List ℤ) (labels : List ℕ) → AreBands n levels labels bands.now
        → AreSpills n levels levels labels spills.items) }
    ensures refusal { IfErr result (λ refusal. refusal ≡ NoMemory) }
{
    let mut found = joined(alloc, bands)?;
    found.sort()?;
    Ok(first_of_each(alloc, &found)?)
}

// The passages of all bands, in one list.
fn joined(alloc: Global, bands: &[Vec<Spill>]) -> Result<Vec<Spill>, AllocError>
    ensures { IfOk result (λ found. (n : ℕ) (levels : List ℤ) (labels : List ℕ) → AreBands n levels labels bands.now
        → AreOfPoints n levels labels 0 ((length bands.now * 32) * n) found.items) }
{
    let mut found = Vec::new(alloc);
    for b in 0..bands.len() {
        found.extend_from_slice(&bands[b])?;
    }
    Ok(found)
}

// The passages from the band's points to later points with another label.
fn band(alloc: Global, view: &LabelledView, b: usize) -> Result<Vec<Spill>, AllocError>
    requires { b < view.now.n }
    ensures { IfOk result (λ found. AreOfBand view.now.n view.now.levels.now view.now.labels.now b found.items) }
{
    let mut passages = Passages::new(alloc)?;
    let from = (b * BAND).min(view.n);
    let end = (b * BAND + BAND).min(view.n);
    for i in from..end {
        gather_row(view, i, &mut passages)?;
    }
    Ok(passages.found)
}
