//! The spills of a labelling, cached through mendings.
ghost use Rattle.std.specs.Prelude.{◌≡◌, ◌<◌, ℕ, true, false, IfOk, IfErr, IfSome, IsTrue, IsFalse, length, slice_index_or};
ghost use Rattle.lattice.specs.declared.refusal.Refusal.TheVariants.{NoMemory};
ghost use Rattle.labelling.specs.Blocks.{LabelledGround};
ghost use Rattle.tile_flood.specs.Bands.{StayInBands};
ghost use Rattle.tile_labellings.specs.Labellings.{AreHeldSpills, AreSpillsHeld};
ghost use Rattle.tile_labellings.specs.HeldSpills.{AreJoined, AreSpillsOfBands};

use labelling::Spill;
use lattice::Refusal;
use std::alloc::{AllocError, Global};
use tile_flood::{Labelled, Mended, renew_bands, spill_bands, spills_of};

/// The passages between the labels of a labelling, by bands of rows, and the spills computed from them.
#[derive(Drop)]
pub(crate) struct HeldSpills {
    bands: Vec<Vec<Spill>>,
    // None if some band has changed since the spills were computed.
    spills: Option<Vec<Spill>>,
}

impl HeldSpills {
    /// The passages of this labelling, without spills.
    fn new(alloc: Global, labelled: &Labelled) -> Result<HeldSpills, AllocError>
        ensures { IfOk result (AreSpillsHeld labelled.now) }
    {
        Ok(HeldSpills {
            bands: spill_bands(alloc, labelled)?,
            spills: None,
        })
    }

    /// The spills of the labelling. The only refusal is NoMemory.
    pub(crate) fn joined(&mut self, alloc: Global) -> Result<Vec<Spill>, Refusal>
        requires { AreJoined self.old.bands.items self.old.spills }
        ensures same { self.new.bands ≡ self.old.bands }
        ensures joined { AreJoined self.new.bands.items self.new.spills }
        ensures spills { IfOk result (λ spills. AreSpillsOfBands self.old.bands.items spills.items) }
        ensures refusal { IfErr result (λ r. r ≡ NoMemory) }
    {
        if let Some(held) = &self.spills {
            return Ok(Vec::from_slice(alloc, held)?);
        }
        let found = spills_of(alloc, &self.bands)?;
        let copy = Vec::from_slice(alloc, &found)?;
        self.spills = Some(found);
        Ok(copy)
    }

    /// The passages of the mended labelling; changed bands are searched again. None if memory is lacking.
    pub(crate) fn renewed(self, alloc: Global, mended: &Mended) -> Option<HeldSpills>
        requires { (old : LabelledGround) × ((old.side ≡ mended.now.labelled.side)
            × (StayInBands old mended.now.labelled mended.now.changed_bands.items
            × AreSpillsHeld old self)) }
        ensures { IfSome result (AreSpillsHeld mended.now.labelled) }
    {
        if !has_changed(self.bands.len(), &mended.changed_bands) {
            return Some(self);
        }
        let mut bands = self.bands;
        renew_bands(alloc, &mended.labelled, &mut bands, &mended.changed_bands).ok()?;
        Some(HeldSpills {
            bands,
            spills: None,
        })
    }
}

/// The cached passages; if there are none, those of the labelling.
pub(crate) fn held_or_new(
    alloc: Global,
    spills: Option<HeldSpills>,
    labelled: &Labelled,
) -> Result<HeldSpills, AllocError>
    requires { AreHeldSpills labelled.now spills }
    ensures { IfOk result (AreSpillsHeld labelled.now) }
{
    match spills {
        Some(held) => Ok(held),
        None => HeldSpills::new(alloc, labelled),
    }
}

// Whether one of the first `count` bands may have changed.
fn has_changed(count: usize, changed: &[bool]) -> bool
    ensures { IsFalse result → (b : ℕ) → b < count → (b < length changed.now)
        × (slice_index_or changed.now b true ≡ false) }
{
    for b in 0..count {
        if !is_said_still(changed, b) {
            return true;
        }
    }
    false
}

fn is_said_still(changed: &[bool], b: usize) -> bool
    ensures { IsTrue result → (b < length changed.now)
        × (slice_index_or changed.now b true ≡ false) }
{
    b < changed.len() && !changed[b]
}
