//! A cached labelling of a tile.
ghost use Rattle.std.specs.Prelude.{◌≡◌, ◌≢◌, ◌<◌, ◌<ℤ◌, ◌≤ℤ◌, ◌⊎◌, ◌↔◌, true, false, IfErr, IfNone, IfOk, IfSome, Ok, Some, IsTrue, length, slice_index_or};
ghost use Rattle.lattice.specs.Corners.{Corner};
ghost use Rattle.lattice.specs.Lattice.{point_of};
ghost use Rattle.lattice.specs.Mosaic.{Mosaic, void};
ghost use Rattle.lattice.specs.declared.refusal.Refusal.TheVariants.{NoMemory};
ghost use Rattle.catalogue.specs.Readers.{OnlyReads, reads_of};
ghost use Rattle.catalogue.specs.Reading.{MayRefuse};
ghost use Rattle.labelling.specs.Spills.{AreSpills};
ghost use Rattle.tile_labellings.specs.Labellings.{IsFlooded};
ghost use Rattle.tile_labellings.specs.TileLabellings.{IsBelowLevel};

use crate::flooded_block::FloodedBlock;
use catalogue::Samples;
use labelling::Spill;
use lattice::{Corner, Refusal, VOID};
use std::alloc::Global;
use tile_flood::{Labelled, spills};

/// The labelling of a tile. Either it was stored, is valid, and may be impossible to mend; or it belongs to a flooded block.
#[derive(Drop)]
pub enum TileLabelling {
    Kept(Labelled),
    Flooded(FloodedBlock),
}

impl TileLabelling {
    ghost use Rattle.tile_labellings.specs.TileLabellings.{labelled_of, is_flooded, can_note, DifferAt, IsBelow, IsCurrent, IsSetFrom, IsStill, IsTileLabelling};

    /// The levels and labels. They are the tile's if no height may have changed since they were computed.
    pub fn labelled(&self) -> &Labelled
        ensures value { result.now ≡ labelled_of self.now }
        ensures flooded { (m : Mosaic) (c : Corner) → IsCurrent self.now
            → IsTileLabelling m c self.now → IsFlooded m c result.now }
    {
        match self {
            TileLabelling::Kept(labelled) => labelled,
            TileLabelling::Flooded(flooded) => flooded.labelled(),
        }
    }

    /// Whether the labelling belongs to a flooded block, so that the levels of its rim are heights.
    pub fn is_flooded(&self) -> bool
        ensures { result ≡ is_flooded self.now }
    {
        match self {
            TileLabelling::Flooded(_) => true,
            _ => false,
        }
    }

    /// The spills of the labelling, computed, or cached with a flooded block. The only refusal is NoMemory.
    pub fn spills(&mut self, alloc: Global) -> Result<Vec<Spill>, Refusal>
        ensures same { self.new ≡ self.old }
        ensures spills { IfOk result (λ spills. AreSpills (labelled_of self.old).side (labelled_of self.old).levels (labelled_of self.old).levels (labelled_of self.old).labels spills.items) }
        ensures refusal { IfErr result (λ r. r ≡ NoMemory) }
    {
        match self {
            TileLabelling::Kept(labelled) => spills(alloc, labelled),
            TileLabelling::Flooded(flooded) => flooded.spills(alloc),
        }
    }

    /// Whether no height can have changed since the labelling was computed.
    pub fn is_current(&self) -> bool
        ensures { IsTrue result ↔ IsCurrent self.now }
    {
        match self {
            TileLabelling::Kept(_) => true,
            TileLabelling::Flooded(flooded) => flooded.count_changed() == 0,
        }
    }

    /// Whether levels and labels stay when the height of the tile's point with this index goes from `was` to `to`, in metres.
    /// That is so if the point lay below its level and doesn't rise above it. False if some level may have changed already.
    pub fn is_below(&self, index: u32, was: i16, to: i16) -> bool
        ensures yes { IsTrue result → IsBelow self.now index was to }
        ensures no { IsBelow self.now index was to → IsTrue result }
    {
        self.is_still() && stays_below(self.labelled(), index, was, to)
    }

    // Whether no level and no label can have changed since the labelling was computed.
    fn is_still(&self) -> bool
        ensures { IsTrue result ↔ IsStill self.now }
    {
        match self {
            TileLabelling::Kept(_) => true,
            TileLabelling::Flooded(flooded) => flooded.is_still(),
        }
    }

    /// Records that the height of the tile's point with this index may have gone from `was` to `to`, in metres. False if that
    /// can't be recorded: then the labelling has to be dropped. A flooded block can record 64 such points. A stored labelling
    /// stays valid if the point lay below its level and doesn't rise above it. Allocates nothing.
    pub fn note_changed(&mut self, index: u32, was: i16, to: i16) -> bool
        ensures noted { IsTrue result → (m new : Mosaic) (c : Corner) → DifferAt c index m new
            → IsSetFrom m new (point_of m.side c index) was to → IsTileLabelling m c self.old
            → IsTileLabelling new c self.new }
        ensures labelled { IsTrue result → labelled_of self.new ≡ labelled_of self.old }
        ensures flooded { is_flooded self.new ≡ is_flooded self.old }
        ensures room { can_note self.old ≡ true → IsTrue result }
    {
        let stays = self.is_below(index, was, to);
        match self {
            TileLabelling::Kept(_) => stays,
            TileLabelling::Flooded(flooded) => flooded.note_changed(index, stays),
        }
    }

    /// The labelling of the corner's tile for its current heights, mended where some may have changed. None if the tile has
    /// to be flooded anew. Only points that may have changed are read. Refusals are NoMemory and those of reading samples.
    pub fn refreshed<S: Samples>(
        self,
        alloc: Global,
        samples: &mut S,
        corner: Corner,
    ) -> Result<Option<TileLabelling>, Refusal>
        ensures valid { S.is_honest samples.new → IsTileLabelling (S.mosaic samples.old) corner self
            → IfOk result (λ found. IfSome found (IsTileLabelling (S.mosaic samples.old) corner)) }
        ensures current { IfOk result (λ found. IfSome found IsCurrent) }
        ensures unchanged { IsCurrent self → (labelled_of self).side ≡ S.side_of samples.old
            → result ≡ Ok (Some self) }
        ensures side { IfOk result (λ found. IfSome found (λ refreshed. (labelled_of refreshed).side
            ≡ S.side_of samples.old)) }
        ensures refusal { IfErr result (λ r. (r ≡ NoMemory)
            ⊎ MayRefuse (S.failures samples.old) (S.failures samples.new) r) }
        ensures reads { OnlyReads S.Samples samples.old samples.new (reads_of result) }
    {
        if self.labelled().side() != samples.side() {
            return Ok(None);
        }
        match self {
            TileLabelling::Kept(labelled) => Ok(Some(TileLabelling::Kept(labelled))),
            TileLabelling::Flooded(flooded) => {
                let Some(mended) = flooded.mended(alloc, samples, corner)? else {
                    return Ok(None);
                };
                Ok(Some(TileLabelling::Flooded(mended)))
            }
        }
    }

    /// The labelling without its block, so that it can't be mended. None if heights may have changed already.
    pub fn without_block(self) -> Option<TileLabelling>
        ensures valid { IfSome result (λ left. (m : Mosaic) (c : Corner) → IsTileLabelling m c self
            → IsTileLabelling m c left) }
        ensures labelled { IfSome result (λ left. labelled_of left ≡ labelled_of self) }
        ensures kept { IfSome result (λ left. is_flooded left ≡ false) }
        ensures current { IfNone result (IsCurrent self → ⊥) }
    {
        if !self.is_current() {
            return None;
        }
        match self {
            TileLabelling::Kept(labelled) => Some(TileLabelling::Kept(labelled)),
            TileLabelling::Flooded(flooded) => Some(TileLabelling::Kept(flooded.into_labelled())),
        }
    }
}

// Whether the point with this index lay below its level, and doesn't rise above it.
fn stays_below(labelled: &Labelled, index: u32, was: i16, to: i16) -> bool
    ensures yes { IsTrue result → IsBelowLevel labelled.now.levels index was to }
    ensures no { IsBelowLevel labelled.now.levels index was to → IsTrue result }
{
    match labelled.levels().get(index as usize) {
        Some(level) => was < *level && to != VOID && to <= *level,
        None => false,
    }
}
