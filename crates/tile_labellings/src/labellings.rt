//! Labellings of tiles, either flooded or stored.
ghost use Rattle.std.specs.Prelude.{◌≡◌, ◌⊎◌, ◌*◌, ◌<◌, [], IsTrue, IfOk, IfErr, IfSome, Contains};
ghost use Rattle.lattice.specs.Block.{IsBlockOf};
ghost use Rattle.lattice.specs.declared.refusal.Refusal.TheVariants.{NoMemory};
ghost use Rattle.catalogue.specs.Asked.{Asked};
ghost use Rattle.catalogue.specs.Endings.{ends_any};
ghost use Rattle.catalogue.specs.Readers.{OnlyReads, reads_of};
ghost use Rattle.catalogue.specs.Reading.{MayRefuse};
ghost use Rattle.tile_labellings.specs.Labellings.{IsFloodedTile};
ghost use Rattle.tile_labellings.specs.Spots.{IsLabelledAt};
ghost use Rattle.tile_labellings.specs.TileLabellings.{labelled_of, IsCurrent, IsTileLabelling};

use crate::flooded_block::FloodedBlock;
use crate::tile_labelling::TileLabelling;
use catalogue::{Samples, Table, block_heights};
use lattice::{Corner, Refusal, sinks_in};
use std::alloc::Global;
use tile_flood::{Block, Labelled};

/// Samples with a labelling for each tile, either flooded or stored.
pub trait Labellings: Samples {
    /// A valid labelling of the corner's tile: a stored one, or a flooded one with its block.
    ///
    /// Refusals are NoMemory, those of reading samples, and Damaged if the stored values are no labelling. Samples can still
    /// be read after a refusal.
    fn labelling(&mut self, alloc: Global, corner: Corner) -> Result<TileLabelling, Refusal>
        requires { Contains (Self.corners self.old) corner }
        ensures valid { Self.is_honest self.new
            → IfOk result (IsTileLabelling (Self.mosaic self.old) corner) }
        ensures current { IfOk result IsCurrent }
        ensures side { IfOk result (λ labelling. (labelled_of labelling).side
            ≡ Self.side_of self.old) }
        ensures causes { IfErr result (λ r. IsTrue (ends_any r)) }
        ensures asked { Asked Self.Samples self.old self.new result };

    /// The level and the label of one point, by index, in a valid labelling of the corner's tile. None unless they are stored
    /// in such a form that they can be read alone.
    ///
    /// Refusals are those of reading samples, and Damaged if no labelling has the stored values of the point. Samples can
    /// still be read after a refusal.
    fn kept_at(&mut self, corner: Corner, index: u32) -> Result<Option<(i16, u16)>, Refusal>
        requires corner { Contains (Self.corners self.old) corner }
        requires index { index < Self.side_of self.old * Self.side_of self.old }
        ensures valid { Self.is_honest self.new
            → IfOk result (λ found. IfSome found (λ label_at. IsLabelledAt (Self.mosaic self.old) corner index label_at.0 label_at.1)) }
        ensures causes { IfErr result (λ r. IsTrue (ends_any r)) }
        ensures asked { Asked Self.Samples self.old self.new result };
}

/// Floods the block of the corner's tile, or restores its labelling from this one, which may contain anything. It reads the
/// tile's samples, and on its rim those of its neighbours. Refusals are NoMemory and those of reading samples.
pub fn flooded<S: Samples>(
    alloc: Global,
    samples: &mut S,
    corner: Corner,
    past: Option<Labelled>,
) -> Result<FloodedBlock, Refusal>
    requires { Contains (S.corners samples.old) corner }
    ensures valid { S.is_honest samples.new
        → IfOk result (IsFloodedTile (S.mosaic samples.old) corner) }
    ensures current { IfOk result (λ flooded. flooded.changed ≡ []) }
    ensures side { IfOk result (λ flooded. flooded.labelled.side ≡ S.side_of samples.old) }
    ensures refusal { IfErr result (λ r. (r ≡ NoMemory)
        ⊎ MayRefuse (S.failures samples.old) (S.failures samples.new) r) }
    ensures reads { OnlyReads S.Samples samples.old samples.new (reads_of result) }
{
    let block = block_of(alloc, samples, corner)?;
    FloodedBlock::new(alloc, block, past)
}

// The block of the corner's tile.
fn block_of<S: Samples>(alloc: Global, samples: &mut S, corner: Corner) -> Result<Block, Refusal>
    requires { Contains (S.corners samples.old) corner }
    ensures ground { S.is_honest samples.new
        → IfOk result (λ block. IsBlockOf (S.mosaic samples.old) corner block) }
    ensures side { IfOk result (λ block. block.side ≡ S.side_of samples.old) }
    ensures refusal { IfErr result (λ r. (r ≡ NoMemory)
        ⊎ MayRefuse (S.failures samples.old) (S.failures samples.new) r) }
    ensures reads { OnlyReads S.Samples samples.old samples.new (reads_of result) }
{
    let heights = block_heights(alloc, samples, corner)?;
    let side = samples.side();
    let sinks = sinks_in(side, corner, samples.sinks());
    match Block::new(side, heights, sinks) {
        Some(block) => Ok(block),
        None => unreachable!(),
    }
}

impl Labellings for Table {
    fn labelling(&mut self, alloc: Global, corner: Corner) -> Result<TileLabelling, Refusal> {
        Ok(TileLabelling::Flooded(flooded(alloc, self, corner, None)?))
    }

    // A table stores no labellings.
    fn kept_at(&mut self, _corner: Corner, _index: u32) -> Result<Option<(i16, u16)>, Refusal> {
        Ok(None)
    }
}
