//! Flooded blocks, whose labellings are mended after heights change.
ghost use Rattle.std.specs.Prelude.{◌≡◌, ◌<◌, ◌≤◌, ◌⊎◌, ◌&&◌, ℕ, ℤ, [], true, false, Contains, IfOk, IfErr, IfSome, Ok, Some, IsTrue, IsFalse, length, slice_set, slice_index_or};
ghost use Rattle.lattice.specs.Block.{Block, is_solid};
ghost use Rattle.lattice.specs.Corners.{Corner};
ghost use Rattle.lattice.specs.Ground.{metres};
ghost use Rattle.lattice.specs.Height.{height_of};
ghost use Rattle.lattice.specs.Lattice.{point_of};
ghost use Rattle.lattice.specs.Mosaic.{Mosaic, void};
ghost use Rattle.lattice.specs.declared.refusal.Refusal.TheVariants.{NoMemory};
ghost use Rattle.catalogue.specs.Readers.{OnlyReads, reads_of};
ghost use Rattle.catalogue.specs.Reading.{MayRefuse};
ghost use Rattle.labelling.specs.Blocks.{LabelledGround};
ghost use Rattle.tile_flood.specs.Carried.{AreCarried};
ghost use Rattle.labelling.specs.Labelling.{IsLabelling};
ghost use Rattle.tile_flood.specs.Mending.{IsLabelledBefore};
ghost use Rattle.labelling.specs.Spills.{AreSpills};
ghost use Rattle.tile_flood.specs.Bands.{StayInBands};
ghost use Rattle.tile_labellings.specs.Labellings.{AreHeldSpills, IsFlooded, IsFloodedTile, IsBlockBut};
ghost use Rattle.tile_labellings.specs.TileLabellings.{most_changed};
ghost use Rattle.tile_labellings.specs.Updating.{IsUpdated, IsListedUnlessBelow};

use crate::held_spills::{HeldSpills, held_or_new};
use arrayvec::ArrayVec;
use catalogue::{Samples, height};
use labelling::Spill;
use lattice::{Corner, Height, Refusal, VOID, point_at};
use std::alloc::Global;
use std::marker::Model;
use tile_flood::{Block, Flood, Labelled, Mended, mend, restore};

// If more points than this may have changed, the block is flooded anew: mending many points takes as long as a flood.
const MOST_CHANGED: usize = 64;

/// A flooded block, its labelling, and its points whose heights may have changed since.
#[derive(Drop)]
pub struct FloodedBlock {
    block: Block,
    labelled: Labelled,
    changed: ArrayVec<u32, MOST_CHANGED>,
    // Whether the changed heights left each level and each label the same.
    still: bool,
    // The passages between the block's labels; None until a caller needs spills.
    spills: Option<HeldSpills>,
}

impl Model for FloodedBlock {
    ghost use Rattle.tile_labellings.specs.Labellings.{FloodedGround, AreHeldSpills, IsFloodOf};

    ghost Value = { FloodedGround };

    ghost view = { λ f. record { block = f.block; labelled = f.labelled; changed = f.changed.items; still = f.still } };

    ghost invariant = { λ f. IsFloodOf f.block f.labelled × AreHeldSpills f.labelled f.spills };
}

impl FloodedBlock {
    /// The block with its labelling, which is restored from an earlier one or flooded. The only refusal is NoMemory.
    pub fn new(alloc: Global, block: Block, past: Option<Labelled>) -> Result<FloodedBlock, Refusal>
        ensures block { IfOk result (λ flooded. flooded.block ≡ block) }
        ensures side { IfOk result (λ flooded. flooded.labelled.side ≡ block.side) }
        ensures current { IfOk result (λ flooded. flooded.changed ≡ []) }
        ensures valid { IfOk result (λ flooded. (m : Mosaic) (c : Corner) → IsBlockBut m c [] block
            → IsFloodedTile m c flooded) }
        ensures refusal { IfErr result (λ r. r ≡ NoMemory) }
    {
        let labelled = labelled_of(alloc, &block, past)?;
        Ok(FloodedBlock {
            block,
            labelled,
            changed: ArrayVec::new(),
            still: true,
            spills: None,
        })
    }

    /// The block's labelling after it was last flooded or mended.
    pub fn labelled(&self) -> &Labelled
        ensures value { result.now ≡ self.now.labelled }
        ensures flooded { (m : Mosaic) (c : Corner) → self.now.changed ≡ []
            → IsBlockBut m c self.now.changed self.now.block → IsFlooded m c self.now.labelled }
    {
        &self.labelled
    }

    /// The spills of the labelling. They are cached with their passages, by bands of rows. A mending renews the bands in
    /// which a border between labels, or a level next to one, may have changed. The only refusal is NoMemory.
    pub fn spills(&mut self, alloc: Global) -> Result<Vec<Spill>, Refusal>
        ensures same { self.new ≡ self.old }
        ensures spills { IfOk result (λ spills. AreSpills self.old.labelled.side self.old.labelled.levels self.old.labelled.levels self.old.labelled.labels spills.items) }
        ensures refusal { IfErr result (λ r. r ≡ NoMemory) }
    {
        let mut held = held_or_new(alloc, self.spills.take(), &self.labelled)?;
        let found = held.joined(alloc);
        self.spills = Some(held);
        found
    }

    /// Drops the block and returns its labelling, which can't be mended afterwards.
    pub fn into_labelled(self) -> Labelled
        ensures value { result ≡ self.labelled }
        ensures flooded { (m : Mosaic) (c : Corner) → self.changed ≡ []
            → IsBlockBut m c self.changed self.block → IsFlooded m c result }
    {
        self.labelled
    }

    /// The number of points whose heights may have changed.
    pub fn count_changed(&self) -> usize
        ensures { result ≡ length self.now.changed }
    {
        self.changed.len()
    }

    /// Whether the changed heights left each level and each label the same.
    pub fn is_still(&self) -> bool
        ensures { result ≡ self.now.still }
    {
        self.still
    }

    /// Records that the height of the point with this index may have changed; `stays` says whether levels and labels are
    /// unchanged. False if the list of such points is full. Allocates nothing.
    pub fn note_changed(&mut self, index: u32, stays: bool) -> bool
        ensures block { self.new.block ≡ self.old.block }
        ensures labelled { self.new.labelled ≡ self.old.labelled }
        ensures noted { IsTrue result → Contains self.new.changed index }
        ensures kept { (e : ℕ) → Contains self.old.changed e → Contains self.new.changed e }
        ensures still { IsTrue result → self.new.still ≡ (self.old.still && stays) }
        ensures full { IsFalse result → most_changed ≤ length self.old.changed }
    {
        if !self.changed.as_slice().contains(&index) && self.changed.try_push(index).is_err() {
            return false;
        }
        self.still = self.still && stays;
        true
    }

    /// The block of the corner's tile with the current heights of its changed points, and its mended labelling. None if a
    /// change made or removed ground: then the block has to be flooded anew. Only the changed points are read. Refusals are
    /// NoMemory and those of reading samples.
    pub fn mended<S: Samples>(
        self,
        alloc: Global,
        samples: &mut S,
        corner: Corner,
    ) -> Result<Option<FloodedBlock>, Refusal>
        ensures right { S.is_honest samples.new
            → IsBlockBut (S.mosaic samples.old) corner self.changed self.block
            → IfOk result (λ found. IfSome found (IsFloodedTile (S.mosaic samples.old) corner)) }
        ensures current { IfOk result (λ found. IfSome found (λ mended. mended.changed ≡ [])) }
        ensures unchanged { self.changed ≡ [] → result ≡ Ok (Some self) }
        ensures side { IfOk result (λ found. IfSome found (λ mended. mended.labelled.side ≡ self.labelled.side)) }
        ensures refusal { IfErr result (λ r. (r ≡ NoMemory)
            ⊎ MayRefuse (S.failures samples.old) (S.failures samples.new) r) }
        ensures reads { OnlyReads S.Samples samples.old samples.new (reads_of result) }
    {
        if self.changed.len() == 0 {
            return Ok(Some(self));
        }
        let mut block = self.block;
        let labelled = self.labelled;
        let changed = self.changed;
        let mut points = ArrayVec::new();
        if !read_changed(
            samples,
            corner,
            &labelled,
            changed.as_slice(),
            &mut block,
            &mut points,
        )? {
            return Ok(None);
        }
        let mended = mend(alloc, &block, labelled, points.as_slice())?;
        let spills = renewed(alloc, self.spills, &mended);
        Ok(Some(FloodedBlock {
            block,
            labelled: mended.labelled,
            changed: ArrayVec::new(),
            still: true,
            spills,
        }))
    }
}

// The labelling of the block: restored from the earlier one, or flooded.
fn labelled_of(alloc: Global, block: &Block, past: Option<Labelled>) -> Result<Labelled, Refusal>
    ensures side { IfOk result (λ labelled. labelled.side ≡ block.now.side) }
    ensures labelling { IfOk result (λ labelled. IsLabelling block.now labelled.levels labelled.labels) }
    ensures carried { IfOk result (λ labelled. AreCarried block.now labelled.levels labelled.labels) }
    ensures refusal { IfErr result (λ refusal. refusal ≡ NoMemory) }
{
    if let Some(past) = past {
        if past.side() == block.side() {
            return Ok(restore(alloc, block, past)?.labelled);
        }
    }
    Flood::run(alloc, block)
}

// The cached spills after a mending; None if memory is lacking.
fn renewed(alloc: Global, spills: Option<HeldSpills>, mended: &Mended) -> Option<HeldSpills>
    requires { (old : LabelledGround) × ((old.side ≡ mended.now.labelled.side)
        × (StayInBands old mended.now.labelled mended.now.changed_bands.items × AreHeldSpills old spills)) }
    ensures { AreHeldSpills mended.now.labelled result }
{
    let held = spills?;
    held.renewed(alloc, mended)
}

// Reads the current heights of the block's changed points, and lists the points that may change a level or a label. False if
// a point wasn't ground before or isn't now, or if the list is full.
fn read_changed<S: Samples>(
    samples: &mut S,
    corner: Corner,
    labelled: &Labelled,
    changed: &[u32],
    block: &mut Block,
    points: &mut ArrayVec<u32, MOST_CHANGED>,
) -> Result<bool, Refusal>
    requires before { IsLabelledBefore block.old points.old.items labelled.now.levels labelled.now.labels }
    ensures before { IfOk result (λ done. IsTrue done
        → IsLabelledBefore block.new points.new.items labelled.now.levels labelled.now.labels) }
    ensures side { IfOk result (λ done. IsTrue done → block.new.side ≡ block.old.side) }
    ensures right { S.is_honest samples.new
        → IsBlockBut (S.mosaic samples.old) corner changed.now block.old
        → IfOk result (λ done. IsTrue done
        → IsBlockBut (S.mosaic samples.old) corner [] block.new) }
    ensures reads { OnlyReads S.Samples samples.old samples.new result }
{
    for k in 0..changed.len() {
        let Some(was) = read_height(samples, corner, changed[k], block)? else {
            return Ok(false);
        };
        if !list_unless_below(labelled, block, changed[k], was, points) {
            return Ok(false);
        }
    }
    Ok(true)
}

// Reads the current height of the block's point with this index. Returns its earlier height; None if the point wasn't ground
// before or isn't now.
fn read_height<S: Samples>(
    samples: &mut S,
    corner: Corner,
    index: u32,
    block: &mut Block,
) -> Result<Option<i16>, Refusal>
    ensures updated { IfOk result (λ found. IfSome found (λ was. (was ≡ slice_index_or block.old.heights index void)
        × ((h : ℤ)
        × (IsUpdated block.old index h block.new
        × (S.is_honest samples.new
        → h ≡ metres (height_of (S.mosaic samples.old) (point_of block.old.side corner index))))))) }
    ensures reads { OnlyReads S.Samples samples.old samples.new result }
{
    let side = block.side();
    if index >= side.area() {
        return Ok(None);
    }
    let Height::At(metres) = height(samples, point_at(side, corner, index))? else {
        return Ok(None);
    };
    let was = block.heights()[index as usize];
    if was == VOID || metres == VOID {
        return Ok(None);
    }
    block.set_height(index as usize, metres);
    Ok(Some(was))
}

// Lists the point, which had this height, unless it lay below its level and doesn't rise above it: then no level and no label
// changes. False if the list is full.
fn list_unless_below(
    labelled: &Labelled,
    block: &Block,
    index: u32,
    was: i16,
    points: &mut ArrayVec<u32, MOST_CHANGED>,
) -> bool
    ensures { IsTrue result
        → IsListedUnlessBelow labelled.now.levels block.now.heights index was points.old.items points.new.items }
{
    let e = index as usize;
    let level = level_or_void(labelled.levels(), e);
    if was < level && level_or_void(block.heights(), e) <= level {
        return true;
    }
    points.try_push(index).is_ok()
}

// The height or level of this point; -32768 for none.
fn level_or_void(levels: &[i16], e: usize) -> i16
    ensures { result ≡ slice_index_or levels.now e void }
{
    levels.get(e).copied().unwrap_or(VOID)
}
