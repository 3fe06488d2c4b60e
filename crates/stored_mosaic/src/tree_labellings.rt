//! A store's tree as samples with labellings: a fresh tile's kept labelling is read, a stale tile is flooded.
ghost use Rattle.std.specs.Prelude.{◌≡◌, ◌≢◌, ◌⊎◌, ◌*◌, ◌<◌, false, Some, Ok, Err, IsTrue, IfSome, IfOk, IfErr, OnOk, vec_len};
ghost use Rattle.std.proofs.Common.{refl, ◌∙◌};
ghost use Rattle.lattice.specs.declared.refusal.Refusal.TheVariants.{Damaged, Failed, NoMemory};
ghost use Rattle.catalogue.specs.Endings.{ends_any};
ghost use Rattle.catalogue.specs.Readers.{reads_of};
ghost use Rattle.page_map.specs.declared.plane.Plane.TheVariants.{Levels, Labels};
ghost use Rattle.cow_tree.specs.Reading.{mosaic_of, HasOnlyRead, Reads, read_nothing, read_again, corners_in_mosaic};
ghost use Rattle.cow_tree.specs.Trees.{disk_of as disk_under, root_of as root_under, page_map_of, corners_of, sinks_of, staged_in, has_failed as have_failed, Holds};
ghost use Rattle.cow_tree.specs.Stored.{StoredTile, KeptPlanes as KeptPages, plane_bytes};
ghost use Rattle.tile_labellings.specs.Labellings.{IsFlooded};
ghost use Rattle.tile_labellings.specs.Spots.{IsLabelledAt};
ghost use Rattle.stored_mosaic.specs.Labelling.{IsSure, Consults, IsKeptValue};
ghost use Rattle.stored_mosaic.specs.Queried.{IsTileOf};

use crate::kept_plane::read_plane;
use catalogue::Samples;
use cow_tree::{Plane, Tree};
use disk::Disk;
use lattice::{Corner, Point, Refusal, Side};
use page_codec::{PAGE_BYTES, VALUES_IN_PAGE, pages_in_plane};
use std::alloc::Global;
use std::marker::{Brand, PhantomData};
use tile_flood::Labelled;
use tile_labellings::{KeptPlanes, Labellings, TileLabelling, flooded, labelled_at, labelled_from};

/// A premise for honesty of the samples. A caller at `Brand` picks it.
pub trait Premise {
    ghost holds: { Type 0 };
}

impl Premise for Brand {
    ghost holds = { Unit {0} };
}

/// A store's tree as a source for questions about water. It is honest if the tree is known to be right (`IsSure`) and
/// the premise is true.
#[derive(Drop)]
pub struct TreeSource<'a, D: Disk, P: Premise> {
    pub tree: &'a mut Tree<D>,
    pub premise: PhantomData<P>,
}

impl<'a, D: Disk, P: Premise> Samples for TreeSource<'a, D, P> {
    ghost side_of = { λ asked. (root_under asked.tree.now).side };

    ghost corners = { λ asked. corners_of asked.tree.now };

    ghost sinks_of = { λ asked. sinks_of asked.tree.now };

    ghost mosaic = { λ asked. mosaic_of D.Disk asked.tree.now };

    ghost is_honest = { λ asked. IsSure D.Disk asked.tree.now × P.holds };

    // The source has the same tree, unchanged except by reads.
    ghost keeps = { λ old new. (new.tree.ghost_name ≡ old.tree.ghost_name)
        × HasOnlyRead D.Disk old.tree.now new.tree.now };

    ghost failures = { λ asked. D.failures (disk_under asked.tree.now) };

    ghost is_ready = { λ asked. have_failed asked.tree.now ≡ false };

    ghost never_refuses = { λ _. ⊥ };

    ghost is_mosaic = { λ _ sure. sure.0.readable.valid };

    ghost same_side = { λ _ _. refl };

    ghost same_corners = { λ asked _. corners_in_mosaic (root_under asked.tree.now).side (sinks_of asked.tree.now) (D.seen (disk_under asked.tree.now)) (page_map_of asked.tree.now).staged };

    ghost same_sinks = { λ _ _. refl };

    ghost keeps_itself = { λ asked. (refl, read_nothing _ D.only_now asked.tree.now) };

    ghost keeps_on = { λ a b c one two. (two.0 ∙ one.0, read_again _ a.tree.now b.tree.now c.tree.now one.1 two.1) };

    ghost sure_is_honest = { λ _ never. absurd never };

    fn side(&self) -> Side {
        self.tree.current().side()
    }

    fn present(&self, c: Corner) -> bool {
        self.tree.present(c)
    }

    fn count(&self) -> usize {
        Samples::count(&*self.tree)
    }

    fn present_corners(&self) -> Result<Vec<Corner>, Refusal> {
        self.tree.present_corners()
    }

    fn sinks(&self) -> &[Point] {
        self.tree.sinks()
    }

    fn sample(&mut self, c: Corner, i: u32) -> Result<i16, Refusal> {
        self.tree.sample(c, i)
    }

    fn read_samples(&mut self, c: Corner, first: u32, into: &mut [i16]) -> Result<(), Refusal> {
        self.tree.read_samples(c, first, into)
    }
}

impl<'a, D: Disk, P: Premise> Labellings for TreeSource<'a, D, P> {
    fn labelling(&mut self, alloc: Global, corner: Corner) -> Result<TileLabelling, Refusal> {
        if self.tree.keeps(corner) {
            let labelled = kept_labelling(alloc, self.tree, corner)?;
            Ok(TileLabelling::Kept(labelled))
        } else {
            let past = past_labelling(alloc, self.tree, corner)?;
            let block = flooded(alloc, self, corner, past)?;
            Ok(TileLabelling::Flooded(block))
        }
    }

    fn kept_at(&mut self, corner: Corner, index: u32) -> Result<Option<(i16, u16)>, Refusal> {
        if !self.tree.keeps(corner) {
            return Ok(None);
        }
        let label_at = kept_label_at(self.tree, corner, index)?;
        Ok(Some(label_at))
    }
}

// The kept level and label of the point with this index in the corner's tile, read alone. Damaged if no labelling has
// them.
fn kept_label_at<D: Disk>(
    tree: &mut Tree<D>,
    corner: Corner,
    index: u32,
) -> Result<(i16, u16), Refusal>
    requires levels { Holds tree.old corner Levels }
    requires labels { Holds tree.old corner Labels }
    requires index { index < (root_under tree.old).side * (root_under tree.old).side }
    ensures label_at { IsSure D.Disk tree.new
        → IfOk result (λ label_at. IsLabelledAt (mosaic_of D.Disk tree.old) corner index label_at.0 label_at.1) }
    ensures sound { IsSure D.Disk tree.new → result ≢ Err Damaged }
    ensures causes { IfErr result (λ r. IsTrue (ends_any r)) }
    ensures reads { Consults D.Disk tree.old tree.new result }
{
    if tree.has_failed() {
        return Err(Refusal::Failed);
    }
    let side = tree.current().side();
    let (level, label) = read_label_at(tree, corner, index)?;
    labelled_at(side, &level, &label)
}

// The two bytes of the kept level, and those of the kept label, of the point with this index in the corner's tile.
fn read_label_at<D: Disk>(
    tree: &mut Tree<D>,
    corner: Corner,
    index: u32,
) -> Result<([u8; 2], [u8; 2]), Refusal>
    requires works { have_failed tree.old ≡ false }
    requires levels { Holds tree.old corner Levels }
    requires labels { Holds tree.old corner Labels }
    requires index { index < (root_under tree.old).side * (root_under tree.old).side }
    ensures level { D.honest (disk_under tree.new)
        → IfOk result (λ two. IsKeptValue (root_under tree.old).side (staged_in D.Disk tree.old) corner Levels index two.0) }
    ensures label { D.honest (disk_under tree.new)
        → IfOk result (λ two. IsKeptValue (root_under tree.old).side (staged_in D.Disk tree.old) corner Labels index two.1) }
    ensures refusal { IfErr result (λ r. IsTrue (ends_any r) × (r ≢ Damaged)) }
    ensures reads { Reads D.Disk tree.old tree.new (reads_of result) }
{
    let mut level = [0; 2];
    let mut label = [0; 2];
    read_value(tree, corner, Plane::Levels, index, &mut level)?;
    read_value(tree, corner, Plane::Labels, index, &mut label)?;
    Ok((level, label))
}

// Reads the two bytes of the value with this index in a plane of the corner's tile.
fn read_value<D: Disk>(
    tree: &mut Tree<D>,
    corner: Corner,
    plane: Plane,
    index: u32,
    into: &mut [u8; 2],
) -> Result<(), Refusal>
    requires held { Holds tree.old corner plane }
    requires index { index < (root_under tree.old).side * (root_under tree.old).side }
    ensures reads { Reads D.Disk tree.old tree.new result }
    ensures value { D.honest (disk_under tree.new)
        → OnOk result (IsKeptValue (root_under tree.old).side (staged_in D.Disk tree.old) corner plane index into.new) }
{
    let page = index / VALUES_IN_PAGE;
    let from = 2 * (index % VALUES_IN_PAGE) as usize;
    tree.read_two(corner, plane, page, from, into)
}

// The kept labelling of the corner's tile. Damaged if the bytes can't be one.
fn kept_labelling<D: Disk>(
    alloc: Global,
    tree: &mut Tree<D>,
    corner: Corner,
) -> Result<Labelled, Refusal>
    requires levels { Holds tree.old corner Levels }
    requires labels { Holds tree.old corner Labels }
    ensures flooded { IsSure D.Disk tree.new
        → IfOk result (IsFlooded (mosaic_of D.Disk tree.old) corner) }
    ensures sound { IsSure D.Disk tree.new → result ≢ Err Damaged }
    ensures side { IfOk result (λ labelled. labelled.side ≡ (root_under tree.old).side) }
    ensures causes { IfErr result (λ r. IsTrue (ends_any r)) }
    ensures reads { Consults D.Disk tree.old tree.new result }
{
    if tree.has_failed() {
        return Err(Refusal::Failed);
    }
    let side = tree.current().side();
    let kept = read_kept(alloc, tree, corner)?;
    labelled_from(alloc, side, &kept.levels, &kept.labels)
}

// The bytes on the pages that had the labelling of the corner's tile before it went stale, if those pages are
// remembered and readable. They may be anything, since the pages may have been overwritten. A fault of these reads
// doesn't fail the tree.
fn past_labelling<D: Disk>(
    alloc: Global,
    tree: &mut Tree<D>,
    corner: Corner,
) -> Result<Option<Labelled>, Refusal>
    ensures refusal { IfErr result (λ r. (r ≡ NoMemory) ⊎ (r ≡ Failed)) }
    ensures works { have_failed tree.new ≡ have_failed tree.old }
    ensures reads { Consults D.Disk tree.old tree.new result }
{
    if tree.has_failed() {
        return Err(Refusal::Failed);
    }
    if tree.past_sector(corner, Plane::Levels, 0).is_none() {
        return Ok(None);
    }
    let side = tree.current().side();
    let Some(levels) = read_past(alloc, tree, corner, Plane::Levels)? else {
        return Ok(None);
    };
    let Some(labels) = read_past(alloc, tree, corner, Plane::Labels)? else {
        return Ok(None);
    };
    Ok(labelled_from(alloc, side, &levels, &labels).ok())
}

// As many bytes as a plane of the corner's tile has, from the pages that it had before the tile went stale. None if one
// of them can't be read; that fails nothing.
fn read_past<D: Disk>(
    alloc: Global,
    tree: &mut Tree<D>,
    corner: Corner,
    plane: Plane,
) -> Result<Option<Vec<u8>>, Refusal>
    requires { have_failed tree.old ≡ false }
    ensures whole { IfOk result (λ found. IfSome found (λ bytes. vec_len bytes ≡ 2 * ((root_under tree.old).side * (root_under tree.old).side))) }
    ensures refusal { IfErr result (λ r. r ≡ NoMemory) }
    ensures reads { Reads {T = Unit {0}} D.Disk tree.old tree.new (Ok tt) }
{
    let side = tree.current().side();
    let count = pages_in_plane(side);
    let mut bytes = Vec::with_capacity(alloc, count as usize * PAGE_BYTES)?;
    let mut page = [0; PAGE_BYTES];
    for i in 0..count {
        if !read_past_page(tree, corner, plane, i, &mut page) {
            return Ok(None);
        }
        bytes.extend_from_slice(&page)?;
    }
    bytes.truncate(side.file_bytes() as usize);
    Ok(Some(bytes))
}

// Reads the page that page `i` of a plane of the corner's tile had, and answers whether it was read. It isn't if the
// page isn't remembered, or if the disk fails the read.
fn read_past_page<D: Disk>(
    tree: &mut Tree<D>,
    corner: Corner,
    plane: Plane,
    i: u32,
    into: &mut [u8; PAGE_BYTES],
) -> bool
    requires { have_failed tree.old ≡ false }
    ensures reads { Reads {T = Unit {0}} D.Disk tree.old tree.new (Ok tt) }
{
    match tree.past_sector(corner, plane, i) {
        Some(sector) => tree.peek_sector(sector, into).is_ok(),
        None => false,
    }
}

// The bytes of the kept levels and labels of the corner's tile.
fn read_kept<D: Disk>(
    alloc: Global,
    tree: &mut Tree<D>,
    corner: Corner,
) -> Result<KeptPlanes, Refusal>
    requires works { have_failed tree.old ≡ false }
    requires levels { Holds tree.old corner Levels }
    requires labels { Holds tree.old corner Labels }
    ensures level_bytes { D.honest (disk_under tree.new)
        → IfOk result (λ planes. (t : StoredTile) (kept : KeptPages)
        → IsTileOf (staged_in D.Disk tree.old) corner t → t.kept ≡ Some kept
        → planes.levels.items ≡ plane_bytes (root_under tree.old).side kept.levels) }
    ensures label_bytes { D.honest (disk_under tree.new)
        → IfOk result (λ planes. (t : StoredTile) (kept : KeptPages)
        → IsTileOf (staged_in D.Disk tree.old) corner t → t.kept ≡ Some kept
        → planes.labels.items ≡ plane_bytes (root_under tree.old).side kept.labels) }

    // On any disk both are of full length.
    ensures levels { IfOk result (λ planes. vec_len planes.levels ≡ 2 * ((root_under tree.old).side * (root_under tree.old).side)) }
    ensures labels { IfOk result (λ planes. vec_len planes.labels ≡ 2 * ((root_under tree.old).side * (root_under tree.old).side)) }
    ensures refusal { IfErr result (λ r. IsTrue (ends_any r) × (r ≢ Damaged)) }
    ensures reads { Reads D.Disk tree.old tree.new (reads_of result) }
{
    let len = tree.current().side().file_bytes() as usize;
    let mut levels = Vec::with_capacity(alloc, len)?;
    let mut labels = Vec::with_capacity(alloc, len)?;
    read_plane(tree, corner, Plane::Levels, &mut levels)?;
    read_plane(tree, corner, Plane::Labels, &mut labels)?;
    Ok(KeptPlanes { levels, labels })
}
