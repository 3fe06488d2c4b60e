//! Stages an edit page by page.
ghost use Rattle.std.specs.Prelude.{◌≡◌, ◌<◌, ◌≤◌, ℕ, true, false, All, Contains, IsTrue, IfErr, OnOk, length};
ghost use Rattle.std.specs.List.{AllAdjacentBelow};
ghost use Rattle.lattice.specs.Corners.{is_corner};
ghost use Rattle.lattice.specs.Lattice.{IsBefore};
ghost use Rattle.lattice.specs.declared.refusal.Refusal.TheVariants.{Device};
ghost use Rattle.page_codec.specs.Sizes.{pages_of};
ghost use Rattle.cow_tree.specs.Trees.{root_of, has_failed, corners_of, HasStaged};
ghost use Rattle.stored_mosaic.specs.Editing.{IsPrepared, Prepares, MakesPages, IsRefusedEarly};
ghost use Rattle.stored_mosaic.specs.PagesMet.{pages_met_in, pages_met};

use crate::page_edit::PageEdit;
use cow_tree::{Plane, Tree};
use disk::Disk;
use lattice::{Corner, Refusal, Side};
use page_codec::PAGE_BYTES;

/// Stages the edit in the pages of heights that it affects, tile after tile: each page is read once, and written once
/// if a sample of it is set. All memory is reserved before the first page is written. Refused with NoMemory, and then
/// no call of the disk was made, or with Device.
pub(crate) fn stage_pages<D: Disk, E: PageEdit>(tree: &mut Tree<D>, edit: &E) -> Result<(), Refusal>
    requires works { has_failed tree.old ≡ false }
    requires made_for { E.is_for edit.now (root_of tree.old).side }
    ensures makes { let n : ℕ = (root_of tree.old).side in
        let pages : ℕ = pages_met (E.meets edit.now n) (pages_of n) (corners_of tree.old) in
        MakesPages D.Disk n (E.made edit.now) (E.fits edit.now) (λ c i. Contains (corners_of tree.old) c) pages pages tree.old tree.new result }
    ensures refused { IsRefusedEarly D.Disk tree.old tree.new result }

    // The side of the tiles is at least 3.
    ensures side { 3 ≤ (root_of tree.old).side }
    ensures in_order { AllAdjacentBelow IsBefore (corners_of tree.old) (length (corners_of tree.old)) }
    ensures whole_degrees { All (λ c. IsTrue (is_corner c)) (corners_of tree.old) }
{
    let side = tree.current().side();
    // This call shows the prover that a side is at least 3.
    let _edge = side.edge();
    let corners = tree.corners();
    prepare_tiles(tree, edit, side, corners.as_slice())?;
    stage_tiles(tree, edit, side, corners.as_slice())
}

// Reserves the memory to stage the pages of the tiles that the edit touches.
fn prepare_tiles<D: Disk, E: PageEdit>(
    tree: &mut Tree<D>,
    edit: &E,
    side: Side,
    corners: &[Corner],
) -> Result<(), Refusal>
    requires made_for { E.is_for edit.now side }
    requires present { All (Contains (corners_of tree.old)) corners.now }
    ensures prepares { Prepares D.Disk (pages_met (E.meets edit.now side) (pages_of side) corners.now) tree.old tree.new result }
    ensures prepared { OnOk result (All (IsPrepared (E.meets edit.now side) (pages_of side) tree.new) corners.now) }
{
    for corner in corners {
        prepare_tile(tree, edit, side, *corner)?;
    }
    Ok(())
}

// Reserves the memory to stage the pages of one tile.
fn prepare_tile<D: Disk, E: PageEdit>(
    tree: &mut Tree<D>,
    edit: &E,
    side: Side,
    corner: Corner,
) -> Result<(), Refusal>
    requires made_for { E.is_for edit.now side }
    requires present { Contains (corners_of tree.old) corner }
    ensures prepares { Prepares D.Disk (pages_met_in (E.meets edit.now side corner) (pages_of side)) tree.old tree.new result }
    ensures prepared { OnOk result (IsPrepared (E.meets edit.now side) (pages_of side) tree.new corner) }
{
    match edit.next_page(side, corner, 0) {
        Some(_) => tree.prepare(corner),
        None => Ok(()),
    }
}

// Stages the edit in each of the tiles.
fn stage_tiles<D: Disk, E: PageEdit>(
    tree: &mut Tree<D>,
    edit: &E,
    side: Side,
    corners: &[Corner],
) -> Result<(), Refusal>
    requires works { has_failed tree.old ≡ false }
    requires side { side ≡ (root_of tree.old).side }
    requires made_for { E.is_for edit.now side }
    requires present { All (Contains (corners_of tree.old)) corners.now }
    requires prepared { All (IsPrepared (E.meets edit.now side) (pages_of side) tree.old) corners.now }
    ensures makes { MakesPages D.Disk side (E.made edit.now) (E.fits edit.now) (λ c i. Contains corners.now c) (pages_met (E.meets edit.now side) (pages_of side) corners.now) 0 tree.old tree.new result }
    ensures refused { IfErr result (λ r. r ≡ Device) }
{
    for corner in corners {
        stage_tile(tree, edit, side, *corner)?;
    }
    Ok(())
}

// Stages the edit in one tile: in the pages that it affects, in order.
fn stage_tile<D: Disk, E: PageEdit>(
    tree: &mut Tree<D>,
    edit: &E,
    side: Side,
    corner: Corner,
) -> Result<(), Refusal>
    requires works { has_failed tree.old ≡ false }
    requires side { side ≡ (root_of tree.old).side }
    requires made_for { E.is_for edit.now side }
    requires present { Contains (corners_of tree.old) corner }
    requires prepared { IsPrepared (E.meets edit.now side) (pages_of side) tree.old corner }
    ensures makes { MakesPages D.Disk side (E.made edit.now) (E.fits edit.now) (λ c i. c ≡ corner)
        (pages_met_in (E.meets edit.now side corner) (pages_of side)) 0 tree.old tree.new result }
    ensures refused { IfErr result (λ r. r ≡ Device) }
{
    let mut from = 0;
    'pages: while let Some(index) = edit.next_page(side, corner, from) {
        stage_page(tree, edit, side, corner, index)?;
        from = index + 1;
    }
    Ok(())
}

// Stages one page that the edit affects, once if a sample of it is set, and no other page.
fn stage_page<D: Disk, E: PageEdit>(
    tree: &mut Tree<D>,
    edit: &E,
    side: Side,
    corner: Corner,
    index: u32,
) -> Result<(), Refusal>
    requires works { has_failed tree.old ≡ false }
    requires side { side ≡ (root_of tree.old).side }
    requires made_for { E.is_for edit.now side }
    requires present { Contains (corners_of tree.old) corner }
    requires prepared { HasStaged tree.old corner }
    requires index { index < pages_of side }
    requires met { E.meets edit.now side corner index ≡ true }
    ensures makes { MakesPages D.Disk side (E.made edit.now) (E.fits edit.now) (λ c i. (c ≡ corner) × (i ≡ index)) 1 0 tree.old tree.new result }
    ensures refused { IfErr result (λ r. r ≡ Device) }
{
    let mut page = [0; PAGE_BYTES];
    tree.read_page(corner, Plane::Heights, index, &mut page)?;
    if !edit.edit_page(side, corner, index, &mut page) {
        return Ok(());
    }
    tree.stage(corner, Plane::Heights, index, &page)
}
