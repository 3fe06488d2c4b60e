//! A patch as an edit of pages.
ghost use Rattle.std.specs.Prelude.{◌≡◌, ◌<◌, ◌≤◌, ◌+◌, ◌*◌, ◌-◌, ◌^◌, ◌&&◌, int_le, nat_lt, ℕ, true, false, All, Contains, IfSome, IfNone, map, vec_len};
ghost use Rattle.lattice.specs.Lattice.{point_of};
ghost use Rattle.lattice.specs.Mosaic.{Mosaic, IsMosaic, IsSample, is_void};
ghost use Rattle.page_codec.specs.Sizes.{pages_of};
ghost use Rattle.catalogue.specs.Tiles.{is_listed};
ghost use Rattle.edits.specs.Edits.{AreVoidTiles};
ghost use Rattle.edits.specs.Effect.{is_in_box};
ghost use Rattle.cow_tree.specs.Reading.{mosaic_of};
ghost use Rattle.cow_tree.specs.Trees.{root_of, has_failed, corners_of};
ghost use Rattle.stored_mosaic.specs.Editing.{MakesPages, IsRefusedEarly};
ghost use Rattle.stored_mosaic.specs.PagesMet.{pages_met};
ghost use Rattle.stored_mosaic.specs.Underway.{box_meets, filled, has_rows, is_due, is_void_by_rim, last_in_page, page_sample, AreRimVoids, IsEdited, IsPageOf};

use crate::page_edit::PageEdit;
use crate::rims::{RimVoids, read_rims};
use crate::staging_pages::stage_pages;
use cow_tree::Tree;
use disk::Disk;
use hgt::{put_sample, sample};
use lattice::{Corner, Point, Refusal, Side, VOID, point_at};
use page_codec::{PAGE_BYTES, VALUES_IN_PAGE, pages_in_plane};
use std::alloc::Global;

/// The box of a patch, ends included, and the height for its void points.
#[derive(Clone, Copy)]
pub(crate) struct Patch {
    pub(crate) from: Point,
    pub(crate) to: Point,
    pub(crate) height: i16,
}

/// Stages the height at the void points of the box in these tiles, which are those with such points. Before the first
/// page is written, the void points on their rims are found and all memory is reserved. Refused with NoMemory, and then
/// nothing was written, or with Device.
pub(crate) fn stage_voids<D: Disk>(
    alloc: Global,
    tree: &mut Tree<D>,
    tiles: &[Corner],
    patch: Patch,
) -> Result<(), Refusal>
    requires works { has_failed tree.old ≡ false }
    // Stages each page of these tiles that has a row of the box, at most once.
    ensures makes { let n : ℕ = (root_of tree.old).side in
        let pages : ℕ = pages_met (box_meets n patch tiles.now) (pages_of n) (corners_of tree.old) in
        MakesPages D.Disk n (λ m. filled m patch) (λ m. (mosaic_of D.Disk tree.old ≡ m) × AreVoidTiles m patch.from patch.to tiles.now) (λ c i. Contains (corners_of tree.old) c) pages pages tree.old tree.new result }
    ensures refused { IsRefusedEarly D.Disk tree.old tree.new result }
{
    let rims = read_rims(alloc, tree, tiles, patch)?;
    let fills = VoidFills { rims: &rims, patch };
    stage_pages(tree, &fills)
}

/// What a patch fills: the box, and the void points of the box on the rims of the tiles that it changes.
#[derive(Clone, Copy)]
pub(crate) struct VoidFills<'a> {
    pub(crate) rims: &'a [RimVoids],
    pub(crate) patch: Patch,
}

impl<'a> PageEdit for VoidFills<'a> {
    ghost use Rattle.std.specs.Prelude.{◌≡◌, ◌-◌, ◌*◌, All, map, vec_len};
    ghost use Rattle.edits.specs.Edits.{AreVoidTiles};
    ghost use Rattle.stored_mosaic.specs.Underway.{box_meets, filled, AreRimVoids};

    ghost made = { λ edit m. filled m edit.patch };

    // The rims are right, and there is one for each tile with a void point in the box.
    ghost fits = { λ edit m. All (AreRimVoids m edit.patch) edit.rims.now
        × AreVoidTiles m edit.patch.from edit.patch.to (map (λ rim. rim.corner) edit.rims.now) };

    ghost is_for = { λ edit n. All (λ rim. vec_len rim.voids ≡ 4 * (n - 1)) edit.rims.now };

    ghost meets = { λ edit n. box_meets n edit.patch (map (λ rim. rim.corner) edit.rims.now) };

    fn next_page(&self, side: Side, corner: Corner, from: u32) -> Option<u32> {
        rim_of(self.rims, corner)?;
        for index in from..pages_in_plane(side) {
            if has_rows(side, corner, self.patch, index) {
                return Some(index);
            }
        }
        None
    }

    fn edit_page(
        &self,
        side: Side,
        corner: Corner,
        index: u32,
        page: &mut [u8; PAGE_BYTES],
    ) -> bool {
        match rim_of(self.rims, corner) {
            Some(rim) => fill_samples(side, rim, self.patch, index, page),
            None => false,
        }
    }
}

// The void points on the rim of the corner's tile, if they are listed.
fn rim_of(rims: &[RimVoids], corner: Corner) -> Option<&RimVoids>
    ensures some { IfSome result (λ rim. Contains rims.now rim.now × (rim.now.corner ≡ corner)
        × (is_listed corner (map (λ r. r.corner) rims.now) ≡ true)) }
    ensures none { IfNone result (is_listed corner (map (λ r. r.corner) rims.now) ≡ false) }
{
    for rim in rims {
        if rim.corner == corner {
            return Some(rim);
        }
    }
    None
}

// Whether the page of the corner's heights has a row of the box.
fn has_rows(side: Side, corner: Corner, patch: Patch, index: u32) -> bool
    requires { index < pages_of side }
    ensures { result ≡ has_rows side corner index patch }
{
    let north = point_at(side, corner, VALUES_IN_PAGE * index);
    let south = point_at(side, corner, last_in_page(side, index));
    meets_rows(patch, north, south)
}

// The index of the last sample on the page.
fn last_in_page(side: Side, index: u32) -> u32
    requires { index < pages_of side }
    ensures value { result ≡ last_in_page side index }
    ensures within { result < side * side }
{
    let next = VALUES_IN_PAGE * (index + 1);
    if next < side.area() {
        return next - 1;
    }
    side.area() - 1
}

// Whether some row from the north point to the south one is a row of the box.
fn meets_rows(patch: Patch, north: Point, south: Point) -> bool
    ensures { result ≡ (int_le patch.from.y north.y && int_le south.y patch.to.y) }
{
    patch.from.y <= north.y && south.y <= patch.to.y
}

// Fills the void points of the box on a page of the tile's heights. Answers whether there was one.
fn fill_samples(
    side: Side,
    rim: &RimVoids,
    patch: Patch,
    index: u32,
    page: &mut [u8; PAGE_BYTES],
) -> bool
    requires whole { vec_len rim.now.voids ≡ 4 * (side - 1) }
    requires index { index < pages_of side }
    ensures edited { (m : Mosaic) → IsMosaic m → m.side ≡ side → AreRimVoids m patch rim.now
        → IsPageOf side (filled m patch) m rim.now.corner index page.old
        → IsEdited side (filled m patch) rim.now.corner index page.old page.new }
    ensures left { result ≡ false → page.new ≡ page.old }
{
    let height = height_of(&patch);
    let mut is_filled = false;
    for at in 0..VALUES_IN_PAGE {
        if is_due(side, rim, patch, VALUES_IN_PAGE * index, page, at) {
            put_sample(page, at as usize, height);
            is_filled = true;
        }
    }
    is_filled
}

// The height. Reading it shows the prover that it fits 16 bits.
fn height_of(patch: &Patch) -> i16
    ensures value { result ≡ patch.now.height }
    ensures sample { IsSample result }
{
    patch.height
}

// Whether the patch fills sample `at` of the page, which begins with the tile's sample `first`: the sample is void, and
// its point is a void point of the box.
fn is_due(
    side: Side,
    rim: &RimVoids,
    patch: Patch,
    first: u32,
    page: &[u8; PAGE_BYTES],
    at: u32,
) -> bool
    requires whole { vec_len rim.now.voids ≡ 4 * (side - 1) }
    requires at { at < 2048 }
    requires fits { first + 2048 < 2 ^ 32 }
    ensures { result ≡ is_due side rim.now patch (first + at) (page_sample page.now at) }
{
    holds_void(side, page, first, at) && is_void_of_box(side, rim, patch, first + at)
}

// Whether the sample of the page is void, and one of the tile's.
fn holds_void(side: Side, page: &[u8; PAGE_BYTES], first: u32, at: u32) -> bool
    requires at { at < 2048 }
    requires fits { first + 2048 < 2 ^ 32 }
    ensures { result ≡ (is_void (page_sample page.now at) && nat_lt (first + at) (side * side)) }
{
    sample(page, at as usize) == VOID && first + at < side.area()
}

// Whether the point of the tile's void sample with this index is a void point of the box.
fn is_void_of_box(side: Side, rim: &RimVoids, patch: Patch, index: u32) -> bool
    requires index { index < side * side }
    requires whole { vec_len rim.now.voids ≡ 4 * (side - 1) }
    ensures { result ≡ (is_in_box patch.from patch.to (point_of side rim.now.corner index)
        && is_void_by_rim side rim.now index) }
{
    is_in_box(patch, point_at(side, rim.corner, index)) && rim.is_void(side, index)
}

// Whether the point is in the box of the patch.
pub(crate) fn is_in_box(patch: Patch, point: Point) -> bool
    ensures { result ≡ is_in_box patch.from patch.to point }
{
    is_in_rows(patch, point) && is_in_columns(patch, point)
}

fn is_in_rows(patch: Patch, point: Point) -> bool
    ensures { result ≡ (int_le patch.from.y point.y && int_le point.y patch.to.y) }
{
    patch.from.y <= point.y && point.y <= patch.to.y
}

fn is_in_columns(patch: Patch, point: Point) -> bool
    ensures { result ≡ (int_le patch.from.x point.x && int_le point.x patch.to.x) }
{
    patch.from.x <= point.x && point.x <= patch.to.x
}
