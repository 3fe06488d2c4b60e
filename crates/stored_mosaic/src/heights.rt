//! New heights of points, as an edit of pages.
ghost use Rattle.std.specs.Prelude.{◌≡◌, ◌≢◌, ◌≤◌, ◌<◌, ◌⊎◌, ◌+◌, ◌*◌, ◌/◌, ℕ, false, nat_eq, IfSome, IfNone, true, IsTrue, length, slice_index_or, slice_set};
ghost use Rattle.hgt.specs.Bytes.{high_byte, low_byte};
ghost use Rattle.lattice.specs.Corners.{is_corner};
ghost use Rattle.lattice.specs.Lattice.{IsIndexOf};
ghost use Rattle.lattice.specs.Mosaic.{IsSample};
ghost use Rattle.page_codec.specs.Sizes.{pages_of};
ghost use Rattle.stored_mosaic.specs.PagesMet.{is_in_page};
ghost use Rattle.stored_mosaic.specs.Underway.{heightened, page_sample, IsEdited};

use crate::page_edit::PageEdit;
use edits::NewHeight;
use hgt::{put_sample, sample};
use lattice::{Corner, Point, Side, index_in};
use page_codec::{PAGE_BYTES, VALUES_IN_PAGE};

/// The new heights of points, one after another.
#[derive(Clone, Copy)]
pub(crate) struct PointHeights<'a> {
    pub(crate) heights: &'a [NewHeight],
}

impl<'a> PageEdit for PointHeights<'a> {
    ghost use Rattle.std.specs.Prelude.{⊤};
    ghost use Rattle.edits.specs.Edits.{points_of};
    ghost use Rattle.stored_mosaic.specs.PagesMet.{has_point};
    ghost use Rattle.stored_mosaic.specs.Underway.{heightened};

    ghost made = { λ edit m. heightened edit.heights.now };

    ghost fits = { λ edit m. ⊤ };

    ghost is_for = { λ edit n. ⊤ };

    ghost meets = { λ edit n. has_point n (points_of edit.heights.now) };

    fn next_page(&self, side: Side, corner: Corner, from: u32) -> Option<u32> {
        let mut next = None;
        for height in self.heights {
            if let Some(page) = page_from(side, corner, height.point, from) {
                next = Some(earlier(next, page));
            }
        }
        next
    }

    fn edit_page(
        &self,
        side: Side,
        corner: Corner,
        index: u32,
        page: &mut [u8; PAGE_BYTES],
    ) -> bool {
        set_heights(side, self.heights, corner, index, page)
    }
}

// The earlier one of the pages.
fn earlier(next: Option<u32>, page: u32) -> u32
    ensures only { IfNone next (result ≡ page) }
    ensures least { IfSome next (λ k. (result ≤ k) × (result ≤ page)
        × ((result ≡ k) ⊎ (result ≡ page))) }
{
    match next {
        Some(before) => before.min(page),
        None => page,
    }
}

// The page of the corner's heights with the point's sample, if it is page `from` or a later one.
fn page_from(side: Side, corner: Corner, point: Point, from: u32) -> Option<u32>
    ensures some { IfSome result (λ k. (from ≤ k) × (k < pages_of side)
        × ((i : ℕ) → is_in_page side corner i point ≡ nat_eq k i)) }
    ensures none { IfNone result ((i : ℕ) → from ≤ i → is_in_page side corner i point ≡ false) }
{
    let index = index_in(side, corner, point)?;
    let page = index / VALUES_IN_PAGE;
    if page < from {
        return None;
    }
    Some(page)
}

// Sets the heights of those points that are on this page of the corner's tile. Answers whether one changed.
fn set_heights(
    side: Side,
    heights: &[NewHeight],
    corner: Corner,
    page_index: u32,
    page: &mut [u8; PAGE_BYTES],
) -> bool
    ensures edited { IsTrue (is_corner corner)
        → IsEdited side (heightened heights.now) corner page_index page.old page.new }
    ensures left { result ≡ false → page.new ≡ page.old }
{
    let mut is_set = false;
    for k in 0..heights.len() {
        let height = nth(heights, k);
        if let Some(at) = place_in(side, corner, page_index, height.point) {
            is_set |= set_sample(page, at, metres_of(&height));
        }
    }
    is_set
}

// Sets the sample. Answers whether it changed.
fn set_sample(page: &mut [u8; PAGE_BYTES], at: usize, metres: i16) -> bool
    requires { at < 2048 }
    ensures set { result ≡ true
        → page.new ≡ slice_set (slice_set page.old (2 * at) (high_byte metres)) (2 * at + 1) (low_byte metres) }
    ensures left { result ≡ false → (page.new ≡ page.old) × (page_sample page.old at ≡ metres) }
{
    if sample(page, at) == metres {
        return false;
    }
    put_sample(page, at, metres);
    true
}

// The index of the point's sample on this page of the corner's tile, if it is there.
fn place_in(side: Side, corner: Corner, page_index: u32, point: Point) -> Option<usize>
    ensures some { IfSome result (λ at. (at < 2048)
        × IsIndexOf side corner point (2048 * page_index + at)) }
    ensures none { IfNone result ((e : ℕ) → IsIndexOf side corner point e → e / 2048 ≢ page_index) }
{
    let index = index_in(side, corner, point)?;
    if index / VALUES_IN_PAGE != page_index {
        return None;
    }
    Some((index % VALUES_IN_PAGE) as usize)
}

// The height. Reading it shows the prover that it fits 16 bits.
fn metres_of(height: &NewHeight) -> i16
    ensures value { result ≡ height.now.metres }
    ensures sample { IsSample result }
{
    height.metres
}

// The height with this index.
fn nth(heights: &[NewHeight], k: usize) -> NewHeight
    requires { k < length heights.now }
    ensures { (d : NewHeight) → result ≡ slice_index_or heights.now k d }
{
    heights[k]
}
