//! Edits of heights, page by page.
ghost use Rattle.std.specs.Prelude.{◌≡◌, ◌≤◌, ◌<◌, ℕ, ℤ, Bool, true, false, IfSome, IfNone, Contains};
ghost use Rattle.lattice.specs.Corners.{Corner};
ghost use Rattle.lattice.specs.Mosaic.{Mosaic, Tile, IsMosaic};
ghost use Rattle.lattice.specs.declared.point.Point.{Point};
ghost use Rattle.page_codec.specs.Sizes.{pages_of};
ghost use Rattle.stored_mosaic.specs.Underway.{IsEdited, IsPageOf, LeavesPage};

use lattice::{Corner, Side};
use page_codec::PAGE_BYTES;

/// An edit that sets samples of tiles: which pages of heights it affects, and how it changes such a page.
pub(crate) trait PageEdit {
    /// The new sample, from the old mosaic, the sample's point and its old value.
    ghost made: { Self → Mosaic → Point → ℤ → ℤ };

    /// What the edit assumes about that mosaic.
    ghost fits: { Self → Mosaic → Type 0 };

    /// The edit is for tiles of this side.
    ghost is_for: { Self → ℕ → Type 0 };

    /// In tiles of this side the edit may set samples on this page of the corner's heights.
    ghost meets: { Self → ℕ → Corner → ℕ → Bool };

    /// The first page of the corner's heights from `from` on that the edit affects.
    fn next_page(&self, side: Side, corner: Corner, from: u32) -> Option<u32>
        requires { is_for self.now side }
        ensures met { IfSome result (λ i. (from ≤ i) × (i < pages_of side)
            × (meets self.now side corner i ≡ true)) }
        ensures passed { IfSome result (λ end. (i : ℕ) → from ≤ i → i < end
            → meets self.now side corner i ≡ false) }
        ensures none { IfNone result ((i : ℕ) → from ≤ i → i < pages_of side
            → meets self.now side corner i ≡ false) }

        // A page that the edit doesn't affect stays the same.
        ensures leaves { (m : Mosaic) → IsMosaic m → m.side ≡ side → fits self.now m → (t : Tile)
            → Contains m.tiles t → t.corner ≡ corner → (i : ℕ)
            → meets self.now side corner i ≡ false → LeavesPage side (made self.now m) corner i };

    /// Edits a page of the corner's heights that the edit affects. Answers whether it set a sample.
    fn edit_page(&self, side: Side, corner: Corner, index: u32, page: &mut [u8; PAGE_BYTES]) -> bool
        requires made_for { is_for self.now side }
        requires index { index < pages_of side }
        requires met { meets self.now side corner index ≡ true }
        ensures edited { (m : Mosaic) → IsMosaic m → m.side ≡ side → fits self.now m
            → IsPageOf side (made self.now m) m corner index page.old
            → IsEdited side (made self.now m) corner index page.old page.new }
        ensures left { result ≡ false → page.new ≡ page.old }

        // Editing a sample twice is the same as editing it once.
        ensures once { (m : Mosaic) (p : Point) (s : ℤ)
            → made self.now m p (made self.now m p s) ≡ made self.now m p s };
}
