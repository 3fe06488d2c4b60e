//! The counts of a tile's samples that are known so far.
ghost use Rattle.std.specs.Prelude.{◌≡◌, ◌*◌, ℕ, length, slice_index_or};
ghost use Rattle.lattice.specs.Lattice.{IsIndexOf};

use lattice::{Corner, Point, Side, index_in};

/// The counts of the tile's samples, row by row from the north, west first; 0 if unknown.
#[derive(Drop)]
pub(crate) struct TileCounts {
    pub(crate) side: Side,
    pub(crate) corner: Corner,
    pub(crate) counts: Vec<u32>,
    ghost whole: { length counts.items ≡ side * side },
}

impl TileCounts {
    ghost use Rattle.std.specs.Prelude.{◌≡◌, ◌⊎◌, ℤ};
    ghost use Rattle.lattice.specs.Terrain.{Terrain};
    ghost use Rattle.lattice.specs.declared.point.Point.{Point};
    ghost use Rattle.watershed.specs.Counting.{AreCounted, AreStillCounted, IsCounted};

    /// The count of the point; 0 if it is unknown or the tile doesn't have the point.
    pub(crate) fn at(&self, point: Point) -> u32
        ensures right { (t : Terrain Point) (level : Point → ℤ) → AreCounted t level self.now
            → (result ≡ 0) ⊎ IsCounted t level point result }
        ensures found { (e : ℕ) → IsIndexOf self.now.side self.now.corner point e
            → result ≡ slice_index_or self.now.counts.items e 0 }
    {
        match index_in(self.side, self.corner, point) {
            Some(index) => self.counts[index as usize],
            None => 0,
        }
    }

    /// Stores the count of the point, if the tile has it.
    pub(crate) fn set(&mut self, point: Point, count: u32)
        ensures tile { (self.new.side ≡ self.old.side) × (self.new.corner ≡ self.old.corner) }
        ensures counted { (t : Terrain Point) (level : Point → ℤ) → AreCounted t level self.old
            → IsCounted t level point count → AreStillCounted t level self.old self.new }
        ensures set { (e : ℕ) → IsIndexOf self.old.side self.old.corner point e
            → slice_index_or self.new.counts.items e 0 ≡ count }
    {
        if let Some(index) = index_in(self.side, self.corner, point) {
            self.counts[index as usize] = count;
        }
    }
}
