//! Samples of the tiles of a tree, read from their pages.
ghost use Rattle.std.specs.Prelude.{◌≡◌, ◌≤◌, ◌<◌, ◌+◌, ◌*◌, ◌%◌, ℤ, List, Contains, Some, length, false, OnOk, slice_range, refl};
ghost use Rattle.lattice.specs.Mosaic.{samples_of};
ghost use Rattle.cow_tree.specs.Reading.{mosaic_of, IsReadable, HasOnlyRead, Reads, read_nothing, read_again, corners_in_mosaic};
ghost use Rattle.cow_tree.specs.Trees.{disk_of, root_of, has_failed, corners_of, sinks_of};

use crate::tree::Tree;
use catalogue::Samples;
use disk::Disk;
use lattice::{Corner, Point, Refusal, Side};
use page_codec::{PAGE_BYTES, VALUES_IN_PAGE};
use page_map::Plane;

/// Reads samples that are on one page of the corner's heights.
fn read_part<D: Disk>(
    tree: &mut Tree<D>,
    c: Corner,
    first: u32,
    into: &mut [i16],
) -> Result<(), Refusal>
    requires present { Contains (corners_of tree.old) c }
    requires some { 0 < length into.old }
    requires one_page { first % 2048 + length into.old ≤ 2048 }
    requires range { first + length into.old ≤ (root_of tree.old).side * (root_of tree.old).side }
    ensures reads { Reads D.Disk tree.old tree.new result }
    ensures samples { IsReadable D.Disk tree.new
        → OnOk result ((all : List ℤ) → samples_of (mosaic_of D.Disk tree.old) c ≡ Some all
        → slice_range all first (first + length into.new) ≡ into.new) }
    ensures length { length into.new ≡ length into.old }
{
    let mut page = [0; PAGE_BYTES];
    tree.scan_page(c, Plane::Heights, first / VALUES_IN_PAGE, &mut page)?;
    let from = 2 * (first % VALUES_IN_PAGE) as usize;
    hgt::read_samples(&page[from..from + 2 * into.len()], into);
    Ok(())
}

impl<D: Disk> Samples for Tree<D> {
    ghost side_of = { λ tree. (root_of tree).side };

    ghost corners = { corners_of };

    ghost sinks_of = { sinks_of };

    ghost mosaic = { mosaic_of D.Disk };

    ghost is_honest = { IsReadable D.Disk };

    ghost keeps = { HasOnlyRead D.Disk };

    ghost failures = { λ tree. D.failures (disk_of tree) };

    ghost is_ready = { λ tree. has_failed tree ≡ false };

    ghost never_refuses = { λ _. ⊥ };

    ghost is_mosaic = { λ _ readable. readable.valid };

    ghost same_side = { λ _ _. refl };

    ghost same_corners = { λ tree _. corners_in_mosaic (root_of tree).side (sinks_of tree) (D.seen (disk_of tree)) tree.page_map.staged };

    ghost same_sinks = { λ _ _. refl };

    ghost keeps_itself = { read_nothing _ D.only_now };

    ghost keeps_on = { read_again _ };

    ghost sure_is_honest = { λ _ never. absurd never };

    fn side(&self) -> Side {
        self.current().side()
    }

    fn present(&self, c: Corner) -> bool {
        Tree::present(self, c)
    }

    fn count(&self) -> usize {
        self.corners().len()
    }

    fn present_corners(&self) -> Result<Vec<Corner>, Refusal> {
        Ok(Vec::from_slice(self.alloc, self.corners().as_slice())?)
    }

    fn sinks(&self) -> &[Point] {
        Tree::sinks(self)
    }

    fn sample(&mut self, c: Corner, i: u32) -> Result<i16, Refusal> {
        let from = 2 * (i % VALUES_IN_PAGE) as usize;
        let mut two = [0; 2];
        self.read_two(c, Plane::Heights, i / VALUES_IN_PAGE, from, &mut two)?;
        let mut one = [0];
        hgt::read_samples(&two, &mut one);
        Ok(one[0])
    }

    fn read_samples(&mut self, c: Corner, first: u32, into: &mut [i16]) -> Result<(), Refusal> {
        // This call shows the prover that the number of a tile's samples fits 32 bits.
        let _side = self.current().side();
        let mut done = 0;
        while done < into.len() {
            let at = first + done as u32;
            let behind = done + (VALUES_IN_PAGE - at % VALUES_IN_PAGE) as usize;
            let end = into.len().min(behind);
            read_part(self, c, at, &mut into[done..end])?;
            done = end;
        }
        Ok(())
    }
}
