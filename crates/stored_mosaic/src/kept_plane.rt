//! The bytes of planes.
ghost use Rattle.std.specs.Prelude.{◌≡◌, ◌≤◌, ◌*◌, false, Some, OnOk, vec_len, vec_capacity};
ghost use Rattle.cow_tree.specs.Reading.{Reads};
ghost use Rattle.cow_tree.specs.Planes.{stored_plane};
ghost use Rattle.cow_tree.specs.Stored.{PlanePages, StoredTile, plane_bytes};
ghost use Rattle.cow_tree.specs.Trees.{disk_of as disk_under, root_of as root_under, has_failed as have_failed, staged_in, Holds};
ghost use Rattle.stored_mosaic.specs.Queried.{IsTileOf};

use cow_tree::{Plane, Tree};
use disk::Disk;
use lattice::{Corner, Refusal};
use page_codec::{PAGE_BYTES, pages_in_plane};

/// Reads the bytes of a plane of the corner's tile from its pages into an empty vector, which has room for them.
pub fn read_plane<D: Disk>(
    tree: &mut Tree<D>,
    corner: Corner,
    plane: Plane,
    bytes: &mut Vec<u8>,
) -> Result<(), Refusal>
    requires works { have_failed tree.old ≡ false }
    requires held { Holds tree.old corner plane }
    requires empty { vec_len bytes.old ≡ 0 }
    requires room { 2 * ((root_under tree.old).side * (root_under tree.old).side)
        ≤ vec_capacity bytes.old }
    ensures reads { Reads D.Disk tree.old tree.new result }
    ensures bytes { D.honest (disk_under tree.new)
        → OnOk result ((t : StoredTile) (pages : PlanePages)
        → IsTileOf (staged_in D.Disk tree.old) corner t → stored_plane plane t ≡ Some pages
        → bytes.new.items ≡ plane_bytes (root_under tree.old).side pages) }
    ensures whole { OnOk result (vec_len bytes.new ≡ 2 * ((root_under tree.old).side * (root_under tree.old).side)) }
{
    let side = tree.current().side();
    let len = side.file_bytes() as usize;
    let mut page = [0; PAGE_BYTES];
    for i in 0..pages_in_plane(side) {
        tree.scan_page(corner, plane, i, &mut page)?;
        let count = (len - bytes.len()).min(PAGE_BYTES);
        let _ = bytes.extend_from_slice(&page[..count]);
    }
    Ok(())
}
