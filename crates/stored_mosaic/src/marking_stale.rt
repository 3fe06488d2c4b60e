//! Drops the kept planes of the present tiles that an edit makes stale.
ghost use Rattle.std.specs.Prelude.{◌≡◌};
ghost use Rattle.cow_tree.specs.Trees.{root_of, corners_of};
ghost use Rattle.edits.specs.Edits.{goes_stale_by};
ghost use Rattle.stored_mosaic.specs.Staling.{Stales};

use cow_tree::Tree;
use disk::Disk;
use edits::{Edit, leaves_stale};

/// Drops the kept planes of the tiles that the edit makes stale.
pub fn mark_stale<D: Disk>(tree: &mut Tree<D>, edit: &Edit<'_>)
    ensures { Stales D.Disk (goes_stale_by (root_of tree.old).side (corners_of tree.old) edit.now) tree.old tree.new }
{
    let corners = tree.corners();
    for corner in corners.as_slice() {
        let is_stale = leaves_stale(&*tree, edit, *corner);
        if is_stale {
            tree.drop_kept(*corner);
        }
    }
}
