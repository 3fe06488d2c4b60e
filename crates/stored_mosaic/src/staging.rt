//! Stages an edit.
ghost use Rattle.std.specs.Prelude.{◌≡◌, false, OnOk};
ghost use Rattle.lattice.specs.Corners.{Corner};
ghost use Rattle.lattice.specs.Mosaic.{Mosaic, IsMosaic};
ghost use Rattle.edits.specs.Edits.{FitsIn, HasRoom, FindsVoids};
ghost use Rattle.cow_tree.specs.Stored.{Stored};
ghost use Rattle.cow_tree.specs.Trees.{disk_of, root_of, has_failed, corners_of, sinks_of, staged_in, HasStaged, IsAt};
ghost use Rattle.stored_mosaic.specs.Editing.{IsGiven, IsMade, IsRefusedEarly, StagesFew, AreTilesOf};
ghost use Rattle.cow_tree.specs.Uncommitted.{CommitsNothing};

use crate::heights::PointHeights;
use crate::staging_pages::stage_pages;
use crate::voids::{Patch, stage_voids};
use cow_tree::{Plane, Tree};
use disk::Disk;
use edits::{Edit, with_point, without_point};
use lattice::{Corner, Refusal, bytes_in_range, corner_in_range};
use std::alloc::Global;

/// Stages the effect of the edit on the tiles and the sinks, and nothing else. Memory is reserved before the first
/// write. Refused with NoMemory, and then nothing was written, or with Device.
pub fn stage<D: Disk>(alloc: Global, tree: &mut Tree<D>, edit: &Edit<'_>) -> Result<(), Refusal>
    requires works { has_failed tree.old ≡ false }
    requires fits { FitsIn (root_of tree.old).side (corners_of tree.old) (sinks_of tree.old) edit.now }
    requires room { HasRoom (root_of tree.old).capacity (corners_of tree.old) edit.now }
    requires unstaged { (c : Corner) → ¬ HasStaged tree.old c }
    ensures uncommitted { CommitsNothing D.Disk tree.old tree.new result }
    ensures refused { IsRefusedEarly D.Disk tree.old tree.new result }
    ensures given { IsGiven edit.now }
    ensures few { StagesFew D.Disk edit.now tree.old tree.new result }
    ensures made { D.honest (disk_of tree.new) → (s : Stored) (m : Mosaic) → IsAt D.Disk tree.old s
        → IsMosaic m → AreTilesOf (root_of tree.old).side (staged_in D.Disk tree.old) m
        → sinks_of tree.old ≡ m.sinks → FindsVoids m edit.now
        → OnOk result (IsMade D.Disk edit.now m tree.old tree.new) }
{
    match edit {
        Edit::Add { corner, bytes } => {
            corner_in_range(*corner);
            bytes_in_range(bytes);
            tree.stage_plane(*corner, Plane::Heights, bytes)
        }
        Edit::Drop { corner } => {
            tree.drop_plane(*corner, Plane::Heights);
            Ok(())
        }
        Edit::Heights { heights } => {
            let edit = PointHeights {
                heights: heights.as_slice(),
            };
            stage_pages(tree, &edit)
        }
        Edit::Voids {
            from,
            to,
            height,
            tiles,
        } => {
            let patch = Patch {
                from: *from,
                to: *to,
                height: *height,
            };
            stage_voids(alloc, tree, tiles.as_slice(), patch)
        }
        Edit::Sink { point, .. } => {
            let sinks = with_point(tree.sinks(), *point);
            tree.declare(&sinks);
            Ok(())
        }
        Edit::Unsink { point, .. } => {
            let sinks = without_point(tree.sinks(), *point);
            tree.declare(&sinks);
            Ok(())
        }
    }
}
