//! The upgrade of a tree to the second version.
ghost use Rattle.std.specs.Prelude.{◌≡◌, ◌≤◌, ◌+◌, false};
ghost use Rattle.cow_tree.specs.Trees.{disk_of as disk_under, root_of as root_under, has_failed as have_failed};
ghost use Rattle.cow_tree.specs.Upgrades.{most_upgrade_writes};
ghost use Rattle.cow_tree.specs.Clean.{IsClean};
ghost use Rattle.stored_mosaic.specs.Upgraded.{IsUpgraded};

use cow_tree::Tree;
use disk::Disk;
use lattice::Refusal;

/// Upgrades a tree that hasn't failed.
pub fn upgrade_tree<D: Disk>(tree: &mut Tree<D>) -> Result<(), Refusal>
    requires works { have_failed tree.old ≡ false }
    ensures upgraded { IsUpgraded D.Disk result tree.old tree.new }
    ensures clean { have_failed tree.new ≡ false → IsClean tree.new }
    ensures writes { D.writes (disk_under tree.new) ≤ D.writes (disk_under tree.old)
        + most_upgrade_writes (root_under tree.old) }
{
    // Between two calls nothing is staged.
    tree.abandon();
    tree.upgrade()?;
    Ok(())
}
