//! The upgrade of a store to the second version.
ghost use Rattle.std.specs.Prelude.{◌≡◌, ◌≤◌, ◌+◌, true, Err};
ghost use Rattle.lattice.specs.declared.refusal.Refusal.TheVariants.{Failed};
ghost use Rattle.cow_tree.specs.Upgrades.{most_upgrade_writes};
ghost use Rattle.store.specs.Stores.{disk_of, root_of, has_failed};
ghost use Rattle.store.specs.StoreEndings.{HasUpgraded};

use crate::Store;
use disk::Disk;
use lattice::Refusal;
use stored_mosaic::upgrade_tree;

impl<D: Disk> Store<D> {
    /// Upgrades the store to the second version, by one commit with the same count: its tiles and their kept planes,
    /// its sinks and its stale tiles stay. A stop at any moment leaves the store unchanged or upgraded.
    ///
    /// Refusals, in this order: Failed; NotOld if the store is of the second version; TooSmall if the disk has fewer
    /// sectors than that version needs; Worn if the commit number can't grow. Then NoMemory, before the first write, or
    /// Device.
    pub fn upgrade(&mut self) -> Result<(), Refusal>
        ensures upgraded { HasUpgraded D.Disk self.old self.new result }

        // On any disk an upgrade writes at most the records and index pages of three planes for each tile, a root and
        // two gates.
        ensures writes { D.writes (disk_of self.new) ≤ D.writes (disk_of self.old)
            + most_upgrade_writes (root_of self.old) }

        // A store that has failed makes no call of the disk, and stays failed.
        ensures failed { has_failed self.old ≡ true
            → (result ≡ Err Failed) × (disk_of self.new ≡ disk_of self.old) }
        ensures still_failed { has_failed self.old ≡ true → has_failed self.new ≡ true }
    {
        if self.tree.has_failed() {
            return Err(Refusal::Failed);
        }
        upgrade_tree(&mut self.tree)
    }
}
