//! Steps: each stores the planes of one stale tile.
ghost use Rattle.std.specs.Prelude.{◌≡◌, ◌≤◌, ◌+◌, ◌*◌, true, false, Ok, Err, None, OnErr};
ghost use Rattle.lattice.specs.declared.refusal.Refusal.TheVariants.{Failed};
ghost use Rattle.page_codec.specs.Roots.{format_of};
ghost use Rattle.page_codec.specs.Sizes.{plane_pages_of};
ghost use Rattle.cow_tree.specs.Trees.{disk_of as disk_under, root_of as root_under, has_failed as have_failed};
ghost use Rattle.cow_tree.specs.Clean.{IsClean};
ghost use Rattle.drainage.specs.Between.{IsHeldOf};
ghost use Rattle.engine.specs.Engines.{IsCall, answered};
ghost use Rattle.engine.specs.declared.event.Event.TheVariants as ask;
ghost use Rattle.engine.specs.declared.event.Reply.TheVariants as reply;
ghost use Rattle.stored_mosaic.specs.Ended.{IsStepped};
ghost use Rattle.store.specs.StoreState.{members};
ghost use Rattle.store.specs.Stores.{disk_of, root_of, has_failed};

use crate::Store;
use cow_tree::Tree;
use derived::{next_stale, step};
use disk::Disk;
use drainage::DrainageCache;
use lattice::{Corner, Refusal};
use std::alloc::Global;

impl<D: Disk> Store<D> {
    /// Stores the levels and labels of a stale tile and names that tile, or answers none if no tile is stale. A cached
    /// labelling of the tile is used; without one the tile is flooded. A step is a commit, and no command. Refusals:
    /// Failed; Worn if the commit number can't grow; Device; NoMemory, before the first write. A stop at any moment
    /// leaves the store unchanged, or with those planes.
    ///
    /// On any disk a step writes at most two planes with their index pages, a root and two gates.
    pub fn step(&mut self) -> Result<Option<Corner>, Refusal>
        ensures call { IsCall (members D.Disk) self.old ask.Step (answered reply.Stepped result) self.new }
        ensures idle { result ≡ Ok None
            → D.writes (disk_of self.new) ≡ D.writes (disk_of self.old) }
        ensures last_known { OnErr result (root_of self.new ≡ root_of self.old) }

        // A store that has failed makes no call of the disk.
        ensures failed { has_failed self.old ≡ true → disk_of self.new ≡ disk_of self.old }
    {
        step_tree(self.alloc, &mut self.tree, &self.held)
    }
}

// Stores the levels and labels of a stale tile: the cached ones, if there are any.
fn step_tree<D: Disk>(
    alloc: Global,
    tree: &mut Tree<D>,
    held: &DrainageCache,
) -> Result<Option<Corner>, Refusal>
    ensures stepped { IsStepped D.Disk (λ m. IsHeldOf m held.now) result tree.old tree.new }
    ensures clean { have_failed tree.new ≡ false → IsClean tree.new }
    ensures writes { D.writes (disk_under tree.new) ≤ D.writes (disk_under tree.old)
        + (2 * plane_pages_of (format_of (root_under tree.old)) + 3) }
    ensures failed { have_failed tree.old ≡ true → (result ≡ Err Failed) × (tree.new ≡ tree.old) }
{
    match next_stale(tree) {
        Some(corner) => step(alloc, tree, Some(corner), held.labelling(corner)),
        None => step(alloc, tree, None, None),
    }
}
