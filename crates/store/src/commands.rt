//! The commands of a store.
ghost use Rattle.std.specs.Prelude.{◌≡◌, ◌≤◌, ◌+◌, true, false, map, IfSome, OnErr};
ghost use Rattle.engine.specs.Engines.{IsCall, answered};
ghost use Rattle.engine.specs.declared.event.Event.TheVariants as ask;
ghost use Rattle.engine.specs.declared.event.Reply.TheVariants as reply;
ghost use Rattle.store.specs.StoreState.{members};
ghost use Rattle.stored_mosaic.specs.PagesMet.{named_by, page_writes, pages_with};
ghost use Rattle.store.specs.Stores.{disk_of, root_of, has_failed};

use crate::Store;
use disk::Disk;
use drainage::invalidate_edit;
use edits::{Command, commands_make_mosaics, edit_of};
use lattice::Refusal;
use stored_mosaic::{commit_staged, mark_stale, stage};

impl<D: Disk> Store<D> {
    /// Does a command, and answers the number of accepted commands, this one included. Refusals: Failed; those of the
    /// command's tests; Worn if the commit number can't grow; Device; NoMemory. A stop at any moment leaves the
    /// contents unchanged, or as the command makes them.
    ///
    /// On any disk a burn or a wall of q points makes at most 8 q + 3 writes, and 12 q + 3 in the second version. A
    /// sink that is added or removed takes at most 3.
    pub fn apply(&mut self, command: &Command) -> Result<u64, Refusal>
        ensures call { IsCall (members D.Disk) self.old (ask.Do command.now) (answered reply.Done result) self.new }
        ensures last_known { OnErr result (root_of self.new ≡ root_of self.old) }

        // A burn or a wall makes at most three writes, and two more for each page of heights that has one of its points;
        // in the second version, three more for each such page.
        ensures pages { has_failed self.old ≡ false
            → IfSome (named_by command.now) (λ points. D.writes (disk_of self.new)
            ≤ D.writes (disk_of self.old)
            + page_writes (root_of self.old).version (pages_with (root_of self.old).side (map (λ e. e.corner) (root_of self.old).entries) points)) }

        // A store that has failed makes no call of the disk.
        ensures failed { has_failed self.old ≡ true → disk_of self.new ≡ disk_of self.old }
    {
        if self.tree.has_failed() {
            return Err(Refusal::Failed);
        }
        let capacity = self.tree.current().capacity();
        let edit = edit_of(&mut self.tree, capacity, command)?;
        if self.tree.current().number() == u64::MAX {
            return Err(Refusal::Worn);
        }
        // By this law the command makes a mosaic.
        commands_make_mosaics();
        // The cache is then right for the old and for the new mosaic, whether the commit is made or not.
        invalidate_edit(&mut self.held, &edit);
        mark_stale(&mut self.tree, &edit);
        let staged = stage(self.alloc, &mut self.tree, &edit);
        commit_staged(&mut self.tree, staged)
    }
}
