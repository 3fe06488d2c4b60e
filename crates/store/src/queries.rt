//! The queries of a store: they only read.
ghost use Rattle.std.specs.Prelude.{◌≡◌, ◌≢◌, false, true, Err, OnOk, IfOk, IfErr, Contains};
ghost use Rattle.std.specs.List.{AllPairs};
ghost use Rattle.lattice.specs.declared.refusal.Refusal.TheVariants.{NoMemory, NoTile, Failed};
ghost use Rattle.engine.specs.Engines.{IsCall, answered};
ghost use Rattle.engine.specs.State.{State};
ghost use Rattle.engine.specs.declared.event.Event.TheVariants as ask;
ghost use Rattle.engine.specs.declared.event.Reply.TheVariants as reply;
ghost use Rattle.cow_tree.specs.Trees.{corners_of};
ghost use Rattle.roots.specs.RootTests.{HasTested};
ghost use Rattle.roots.specs.Slots.{StandsOpen, IsNotPassed, other};
ghost use Rattle.store.specs.RootTests.{Tests};
ghost use Rattle.store.specs.StoreQueries.{Queries, OnlyReads};
ghost use Rattle.stored_mosaic.specs.Queried.{CountsSeams};
ghost use Rattle.store.specs.StoreState.{members};
ghost use Rattle.store.specs.Stores.{disk_of, root_of, slot_of, has_failed, IsAt};

use crate::Store;
use crate::asking::{
    ask_direction, ask_directions, ask_fill, ask_levels, ask_trace, ask_upstream, ask_watershed,
};
use cow_tree::Plane;
use disk::Disk;
use engine::Info;
use lattice::{Corner, Height, Point, Refusal};
use std::marker::Brand;
use stored_mosaic::read_plane;
use water::Run;

impl<D: Disk> Store<D> {
    /// The height of a point, in metres where it is ground. Refused with Failed or Device.
    pub fn elevation(&mut self, point: Point) -> Result<Height, Refusal>
        ensures call { IsCall (members D.Disk) self.old (ask.Elevation point) (answered reply.Elevation result) self.new }
        ensures reads { OnlyReads D.Disk self.old self.new }
    {
        self.check_working()?;
        catalogue::height(&mut self.tree, point)
    }

    /// Whether the current root stands unchanged behind its gate, as [`roots::Roots::confirm`] says. For a store that another
    /// program may be writing: yes means that all reads since the opening gave one image. Refused with Failed or Device.
    pub fn confirm(&mut self) -> Result<bool, Refusal>
        ensures tests { Tests D.Disk StandsOpen self.old self.new result }

        // The gate is read first, and then the root.
        ensures tested { IfOk result (λ yes. HasTested D.Disk (slot_of self.old) (root_of self.old) (disk_of self.old) yes (disk_of self.new)) }
    {
        self.check_working()?;
        self.tree.confirm()
    }

    /// Whether no later root stands behind the other gate, as [`roots::Roots::is_current`] says. Refused with Failed or Device.
    pub fn is_current(&mut self) -> Result<bool, Refusal>
        ensures { Tests D.Disk (IsNotPassed (other (slot_of self.old))) self.old self.new result }
    {
        self.check_working()?;
        self.tree.is_current()
    }

    /// How many points of the rims of present tiles disagree: two present tiles hold the point with different samples.
    /// Each point counts once, and a void counts as a sample. Refused with Failed or Device.
    pub fn seams(&mut self) -> Result<u64, Refusal>
        ensures reads { Queries D.Disk self.old self.new result }
        ensures memory { result ≢ Err NoMemory }
        ensures outcome { D.honest (disk_of self.new) → (s : State) → IsAt D.Disk self.old s
            → (t : State) × (IsAt D.Disk self.new t × CountsSeams s result t) }
    {
        self.check_working()?;
        catalogue::seams(&mut self.tree)
    }

    /// The filled level of a point, in metres: the least, over all paths to an outlet, of the greatest height on the
    /// path. Refused with Failed, Outside, Void, NoMemory or Device, or with Damaged if kept planes are found not to be
    /// a labelling of their tile; after that the store still works.
    pub fn fill(&mut self, point: Point) -> Result<i16, Refusal>
        ensures call { IsCall (members D.Disk) self.old (ask.Fill point) (answered reply.Fill result) self.new }
        ensures reads { OnlyReads D.Disk self.old self.new }
    {
        self.check_working()?;
        ask_fill::<D, Brand>(self.alloc, &mut self.tree, &mut self.held, point)
    }

    /// The code of the direction in which water leaves a point: east is 1, and each next one clockwise twice as much; 0
    /// if it leaves the mosaic. Refused as `fill` is, Damaged included.
    pub fn direction(&mut self, point: Point) -> Result<u8, Refusal>
        ensures call { IsCall (members D.Disk) self.old (ask.Direction point) (answered reply.Direction result) self.new }
        ensures reads { OnlyReads D.Disk self.old self.new }
    {
        self.check_working()?;
        ask_direction::<D, Brand>(self.alloc, &mut self.tree, &mut self.held, point)
    }

    /// The flow path of a point: the point, then the one that its direction leads to, and so on, up to one where water
    /// leaves the mosaic. It has no point twice, whatever is on the disk. Refused as `fill` is, Damaged included.
    pub fn trace(&mut self, point: Point) -> Result<Vec<Point>, Refusal>
        ensures call { IsCall (members D.Disk) self.old (ask.Trace point) (answered reply.Trace result) self.new }
        ensures once { IfOk result (λ path. AllPairs (λ p q. p ≢ q) path.items) }
        ensures reads { OnlyReads D.Disk self.old self.new }
    {
        self.check_working()?;
        ask_trace::<D, Brand>(self.alloc, &mut self.tree, &mut self.held, point)
    }

    /// The watershed of a point: the ground points whose flow path contains it, as maximal runs, north first, west first.
    /// Refused as `fill` is, Damaged included.
    pub fn watershed(&mut self, point: Point) -> Result<Vec<Run>, Refusal>
        ensures call { IsCall (members D.Disk) self.old (ask.Watershed point) (answered reply.Watershed result) self.new }
        ensures reads { OnlyReads D.Disk self.old self.new }
    {
        self.check_working()?;
        ask_watershed::<D, Brand>(self.alloc, &mut self.tree, &mut self.held, point)
    }

    /// The samples of a tile as the bytes of an HGT file. Refused with Failed, NoTile, NoMemory (before any read) or
    /// Device.
    pub fn export(&mut self, corner: Corner) -> Result<Vec<u8>, Refusal>
        ensures call { IsCall (members D.Disk) self.old (ask.Export corner) (answered reply.Export result) self.new }
        ensures reads { OnlyReads D.Disk self.old self.new }
    {
        self.check_working()?;
        self.check_present(corner)?;
        let len = self.tree.current().side().file_bytes() as usize;
        let Ok(mut bytes) = Vec::with_capacity(self.alloc, len) else {
            return Err(Refusal::NoMemory);
        };
        read_plane(&mut self.tree, corner, Plane::Heights, &mut bytes)?;
        Ok(bytes)
    }

    /// The filled levels of all samples of a tile, in metres: row by row from the north, west first; void for a sample
    /// whose point isn't ground. Each is the level that `fill` answers for its point. Refused with Failed, NoTile,
    /// NoMemory or Device, or with Damaged as `fill` is.
    pub fn levels(&mut self, corner: Corner) -> Result<Vec<i16>, Refusal>
        ensures call { IsCall (members D.Disk) self.old (ask.Levels corner) (answered reply.Levels result) self.new }
        ensures reads { OnlyReads D.Disk self.old self.new }
    {
        self.check_working()?;
        self.check_present(corner)?;
        ask_levels::<D, Brand>(self.alloc, &mut self.tree, &mut self.held, corner)
    }

    /// The codes of the directions of all samples of a tile, row by row from the north, west first, as `direction`
    /// answers them; 255 for a sample whose point isn't ground. Refused as `levels` is.
    pub fn directions(&mut self, corner: Corner) -> Result<Vec<u8>, Refusal>
        ensures call { IsCall (members D.Disk) self.old (ask.Directions corner) (answered reply.Directions result) self.new }
        ensures reads { OnlyReads D.Disk self.old self.new }
    {
        self.check_working()?;
        self.check_present(corner)?;
        ask_directions::<D, Brand>(self.alloc, &mut self.tree, &mut self.held, corner)
    }

    /// The number of points that drain through each sample of a tile, the sample's point included: the size of the
    /// watershed that `watershed` answers. 0 for a sample whose point isn't ground. Row by row from the north, west
    /// first. Refused as `levels` is.
    pub fn upstream(&mut self, corner: Corner) -> Result<Vec<u32>, Refusal>
        ensures call { IsCall (members D.Disk) self.old (ask.Upstream corner) (answered reply.Upstream result) self.new }
        ensures reads { OnlyReads D.Disk self.old self.new }
    {
        self.check_working()?;
        self.check_present(corner)?;
        ask_upstream::<D, Brand>(self.alloc, &mut self.tree, &mut self.held, corner)
    }

    /// The corners of the present tiles, in order, from memory: the disk isn't read.
    pub fn tiles(&self) -> Result<Vec<Corner>, Refusal>
        ensures { IsCall (members D.Disk) self.now ask.Tiles (answered reply.Tiles result) self.now }
    {
        self.check_working()?;
        let mut corners = Vec::new(self.alloc);
        for entry in self.tree.current().entries() {
            if corners.push(entry.corner).is_err() {
                return Err(Refusal::NoMemory);
            }
        }
        Ok(corners)
    }

    /// The declared sinks, in the order of points, from memory.
    pub fn sinks(&self) -> Result<Vec<Point>, Refusal>
        ensures { IsCall (members D.Disk) self.now ask.Sinks (answered reply.Sinks result) self.now }
    {
        self.check_working()?;
        Ok(Vec::from_slice(self.alloc, self.tree.sinks())?)
    }

    /// The store's sizes and counts, from memory. Refused with Failed.
    pub fn info(&self) -> Result<Info, Refusal>
        ensures { IsCall (members D.Disk) self.now ask.Info (answered reply.Info result) self.now }
    {
        self.check_working()?;
        let stale = derived::stale_count(&self.tree);
        let tiles = self.tree.current().entries().len();
        Ok(Info {
            side: self.side(),
            capacity: self.capacity(),
            version: self.version(),
            count: self.count(),
            commits: self.commits(),
            fresh: tiles.saturating_sub(stale) as u64,
            stale: stale as u64,
        })
    }

    // Refuses with NoTile if the corner has no tile.
    fn check_present(&self, corner: Corner) -> Result<(), Refusal>
        ensures present { OnOk result (Contains (corners_of self.now.tree) corner) }
        ensures refused { IfErr result (λ r. (r ≡ NoTile)
            × (Contains (corners_of self.now.tree) corner → ⊥)) }
    {
        if self.tree.present(corner) {
            Ok(())
        } else {
            Err(Refusal::NoTile)
        }
    }

    // Refused where the store has failed.
    fn check_working(&self) -> Result<(), Refusal>
        ensures works { OnOk result (has_failed self.now ≡ false) }
        ensures failed { IfErr result (λ r. (r ≡ Failed) × (has_failed self.now ≡ true)) }
    {
        if self.tree.has_failed() {
            return Err(Refusal::Failed);
        }
        Ok(())
    }
}
