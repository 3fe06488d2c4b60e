//! The store: opening, formatting and its counts.
ghost use Rattle.std.specs.Prelude.{◌≡◌, ◌≤◌, ◌⊎◌, ℕ, false, Ok, Err, OnOk, OnErr, IfOk, IfErr, Contains};
ghost use Rattle.disk.specs.Disk.{Image, HasRisen};
ghost use Rattle.disk.specs.Stops.{AddsNothing};
ghost use Rattle.lattice.specs.declared.refusal.Refusal.TheVariants.{Device, NoMemory};
ghost use Rattle.page_codec.specs.Formats.{IsKnown, number_of};
ghost use Rattle.page_codec.specs.declared.version.Version.TheVariants.{One, Two};
ghost use Rattle.page_codec.specs.Sizes.{sectors_asked};
ghost use Rattle.catalogue.specs.Tiles.{corners_of, is_listed};
ghost use Rattle.engine.specs.Engines.{IsCall, answered};
ghost use Rattle.engine.specs.State.{Contents, State, fresh, fresh_1, working};
ghost use Rattle.engine.specs.declared.event.Event.TheVariants as ask;
ghost use Rattle.engine.specs.declared.event.Reply.TheVariants as reply;
ghost use Rattle.cow_tree.specs.Layout.{Stands};
ghost use Rattle.cow_tree.specs.Stored.{no_tiles};
ghost use Rattle.cow_tree.specs.Trees.{MayRefuse, has_failed as have_failed};
ghost use Rattle.store.specs.Formatted.{format_2, format_by, Formats};
ghost use Rattle.derived.specs.Kept.{stale_in};
ghost use Rattle.stored_mosaic.specs.Standing.{StandsFor};
ghost use Rattle.cow_tree.specs.Clean.{IsClean};

use cow_tree::{NotOpened, Tree};
use disk::Disk;
use drainage::DrainageCache;
use lattice::{Corner, Refusal};
use page_codec::{Format, Version};
use std::alloc::Global;

/// A store of elevation tiles on a disk.
///
/// Contracts are about the states that a store may be in: for each state before a call there is one after it, and the
/// answer fits both. That is promised if the disk was honest. If the disk fails, a call answers Device. After that each
/// call that can refuse answers Failed, until a reopening succeeds.
#[derive(Drop)]
pub struct Store<D: Disk> {
    pub(crate) alloc: Global,
    pub(crate) tree: Tree<D>,
    // The cache of what questions found about the mosaic's water. It is right in each state that the store may be in.
    pub(crate) held: DrainageCache,
    // Between two calls nothing is staged.
    ghost clean: { have_failed tree ≡ false → IsClean tree },
}

impl<D: Disk> Store<D> {
    ghost use Rattle.store.specs.Fresh.{KeepsFresh};
    ghost use Rattle.store.specs.StoreState.{members};
    ghost use Rattle.store.specs.Stores.{disk_of, root_of, side_of, capacity_of, has_failed, disk_after, IsAt};

    /// Makes an empty store on a disk, in the second version, with tiles of this side (3 to 3601 samples) and room for
    /// this many tiles (1 to 240). Refused with BadSide, BadCapacity or TooSmall, in this order, and then nothing was
    /// done; or with Device, and then the disk may contain anything.
    pub fn format(disk: &mut D, side: u32, capacity: u32) -> Result<(), Refusal>
        ensures formats { Formats D.Disk Two side capacity disk.old disk.new result }
        ensures formatted { D.honest disk.new
            → OnOk result ((image : Image) → D.may disk.new image
            → StandsFor (D.size disk.new) side capacity image (fresh side)) }
    {
        format_as(disk, Version::Two, side, capacity)
    }

    /// Makes an empty store on a disk as [`Store::format`] does, in the first version, whose sides are 3 to 1201.
    pub fn format_1(disk: &mut D, side: u32, capacity: u32) -> Result<(), Refusal>
        ensures formats { Formats D.Disk One side capacity disk.old disk.new result }
        ensures formatted { D.honest disk.new
            → OnOk result ((image : Image) → D.may disk.new image
            → StandsFor (D.size disk.new) side capacity image (fresh_1 side)) }
    {
        format_as(disk, Version::One, side, capacity)
    }

    /// Opens a disk, which a stop may have left in the middle of a commit. Nothing is written. Refused with NotAStore,
    /// Version, Damaged or TooSmall (docs/layout.md, Opening), Device or NoMemory. A refusal returns the disk.
    pub fn open(alloc: Global, disk: D) -> Result<Store<D>, NotOpened<D>>
        ensures size { D.size (disk_after result) ≡ D.size disk }
        ensures writes { D.writes (disk_after result) ≡ D.writes disk }
        ensures later { D.failures disk ≤ D.failures (disk_after result) }
        ensures device { IfErr result (λ e. e.refusal ≡ Device → HasRisen (D.failures disk) (D.failures e.disk)) }
        ensures nothing { D.honest (disk_after result) → AddsNothing D.Disk disk (disk_after result) }
        ensures works { IfOk result (λ store. has_failed store ≡ false) }

        // If each image stores one of two contents, the store has one of them, and each image stores it.
        ensures at { D.honest (disk_after result) → (side capacity : ℕ) (a b : Contents)
            → ((image : Image) → D.may disk image → StandsFor (D.size disk) side capacity image a ⊎ StandsFor (D.size disk) side capacity image b)
            → IfOk result (λ store. (side_of store ≡ side) × ((capacity_of store ≡ capacity) × (IsAt D.Disk store (working a) ⊎ IsAt D.Disk store (working b)))) }

        // Then opening is refused only with Device or NoMemory.
        ensures sure { D.honest (disk_after result) → (side capacity : ℕ) (a b : Contents)
            → ((image : Image) → D.may disk image → StandsFor (D.size disk) side capacity image a ⊎ StandsFor (D.size disk) side capacity image b)
            → IfErr result (λ e. (e.refusal ≡ Device) ⊎ (e.refusal ≡ NoMemory)) }

        // On any image the refusal is the one that the roots and records determine.
        ensures refused { D.honest (disk_after result)
            → IfErr result (λ e. MayRefuse (D.size disk) (D.seen disk) e.refusal) }
    {
        match Tree::open(alloc, disk) {
            Ok(tree) => Ok(Store {
                alloc,
                tree,
                held: DrainageCache::new(),
            }),
            Err(refused) => Err(refused),
        }
    }

    /// Opens the disk again, for example after a fault, and drops all caches. The store then has the last known
    /// contents, or those of the commit in doubt. Refused as `open` is: then the last known contents stay, and the
    /// store has failed.
    pub fn reopen(&mut self) -> Result<(), Refusal>
        ensures call { IsCall (members D.Disk) self.old ask.Reopen (answered (λ u. reply.Reopened) result) self.new }
        ensures last_known { OnErr result (root_of self.new ≡ root_of self.old) }

        // Nothing is written, and a stop at any moment leaves no other image.
        ensures nothing { D.honest (disk_of self.new)
            → AddsNothing D.Disk (disk_of self.old) (disk_of self.new) }
    {
        self.held.invalidate();
        self.tree.reopen()
    }

    /// Ends the store and returns its disk; nothing is written.
    pub fn into_disk(self) -> D
        ensures { result ≡ disk_of self }
    {
        let Store { tree, .. } = self;
        tree.into_disk()
    }

    /// The number of commands accepted since the format, as last known.
    pub fn count(&self) -> u64
        ensures call { IsCall (members D.Disk) self.now ask.Count (reply.Count result) self.now }
        ensures value { result ≡ (root_of self.now).count }
    {
        self.tree.current().count()
    }

    /// The number of the last commit, as last known; 1 after a format.
    pub fn commits(&self) -> u64
        ensures value { result ≡ (root_of self.now).number }
        ensures state { (s : State) → IsAt D.Disk self.now s → result ≡ s.contents.number }
    {
        self.tree.current().number()
    }

    /// Whether the corner has a tile without kept levels and labels, as last known.
    pub fn stale(&self, corner: Corner) -> bool
        ensures value { result ≡ is_listed corner (stale_in (root_of self.now)) }
        ensures state { (s : State) → IsAt D.Disk self.now s
            → result ≡ is_listed corner s.contents.stale }

        // A present tile that isn't stale has a valid kept labelling of its block.
        ensures fresh { D.honest (disk_of self.now) → has_failed self.now ≡ false → (s : State)
            → IsAt D.Disk self.now s → Contains (corners_of s.contents.mosaic) corner
            → result ≡ false → KeepsFresh D.Disk self.now s.contents.mosaic corner }
    {
        derived::stale(&self.tree, corner)
    }

    /// The version of the store's format, 1 or 2, as last known.
    pub fn version(&self) -> u32
        ensures value { result ≡ number_of (root_of self.now).version }
        ensures state { (s : State) → IsAt D.Disk self.now s → result ≡ s.contents.version }
    {
        self.tree.current().format().version().number()
    }

    /// The number of sectors that the second version needs for a store of this side and capacity.
    pub fn sectors_to_upgrade(&self) -> u32
        ensures { result ≡ sectors_asked (format_2 (side_of self.now) (capacity_of self.now)) }
    {
        self.tree.current().format().upgraded().sectors()
    }

    /// The number of samples along an edge of a tile.
    pub fn side(&self) -> u32
        ensures { result ≡ side_of self.now }
    {
        self.tree.current().side().samples()
    }

    /// The number of tiles that the store has room for.
    pub fn capacity(&self) -> u32
        ensures { result ≡ capacity_of self.now }
    {
        self.tree.current().capacity()
    }
}

// Makes an empty store in this version on a disk that has room for it.
fn format_as<D: Disk>(
    disk: &mut D,
    version: Version,
    side: u32,
    capacity: u32,
) -> Result<(), Refusal>
    requires known { IsKnown version }
    ensures formats { Formats D.Disk version side capacity disk.old disk.new result }
    ensures formatted { D.honest disk.new
        → OnOk result ((image : Image) → D.may disk.new image
        → Stands (D.size disk.new) image (no_tiles (format_by version side capacity))) }
{
    let format = Format::new(version, side, capacity)?;
    if disk.sectors() < format.sectors() {
        return Err(Refusal::TooSmall);
    }
    Tree::format(disk, format)
}
