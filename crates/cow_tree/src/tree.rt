//! The tree: tiles and their planes on a disk.
ghost use Rattle.std.specs.Prelude.{◌≡◌, ◌≢◌, ◌≤◌, ◌<◌, ◌+◌, ◌*◌, ◌^◌, ◌⊎◌, ◌↔◌, ℕ, List, All, Contains, IsTrue, length, map, filter, not, true, false, Ok, Err, OnOk, OnErr, IfOk, IfErr, IsErrOf, if◌then◌else◌, slice_range};
ghost use Rattle.disk.specs.Disk.{Image, Only, HasRisen};
ghost use Rattle.disk.specs.Stops.{LeavesOnly, AddsNothing, HasCause};
ghost use Rattle.lattice.specs.Corners.{Corner, same_corner, is_corner};
ghost use Rattle.lattice.specs.Lattice.{IsBefore};
ghost use Rattle.lattice.specs.Mosaic.{AreSinks};
ghost use Rattle.std.specs.List.{AllAdjacentBelow};
ghost use Rattle.lattice.specs.declared.refusal.Refusal.TheVariants.{Device, NoMemory, Failed};
ghost use Rattle.page_codec.specs.Roots.{format_of};
ghost use Rattle.page_codec.specs.Formats.{IsKnown};
ghost use Rattle.page_codec.specs.Sizes.{pages_of, index_pages_of, sectors_asked};
ghost use Rattle.page_map.specs.declared.plane.Plane.TheVariants.{Heights, Levels, Labels};
ghost use Rattle.cow_tree.specs.Caches.{Agrees};
ghost use Rattle.cow_tree.specs.Entries.{entry_of};
ghost use Rattle.cow_tree.specs.Kept.{planes_of_bytes, with_kept};
ghost use Rattle.cow_tree.specs.Layout.{Stands, tile_in};
ghost use Rattle.roots.specs.RootTests.{HasTested};
ghost use Rattle.roots.specs.Slots.{StandsOpen, IsNotPassed, other};
ghost use Rattle.roots.specs.Roots.{disk_of as disk_under, root_of as root_under, has_failed as have_failed};
ghost use Rattle.cow_tree.specs.OverRoots.{IsRefusalOfTree};
ghost use Rattle.cow_tree.specs.Planes.{HasPage};
ghost use Rattle.cow_tree.specs.Staged.{index_page_by};
ghost use Rattle.cow_tree.specs.Upgrades.{MayUpgrade, UpgradesNot, most_upgrade_writes, upgraded_store};
ghost use Rattle.page_codec.specs.declared.version.Version.TheVariants.{Two};
ghost use Rattle.cow_tree.specs.Stored.{Stored, made_stale, no_tiles, next_commit, pages_of_bytes, stale_tile, with_corner, with_page, with_tile, without_tile};

use crate::cache::PageCache;
use crate::entries::staged_entries;
use crate::listings::{Listings, write_listings};
use crate::opening::read_page_map;
use crate::past_planes::PastPlanes;
use crate::sinks::Sinks;
use crate::writing::{write_kept, write_plane};
use arrayvec::ArrayVec;
use disk::{Disk, Fault};
use lattice::{Corner, MOST_TILES, Point, Refusal};
use page_codec::{Format, PAGE_BYTES, Root, Version};
use page_map::{PageMap, Plane};
use roots::{NotOpened, Roots};
use std::alloc::Global;

const TILES: usize = MOST_TILES as usize;

/// The tiles of a store and their planes, page by page, on a disk.
///
/// Pages are staged, and a commit makes all staged pages current at once. If the disk fails, a call answers Device.
/// After that, and after a refused reopening, only a reopening helps.
#[derive(Drop)]
pub struct Tree<D: Disk> {
    pub(crate) alloc: Global,
    roots: Roots<D>,
    page_map: PageMap,
    sinks: Sinks,
    // Pages that were read lately.
    cache: PageCache,
    // The pages that planes of stale tiles had. A reopening forgets them.
    past: PastPlanes,
    ghost sectors: { page_map.sectors ≡ D.Disk.size (disk_under roots) },
    ghost fits: { page_map.sectors < 2 ^ 32 },
    ghost format: { page_map.format ≡ format_of (root_under roots) },
    ghost entries: { map entry_of page_map.committed ≡ (root_under roots).entries },
    ghost declared: { sinks.side ≡ (root_under roots).side },
    ghost cached: { D.Disk.honest (disk_under roots) → have_failed roots ≡ false
        → Agrees cache (D.Disk.seen (disk_under roots)) },
}

impl<D: Disk> Tree<D> {
    ghost use Rattle.cow_tree.specs.Clean.{IsClean};
    ghost use Rattle.cow_tree.specs.Reading.{Reads};
    ghost use Rattle.cow_tree.specs.Trees.{disk_of, root_of, slot_of, past_sector, page_map_of, has_failed, has_begun, corners_of, sinks_of, Holds, HasStaged, IsUnstaged, records_due, disk_after, staged_in, IsAt, MayRefuse};
    ghost use Rattle.cow_tree.specs.Uncommitted.{CommitsNothing, MakesNoCall, Returns};

    /// Makes an empty store of this format on a disk. A fault before the Ok may leave anything.
    //
    // Out of line, since its frame is large. If a caller tests its arguments before it makes room for such a frame,
    // clang may keep a value of these tests in the register by which it touches the frame's pages.
    #[inline(never)]
    pub fn format(disk: &mut D, format: Format) -> Result<(), Refusal>
        requires known { IsKnown format.version }
        requires room { sectors_asked format ≤ D.size disk.old }
        ensures size { D.size disk.new ≡ D.size disk.old }
        ensures cause { HasCause (D.failures disk.old) (D.failures disk.new) result }
        ensures refused { IfErr result (λ refusal. refusal ≡ Device) }
        ensures writes { D.writes disk.new ≤ D.writes disk.old + 4 }
        ensures honest { D.honest disk.new → D.honest disk.old }
        ensures formatted { D.honest disk.new
            → OnOk result ((image : Image) → D.may disk.new image
            → Stands (D.size disk.new) image (no_tiles format)) }
    {
        Roots::format(disk, &Root::empty(format))
    }

    /// Opens a disk, which a stop may have left in the middle of a commit: the roots, and then the records and index
    /// pages that the current root reaches. Nothing is written. A refusal returns the disk.
    ///
    /// Refusals: those of the roots; NoMemory; and Damaged. A store is Damaged if a record or an index page has nonzero
    /// bytes after its numbers. It also is if the pages named by entries, records and index pages aren't all distinct
    /// pages of the disk.
    pub fn open(alloc: Global, disk: D) -> Result<Tree<D>, NotOpened<D>>
        ensures size { D.size (disk_after result) ≡ D.size disk }
        ensures writes { D.writes (disk_after result) ≡ D.writes disk }
        ensures later { D.failures disk ≤ D.failures (disk_after result) }
        ensures refusals { IfErr result (λ e. IsRefusalOfTree e.refusal) }
        ensures device { IfErr result (λ e. e.refusal ≡ Device
            → HasRisen (D.failures disk) (D.failures e.disk)) }
        ensures nothing { D.honest (disk_after result)
            → AddsNothing D.Disk disk (disk_after result) }
        ensures at { IfOk result (λ tree. D.honest (disk_of tree)
            → (s : Stored) × (Stands (D.size disk) (D.seen disk) s
            × (IsAt D.Disk tree s × (staged_in D.Disk tree ≡ s.tiles)))) }
        ensures refused { D.honest (disk_after result)
            → IfErr result (λ e. MayRefuse (D.size disk) (D.seen disk) e.refusal) }

        // If an image stores something, opening refuses it only with Device or NoMemory.
        ensures sure { D.honest (disk_after result) → (s : Stored)
            → Stands (D.size disk) (D.seen disk) s
            → IfErr result (λ e. (e.refusal ≡ Device) ⊎ (e.refusal ≡ NoMemory)) }
        ensures durable { D.honest (disk_after result)
            → OnOk result (Only (D.seen (disk_after result)) (D.may (disk_after result))) }
        ensures not_failed { IfOk result (λ tree. has_failed tree ≡ false) }
        ensures not_begun { IfOk result (λ tree. has_begun tree ≡ false) }
        ensures clean { IfOk result IsClean }
        ensures sinks { IfOk result (λ tree. sinks_of tree ≡ (root_of tree).sinks) }
    {
        let Ok(cache) = PageCache::new(alloc) else {
            return Err(NotOpened {
                disk,
                refusal: Refusal::NoMemory,
            });
        };
        let mut roots = Roots::open(disk)?;
        let root = roots.current().copy();
        match read_page_map(alloc, &mut roots, &root) {
            Ok(page_map) => Ok(Tree {
                alloc,
                roots,
                page_map,
                sinks: Sinks::of(&root),
                cache,
                past: PastPlanes::new(alloc),
            }),
            Err(refusal) => Err(NotOpened {
                disk: roots.into_disk(),
                refusal,
            }),
        }
    }

    /// Opens the disk again, for example after a fault, and forgets what was known and staged. If the reopening is
    /// refused, the last known root stays.
    pub fn reopen(&mut self) -> Result<(), Refusal>
        ensures size { D.size (disk_of self.new) ≡ D.size (disk_of self.old) }
        ensures writes { D.writes (disk_of self.new) ≡ D.writes (disk_of self.old) }
        ensures later { D.failures (disk_of self.old) ≤ D.failures (disk_of self.new) }
        ensures refusals { IfErr result IsRefusalOfTree }
        ensures device { IsErrOf result Device
            → HasRisen (D.failures (disk_of self.old)) (D.failures (disk_of self.new)) }
        ensures nothing { D.honest (disk_of self.new)
            → AddsNothing D.Disk (disk_of self.old) (disk_of self.new) }
        ensures at { D.honest (disk_of self.new)
            → OnOk result ((s : Stored)
            × (Stands (D.size (disk_of self.old)) (D.seen (disk_of self.old)) s
            × (IsAt D.Disk self.new s × (staged_in D.Disk self.new ≡ s.tiles)))) }
        ensures refused { D.honest (disk_of self.new)
            → IfErr result (MayRefuse (D.size (disk_of self.old)) (D.seen (disk_of self.old))) }

        // If an image stores something, reopening refuses it only with Device or NoMemory.
        ensures sure { D.honest (disk_of self.new) → (s : Stored)
            → Stands (D.size (disk_of self.old)) (D.seen (disk_of self.old)) s
            → IfErr result (λ refusal. (refusal ≡ Device) ⊎ (refusal ≡ NoMemory)) }
        ensures durable { D.honest (disk_of self.new)
            → OnOk result (Only (D.seen (disk_of self.new)) (D.may (disk_of self.new))) }
        ensures not_failed { OnOk result (has_failed self.new ≡ false) }
        ensures not_begun { OnOk result (has_begun self.new ≡ false) }
        ensures failed { OnErr result (has_failed self.new ≡ true) }
        ensures last_known { OnErr result (root_of self.new ≡ root_of self.old) }
        ensures clean { OnOk result (IsClean self.new) }
        ensures sinks { OnOk result (sinks_of self.new ≡ (root_of self.new).sinks) }
    {
        self.cache.clear();
        self.past.clear();
        let known = self.roots.current().copy();
        self.roots.reopen()?;
        let root = self.roots.current().copy();
        match read_page_map(self.alloc, &mut self.roots, &root) {
            Ok(page_map) => {
                self.page_map = page_map;
                self.sinks = Sinks::of(&root);
                Ok(())
            }
            Err(refusal) => {
                self.roots.fail(known);
                Err(refusal)
            }
        }
    }

    /// The current root as last known.
    pub fn current(&self) -> &Root
        ensures { result.now ≡ root_of self.now }
    {
        self.roots.current()
    }

    /// Whether the disk refused a call or a reopening was refused, and no opening has succeeded since.
    pub fn has_failed(&self) -> bool
        ensures { result ≡ has_failed self.now }
    {
        self.roots.has_failed()
    }

    /// Whether the corner has a tile, as the next commit will store it.
    pub fn present(&self, c: Corner) -> bool
        ensures answer { IsTrue result ↔ Contains (corners_of self.now) c }
        ensures in_order { AllAdjacentBelow IsBefore (corners_of self.now) (length (corners_of self.now)) }
        ensures whole_degrees { All (λ d. IsTrue (is_corner d)) (corners_of self.now) }
    {
        self.page_map.rules();
        self.page_map.is_present(c)
    }

    /// Whether levels and labels of the corner's tile are kept, as the next commit will store them.
    pub fn keeps(&self, c: Corner) -> bool
        ensures levels { IsTrue result ↔ Holds self.now c Levels }
        ensures labels { IsTrue result ↔ Holds self.now c Labels }
    {
        self.page_map.plane(c, Plane::Levels).is_some()
    }

    /// The corners of the tiles, in order, as the next commit will store them.
    pub fn corners(&self) -> ArrayVec<Corner, TILES>
        ensures corners { result.items ≡ corners_of self.now }
        ensures in_order { AllAdjacentBelow IsBefore (corners_of self.now) (length (corners_of self.now)) }
        ensures whole_degrees { All (λ d. IsTrue (is_corner d)) (corners_of self.now) }
    {
        self.page_map.rules();
        self.page_map.corners()
    }

    /// The declared sinks, in order, as the next commit will store them.
    pub fn sinks(&self) -> &[Point]
        ensures value { result.now ≡ sinks_of self.now }
        ensures valid { AreSinks (root_of self.now).side (sinks_of self.now) }
    {
        self.sinks.points()
    }

    /// Declares these points as the only sinks, from the next commit on. No call of the disk is made.
    pub fn declare(&mut self, sinks: &[Point])
        requires { AreSinks (root_of self.old).side sinks.now }
        ensures no_call { MakesNoCall self.old self.new }
        ensures sinks { sinks_of self.new ≡ sinks.now }
        ensures page_map { page_map_of self.new ≡ page_map_of self.old }
        ensures staged { staged_in D.Disk self.new ≡ staged_in D.Disk self.old }
        ensures at { (s : Stored) → IsAt D.Disk self.old s → IsAt D.Disk self.new s }
    {
        self.sinks = Sinks::new(self.roots.current().side(), sinks);
    }

    /// The number of the disk's sectors, at least four.
    pub fn sectors(&self) -> u32
        ensures value { result ≡ D.size (disk_of self.now) }
        ensures large { 4 ≤ result }
    {
        self.roots.sectors()
    }

    /// The disk, without the tree.
    pub fn into_disk(self) -> D
        ensures { result ≡ disk_of self }
    {
        let Tree { roots, .. } = self;
        roots.into_disk()
    }

    /// Reads page `i` of a plane, as the next commit will have it. Nothing is written. Refused with Device, or with
    /// Failed if the tree had failed; then no call of the disk is made.
    pub fn read_page(
        &mut self,
        c: Corner,
        plane: Plane,
        i: u32,
        into: &mut [u8; PAGE_BYTES],
    ) -> Result<(), Refusal>
        requires held { Holds self.old c plane }
        requires index { i < pages_of (root_of self.old).side }
        ensures reads { Reads D.Disk self.old self.new result }
        ensures page { D.honest (disk_of self.new)
            → OnOk result (HasPage (staged_in D.Disk self.old) c plane i into.new) }
        ensures failed { has_failed self.old ≡ true
            → (result ≡ Err Failed) × (disk_of self.new ≡ disk_of self.old) }
    {
        self.read_bytes(c, plane, i, 0, into)
    }

    /// Reads two bytes of page `i` of a plane, from `from` on, as the next commit will have it. A cached page isn't
    /// copied for them. Refused as [`Tree::read_page`] is.
    pub fn read_two(
        &mut self,
        c: Corner,
        plane: Plane,
        i: u32,
        from: usize,
        into: &mut [u8; 2],
    ) -> Result<(), Refusal>
        requires held { Holds self.old c plane }
        requires index { i < pages_of (root_of self.old).side }
        requires inside { from + 2 ≤ 4096 }
        ensures reads { Reads D.Disk self.old self.new result }
        ensures two { D.honest (disk_of self.new)
            → OnOk result ((bytes : List ℕ)
            × (HasPage (staged_in D.Disk self.old) c plane i bytes
            × (slice_range bytes from (from + 2) ≡ into.new))) }
    {
        self.read_bytes(c, plane, i, from, into)
    }

    // Copies bytes of page `i` of a plane into `into`, from `from` on.
    fn read_bytes(
        &mut self,
        c: Corner,
        plane: Plane,
        i: u32,
        from: usize,
        into: &mut [u8],
    ) -> Result<(), Refusal>
        requires held { Holds self.old c plane }
        requires index { i < pages_of (root_of self.old).side }
        requires inside { from + length into.old ≤ 4096 }
        ensures reads { Reads D.Disk self.old self.new result }
        ensures bytes { D.honest (disk_of self.new)
            → OnOk result ((bytes : List ℕ)
            × (HasPage (staged_in D.Disk self.old) c plane i bytes
            × ((length bytes ≡ 4096)
            × (slice_range bytes from (from + length into.old) ≡ into.new)))) }
        ensures length { length into.new ≡ length into.old }
        ensures failed { has_failed self.old ≡ true
            → (result ≡ Err Failed) × (disk_of self.new ≡ disk_of self.old) }
    {
        if self.roots.has_failed() {
            return Err(Refusal::Failed);
        }
        let number = self.page_number(c, plane, i);
        if self.cache.find(number, from, into) {
            return Ok(());
        }
        let mut page = [0; PAGE_BYTES];
        let answer = self.roots.read(number, &mut page);
        if answer.is_ok() {
            self.cache.keep(number, &page);
        }
        into.copy_from_slice(&page[from..from + into.len()]);
        answer
    }

    /// Reads page `i` of a plane as [`Tree::read_page`] does, but doesn't cache it: for callers that read a whole
    /// plane.
    pub fn scan_page(
        &mut self,
        c: Corner,
        plane: Plane,
        i: u32,
        into: &mut [u8; PAGE_BYTES],
    ) -> Result<(), Refusal>
        requires held { Holds self.old c plane }
        requires index { i < pages_of (root_of self.old).side }
        ensures reads { Reads D.Disk self.old self.new result }
        ensures page { D.honest (disk_of self.new)
            → OnOk result (HasPage (staged_in D.Disk self.old) c plane i into.new) }
        ensures failed { has_failed self.old ≡ true
            → (result ≡ Err Failed) × (disk_of self.new ≡ disk_of self.old) }
    {
        if self.roots.has_failed() {
            return Err(Refusal::Failed);
        }
        let number = self.page_number(c, plane, i);
        self.roots.read(number, into)
    }

    /// The sector that page `i` of levels or labels of the corner's tile had before the tile went stale, if it is
    /// remembered. It may contain anything by now.
    pub fn past_sector(&self, c: Corner, plane: Plane, i: u32) -> Option<u32>
        ensures { result ≡ past_sector self.now c plane i }
    {
        let sector = self.past.page(c, plane, i)?;
        (sector < self.roots.sectors()).then_some(sector)
    }

    /// Reads a sector, whatever it contains. A fault is only counted and answered.
    pub fn peek_sector(&mut self, sector: u32, into: &mut [u8; PAGE_BYTES]) -> Result<(), Fault>
        requires works { has_failed self.old ≡ false }
        requires in_range { sector < D.size (disk_of self.old) }
        ensures reads { Reads {T = Unit {0}} D.Disk self.old self.new (Ok tt) }
        ensures cause { HasCause (D.failures (disk_of self.old)) (D.failures (disk_of self.new)) result }
        ensures bytes { D.honest (disk_of self.new)
            → OnOk result (into.new ≡ D.seen (disk_of self.old) sector) }
    {
        self.roots.peek(sector, into)
    }

    /// Whether the current root stands unchanged behind its gate, as [`Roots::confirm`] says. Refused with Device, or with Failed
    /// where the tree had failed; then no call of the disk is made.
    pub fn confirm(&mut self) -> Result<bool, Refusal>
        ensures reads { Reads D.Disk self.old self.new result }
        ensures yes { D.honest (disk_of self.new) → (s : Stored) → IsAt D.Disk self.old s
            → IfOk result (λ yes. yes ≡ true) }
        ensures tested { IfOk result (λ yes. HasTested D.Disk (slot_of self.old) (root_of self.old) (disk_of self.old) yes (disk_of self.new)) }
        ensures stands { D.honest (disk_of self.new)
            → result ≡ Ok true → StandsOpen (root_of self.old) (D.seen (disk_of self.old)) }
        ensures failed { has_failed self.old ≡ true
            → (result ≡ Err Failed) × (disk_of self.new ≡ disk_of self.old) }
    {
        if self.roots.has_failed() {
            return Err(Refusal::Failed);
        }
        self.roots.confirm()
    }

    /// Whether no later root stands behind the other gate, as [`Roots::is_current`] says. Refused as `confirm` is.
    pub fn is_current(&mut self) -> Result<bool, Refusal>
        ensures reads { Reads D.Disk self.old self.new result }
        ensures yes { D.honest (disk_of self.new) → (s : Stored) → IsAt D.Disk self.old s
            → IfOk result (λ yes. yes ≡ true) }
        ensures greatest { D.honest (disk_of self.new) → result ≡ Ok true
            → IsNotPassed (other (slot_of self.old)) (root_of self.old) (D.seen (disk_of self.old)) }
        ensures failed { has_failed self.old ≡ true
            → (result ≡ Err Failed) × (disk_of self.new ≡ disk_of self.old) }
    {
        if self.roots.has_failed() {
            return Err(Refusal::Failed);
        }
        self.roots.is_current()
    }

    // Where page `i` of a plane lies, as the next commit will have it.
    fn page_number(&self, c: Corner, plane: Plane, i: u32) -> u32
        requires held { Holds self.now c plane }
        requires index { i < pages_of (root_of self.now).side }
        ensures low { 4 ≤ result }
        ensures high { result < D.size (disk_of self.now) }
        ensures page { (image : Image) (bytes : List ℕ) → bytes ≡ image result
            → HasPage (map (tile_in image) (page_map_of self.now).staged) c plane i bytes }
    {
        self.page_map.rules();
        match self.page_map.plane(c, plane) {
            Some(location) => location.pages()[i as usize],
            None => unreachable!(),
        }
    }

    /// Stages new content for page `i` of heights; the plane named is heights. The committed content stays on the disk
    /// until the next commit is done. Refused with NoMemory, and then nothing was done, or with Device.
    pub fn stage(
        &mut self,
        c: Corner,
        plane: Plane,
        i: u32,
        page: &[u8; PAGE_BYTES],
    ) -> Result<(), Refusal>
        requires not_failed { has_failed self.old ≡ false }
        requires heights { plane ≡ Heights }
        requires present { Contains (corners_of self.old) c }
        requires index { i < pages_of (root_of self.old).side }
        ensures uncommitted { CommitsNothing D.Disk self.old self.new result }
        ensures refused { IfErr result (λ refusal. (refusal ≡ Device) ⊎ (refusal ≡ NoMemory)) }
        ensures writes { D.writes (disk_of self.new) ≤ D.writes (disk_of self.old)
            + (if has_begun self.old then 1 else 2) }
        ensures corners { corners_of self.new ≡ corners_of self.old }
        ensures sinks { sinks_of self.new ≡ sinks_of self.old }
        ensures works { has_failed self.new ≡ false ⊎ IsErrOf result Device }
        ensures begun { OnOk result (has_begun self.new ≡ true) }
        ensures unchanged { IsErrOf result NoMemory → disk_of self.new ≡ disk_of self.old }
        ensures same { IsErrOf result NoMemory
            → staged_in D.Disk self.new ≡ staged_in D.Disk self.old }

        // Heights that were staged before need no memory and no further record. In the second version one more index
        // page may be due.
        ensures sure { HasStaged self.old c → ¬ IsErrOf result NoMemory }
        ensures due { records_due self.new ≤ records_due self.old
            + (1 + index_page_by (root_of self.old).version) }
        ensures due_same { HasStaged self.old c
            → records_due self.new ≤ records_due self.old
            + index_page_by (root_of self.old).version }
        ensures due_before { records_due self.old ≤ records_due self.new }
        ensures has_staged { OnOk result (HasStaged self.new c) }
        ensures still_staged { (other : Corner) → HasStaged self.old other
            → HasStaged self.new other }

        // Only this page is staged.
        ensures staged { D.honest (disk_of self.new) → (s : Stored) → IsAt D.Disk self.old s
            → OnOk result (staged_in D.Disk self.new ≡ with_page c i page.now (staged_in D.Disk self.old)) }
    {
        prove!(plane == Plane::Heights);
        self.page_map.rules();
        let number = self.page_map.page_for_writing(c, i)?;
        self.cache.forget(number);
        self.roots.write(number, page)
    }

    /// Stages the heights of the corner's tile without a change, so that staging pages of them needs no memory until
    /// the next commit or `abandon`. No call of the disk is made. Refused with NoMemory, and then nothing was done.
    pub fn prepare(&mut self, c: Corner) -> Result<(), Refusal>
        requires present { Contains (corners_of self.old) c }
        ensures refused { IfErr result (λ refusal. refusal ≡ NoMemory) }
        ensures unchanged { OnErr result (page_map_of self.new ≡ page_map_of self.old) }
        ensures no_call { MakesNoCall self.old self.new }
        ensures corners { corners_of self.new ≡ corners_of self.old }
        ensures sinks { sinks_of self.new ≡ sinks_of self.old }
        ensures staged { staged_in D.Disk self.new ≡ staged_in D.Disk self.old }
        ensures due { records_due self.new ≤ records_due self.old + 1 }
        ensures due_same { HasStaged self.old c → records_due self.new ≡ records_due self.old }
        ensures has_staged { OnOk result (HasStaged self.new c) }
        ensures still_staged { (other : Corner) → HasStaged self.old other
            → HasStaged self.new other }
        ensures at { (s : Stored) → IsAt D.Disk self.old s → IsAt D.Disk self.new s }
    {
        self.page_map.rules();
        self.page_map.prepare(c)
    }

    /// Stages a tile for a corner that has none, with these bytes of heights, two a sample; the plane named is heights.
    /// Refused with NoMemory, and then nothing was done, or with Device.
    pub fn stage_plane(&mut self, c: Corner, plane: Plane, bytes: &[u8]) -> Result<(), Refusal>
        requires not_failed { has_failed self.old ≡ false }
        requires heights { plane ≡ Heights }
        requires absent { ¬ Contains (corners_of self.old) c }
        requires room { length (corners_of self.old) < (root_of self.old).capacity }
        requires whole { length bytes.now ≡ 2 * ((root_of self.old).side * (root_of self.old).side) }
        ensures uncommitted { CommitsNothing D.Disk self.old self.new result }
        ensures refused { IfErr result (λ refusal. (refusal ≡ Device) ⊎ (refusal ≡ NoMemory)) }
        ensures writes { D.writes (disk_of self.new) ≤ D.writes (disk_of self.old)
            + pages_of (root_of self.old).side + (if has_begun self.old then 0 else 1) }
        ensures works { has_failed self.new ≡ false ⊎ IsErrOf result Device }
        ensures unchanged { IsErrOf result NoMemory → disk_of self.new ≡ disk_of self.old }
        ensures same { IsErrOf result NoMemory
            → staged_in D.Disk self.new ≡ staged_in D.Disk self.old }
        ensures corners { OnOk result (corners_of self.new ≡ with_corner c (corners_of self.old)) }
        ensures same_corners { IsErrOf result NoMemory → corners_of self.new ≡ corners_of self.old }
        ensures sinks { sinks_of self.new ≡ sinks_of self.old }
        ensures begun { OnOk result (D.writes (disk_of self.new) + (if has_begun self.new then 0 else 1)
            ≤ D.writes (disk_of self.old) + pages_of (root_of self.old).side + (if has_begun self.old then 0 else 1)) }
        ensures due { OnOk result (records_due self.new ≡ records_due self.old
            + (1 + index_pages_of (format_of (root_of self.old)))) }
        ensures has_staged { OnOk result (HasStaged self.new c) }

        // Only this tile is staged.
        ensures staged { D.honest (disk_of self.new) → (s : Stored) → IsAt D.Disk self.old s
            → OnOk result (staged_in D.Disk self.new ≡ with_tile (stale_tile c (pages_of_bytes (pages_of (root_of self.old).side) bytes.now)) (staged_in D.Disk self.old)) }
    {
        prove!(plane == Plane::Heights);
        self.page_map.tile_for_writing(c)?;
        self.cache.clear();
        match self.page_map.plane(c, Plane::Heights) {
            Some(plane) => write_plane(&mut self.roots, plane.pages(), bytes),
            None => unreachable!(),
        }
    }

    /// Stages these levels and labels of the corner's tile, two bytes a point; nothing else may be staged. The next
    /// commit makes them current. Refused with NoMemory, and then nothing was done, or with Device.
    pub fn stage_kept(&mut self, c: Corner, levels: &[u8], labels: &[u8]) -> Result<(), Refusal>
        requires not_failed { has_failed self.old ≡ false }
        requires present { Contains (corners_of self.old) c }
        requires unstaged { IsUnstaged self.old }
        requires levels { length levels.now ≡ 2 * ((root_of self.old).side * (root_of self.old).side) }
        requires labels { length labels.now ≡ 2 * ((root_of self.old).side * (root_of self.old).side) }
        ensures uncommitted { CommitsNothing D.Disk self.old self.new result }
        ensures refused { IfErr result (λ refusal. (refusal ≡ Device) ⊎ (refusal ≡ NoMemory)) }
        ensures writes { D.writes (disk_of self.new) ≤ D.writes (disk_of self.old)
            + 2 * pages_of (root_of self.old).side + (if has_begun self.old then 0 else 1) }
        ensures begun { OnOk result (D.writes (disk_of self.new) + (if has_begun self.new then 0 else 1)
            ≤ D.writes (disk_of self.old) + 2 * pages_of (root_of self.old).side + (if has_begun self.old then 0 else 1)) }
        ensures corners { corners_of self.new ≡ corners_of self.old }
        ensures sinks { sinks_of self.new ≡ sinks_of self.old }
        ensures works { has_failed self.new ≡ false ⊎ IsErrOf result Device }
        ensures unchanged { IsErrOf result NoMemory → disk_of self.new ≡ disk_of self.old }
        ensures same { IsErrOf result NoMemory → page_map_of self.new ≡ page_map_of self.old }
        ensures due { records_due self.new ≤ records_due self.old
            + 2 * (1 + index_pages_of (format_of (root_of self.old))) }

        // Only these levels and labels are staged.
        ensures staged { D.honest (disk_of self.new) → (s : Stored) → IsAt D.Disk self.old s
            → OnOk result (staged_in D.Disk self.new ≡ with_kept c (planes_of_bytes (root_of self.old).side levels.now labels.now) (staged_in D.Disk self.old)) }
    {
        self.page_map.rules();
        self.page_map.keep(c)?;
        self.cache.clear();
        let Some(levels_at) = self.page_map.plane(c, Plane::Levels) else {
            unreachable!()
        };
        let Some(labels_at) = self.page_map.plane(c, Plane::Labels) else {
            unreachable!()
        };
        write_kept(&mut self.roots, levels_at, labels_at, levels, labels)
    }

    /// Makes all that was staged current, with this count of accepted commands and the next commit number. A stop at
    /// any moment leaves the old content or, once the new root is written, the new content. After Ok a stop leaves only
    /// the new content. The only refusal is Device.
    pub fn commit(&mut self, count: u64) -> Result<(), Refusal>
        requires not_failed { has_failed self.old ≡ false }
        requires number { (root_of self.old).number + 1 < 2 ^ 64 }
        requires count { count ≤ (root_of self.old).number }
        ensures returns { Returns D.Disk self.old self.new result }
        ensures refused { IfErr result (λ refusal. refusal ≡ Device) }
        ensures writes { D.writes (disk_of self.new) ≤ D.writes (disk_of self.old)
            + records_due self.old + (if has_begun self.old then 2 else 3) }
        ensures corners { corners_of self.new ≡ corners_of self.old }
        ensures sinks { sinks_of self.new ≡ sinks_of self.old }
        ensures failed { OnErr result (has_failed self.new ≡ true) }
        ensures last_known { OnErr result (root_of self.new ≡ root_of self.old) }
        ensures number { OnOk result ((root_of self.new).number ≡ (root_of self.old).number + 1) }
        ensures count { OnOk result ((root_of self.new).count ≡ count) }
        ensures version { (root_of self.new).version ≡ (root_of self.old).version }
        ensures side { (root_of self.new).side ≡ (root_of self.old).side }
        ensures capacity { (root_of self.new).capacity ≡ (root_of self.old).capacity }
        ensures not_begun { OnOk result (has_begun self.new ≡ false) }
        ensures clean { OnOk result (IsClean self.new) }
        ensures declared { OnOk result ((root_of self.new).sinks ≡ sinks_of self.old) }
        ensures at { D.honest (disk_of self.new) → (s : Stored) → IsAt D.Disk self.old s
            → OnOk result (IsAt D.Disk self.new (next_commit s (sinks_of self.old) (staged_in D.Disk self.old) count)) }
        ensures staged { D.honest (disk_of self.new) → (s : Stored) → IsAt D.Disk self.old s
            → OnOk result (staged_in D.Disk self.new ≡ staged_in D.Disk self.old) }
        ensures durable { D.honest (disk_of self.new)
            → OnOk result (Only (D.seen (disk_of self.new)) (D.may (disk_of self.new))) }
        ensures any_moment { D.honest (disk_of self.new) → (s : Stored) → IsAt D.Disk self.old s
            → LeavesOnly D.Disk (disk_of self.old) (disk_of self.new) (λ image. Stands (D.size (disk_of self.old)) image s
            ⊎ Stands (D.size (disk_of self.old)) image (next_commit s (sinks_of self.old) (staged_in D.Disk self.old) count)) }
    {
        self.page_map.rules();
        let current = self.roots.current();
        let entries = staged_entries(&self.page_map, current.entries());
        let root = current.next(count, entries).with_sinks(self.sinks.points());
        write_listings(
            &mut self.roots,
            &mut self.cache,
            &self.page_map,
            Listings::Due,
        )?;
        self.roots.commit(&root)?;
        self.page_map.commit();
        Ok(())
    }

    /// Upgrades the store to the second version, by one commit with the same tiles, sinks and count of commands. Each
    /// plane gets a new record and new index pages; its other pages stay. A stop at any moment leaves the store
    /// unchanged or upgraded; after Ok only upgraded.
    ///
    /// Refusals, in this order: NotOld if the store is of the second version; TooSmall if the disk has fewer sectors
    /// than that version needs; Worn if the commit number can't grow; NoMemory. After these nothing was done. Then
    /// Device.
    pub fn upgrade(&mut self) -> Result<(), Refusal>
        requires not_failed { has_failed self.old ≡ false }
        requires unstaged { IsUnstaged self.old }
        ensures returns { Returns D.Disk self.old self.new result }
        ensures refused { IfErr result (UpgradesNot (D.size (disk_of self.old)) (root_of self.old)) }
        ensures allowed { OnOk result (MayUpgrade (D.size (disk_of self.old)) (root_of self.old)) }
        ensures unchanged { IfErr result (λ why. why ≢ Device → self.new ≡ self.old) }
        ensures writes { D.writes (disk_of self.new) ≤ D.writes (disk_of self.old)
            + most_upgrade_writes (root_of self.old) }
        ensures last_known { OnErr result (root_of self.new ≡ root_of self.old) }
        ensures version { OnOk result ((root_of self.new).version ≡ Two) }
        ensures number { OnOk result ((root_of self.new).number ≡ (root_of self.old).number + 1) }
        ensures count { (root_of self.new).count ≡ (root_of self.old).count }
        ensures side { (root_of self.new).side ≡ (root_of self.old).side }
        ensures capacity { (root_of self.new).capacity ≡ (root_of self.old).capacity }
        ensures declared { (root_of self.new).sinks ≡ (root_of self.old).sinks }
        ensures corners { corners_of self.new ≡ corners_of self.old }
        ensures sinks { sinks_of self.new ≡ sinks_of self.old }
        ensures not_begun { OnOk result (has_begun self.new ≡ false) }
        ensures clean { OnOk result (IsClean self.new) }
        ensures at { D.honest (disk_of self.new) → (s : Stored) → IsAt D.Disk self.old s
            → OnOk result (IsAt D.Disk self.new (upgraded_store s)) }
        ensures staged { D.honest (disk_of self.new) → (s : Stored) → IsAt D.Disk self.old s
            → OnOk result (staged_in D.Disk self.new ≡ s.tiles) }
        ensures durable { D.honest (disk_of self.new)
            → OnOk result (Only (D.seen (disk_of self.new)) (D.may (disk_of self.new))) }
        ensures any_moment { D.honest (disk_of self.new) → (s : Stored) → IsAt D.Disk self.old s
            → LeavesOnly D.Disk (disk_of self.old) (disk_of self.new) (λ image. Stands (D.size (disk_of self.old)) image s
            ⊎ Stands (D.size (disk_of self.old)) image (upgraded_store s)) }
    {
        self.allow_upgrade()?;
        let page_map = self.page_map.upgraded()?;
        let entries = staged_entries(&page_map, &[]);
        let root = self.roots.current().upgraded(entries);
        write_listings(&mut self.roots, &mut self.cache, &page_map, Listings::All)?;
        self.roots.commit(&root)?;
        self.page_map = page_map;
        Ok(())
    }

    // Refuses an upgrade that the store's version, its disk or its commit number doesn't allow.
    fn allow_upgrade(&self) -> Result<(), Refusal>
        ensures refused { IfErr result (UpgradesNot (D.size (disk_of self.now)) (root_of self.now)) }
        ensures no_fault { IfErr result (λ why. why ≢ Device) }
        ensures allowed { OnOk result (MayUpgrade (D.size (disk_of self.now)) (root_of self.now)) }
    {
        let format = self.roots.current().format();
        match format.version() {
            Version::One => (),
            Version::Two => return Err(Refusal::NotOld),
        }
        if self.sectors() < format.upgraded().sectors() {
            return Err(Refusal::TooSmall);
        }
        if self.roots.current().number() == u64::MAX {
            return Err(Refusal::Worn);
        }
        Ok(())
    }

    /// Drops all that is staged.
    pub fn abandon(&mut self)
        ensures no_call { MakesNoCall self.old self.new }
        ensures clean { IsClean self.new }
        ensures sinks { sinks_of self.new ≡ (root_of self.new).sinks }
        ensures at { D.honest (disk_of self.old) → (s : Stored) → IsAt D.Disk self.old s
            → IsAt D.Disk self.new s }
        ensures committed { D.honest (disk_of self.old) → (s : Stored) → IsAt D.Disk self.old s
            → staged_in D.Disk self.new ≡ s.tiles }
        ensures undeclared { D.honest (disk_of self.old) → (s : Stored) → IsAt D.Disk self.old s
            → sinks_of self.new ≡ s.sinks }
    {
        self.cache.clear();
        self.page_map.rollback();
        self.sinks = Sinks::of(self.roots.current());
    }

    /// Removes the corner's tile, with all its planes; the plane named is heights. Nothing of the tile was staged since
    /// the last commit. No call of the disk is made.
    pub fn drop_plane(&mut self, c: Corner, plane: Plane)
        requires not_failed { has_failed self.old ≡ false }
        requires heights { plane ≡ Heights }
        requires present { Contains (corners_of self.old) c }
        requires settled { ¬ HasStaged self.old c }
        ensures no_call { MakesNoCall self.old self.new }
        ensures corners { corners_of self.new ≡ filter (λ other. not (same_corner other c)) (corners_of self.old) }
        ensures sinks { sinks_of self.new ≡ sinks_of self.old }
        ensures due { records_due self.new ≤ records_due self.old }
        ensures staged { staged_in D.Disk self.new ≡ without_tile c (staged_in D.Disk self.old) }
        ensures at { (s : Stored) → IsAt D.Disk self.old s → IsAt D.Disk self.new s }
    {
        prove!(plane == Plane::Heights);
        self.page_map.remove_tile(c);
    }

    /// Removes the levels and labels of the corner's tile, if it keeps them; its heights stay. No call of the disk is
    /// made.
    pub fn drop_kept(&mut self, c: Corner)
        requires { Contains (corners_of self.old) c }
        ensures no_call { MakesNoCall self.old self.new }
        ensures corners { corners_of self.new ≡ corners_of self.old }
        ensures sinks { sinks_of self.new ≡ sinks_of self.old }
        ensures due { records_due self.new ≤ records_due self.old }
        ensures still_staged { (other : Corner) → HasStaged self.old other
            → HasStaged self.new other }
        ensures staged { staged_in D.Disk self.new ≡ made_stale c (staged_in D.Disk self.old) }
        ensures at { (s : Stored) → IsAt D.Disk self.old s → IsAt D.Disk self.new s }
    {
        self.page_map.rules();
        self.past.note(
            self.alloc,
            c,
            self.page_map.plane(c, Plane::Levels),
            self.page_map.plane(c, Plane::Labels),
        );
        self.page_map.drop_kept(c);
    }
}
