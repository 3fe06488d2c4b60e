//! The roots of a disk.
ghost use Rattle.std.specs.Prelude.{◌≡◌, ◌≤◌, ◌<◌, ◌+◌, ◌⊎◌, true, false, Ok, Err, IsOk, OnOk, OnErr, IfOk, IfErr, IsErrOf, if◌then◌else◌};
ghost use Rattle.disk.specs.Disk.{SameBut, Only, counted, HasRisen};
ghost use Rattle.disk.specs.Stops.{LeavesOnly, AddsNothing, HasCause};
ghost use Rattle.lattice.specs.declared.refusal.Refusal.TheVariants.{Device};
ghost use Rattle.roots.specs.Slots.{SamePages, SamePagesBut, KeepsAll, KeepsBut, KeepsEarlier, StandsOpen, IsNotPassed, IsCurrent, other};
ghost use Rattle.roots.specs.Found.{HasMoved, KeepsEarlierYet};
ghost use Rattle.roots.specs.RootTests.{HasTested};
ghost use Rattle.page_codec.specs.Roots.{RootValue};
ghost use Rattle.roots.specs.Opening.{OpensAs, HoldsStore, IsRefusalOfOpening};

use crate::faults::{device, noted};
use crate::opening::{Found, scan};
use crate::slot::{Slot, closed_gate, is_open_gate};
use crate::writing::{fill_slot, spelling, write_only};
use disk::{Disk, Fault, write_through};
use lattice::Refusal;
use page_codec::{PAGE_BYTES, Root};
use std::error::Error;
use std::fmt;

/// A disk with its current root, as opening found it or the last commit left it.
///
/// Commits alternate between the two slots. The first page written begins a commit. If the disk fails, a call answers
/// Device. After that, and after a refused reopening, only a reopening helps.
#[derive(Drop)]
pub struct Roots<D: Disk> {
    disk: D,
    root: Root,
    slot: Slot,
    // Whether the gate of the other slot reads open. If not, it is closed and settled.
    other_open: bool,
    // Whether pages of the next commit may be written.
    begun: bool,
    failed: bool,
    ghost shut: { begun ≡ true → other_open ≡ false },
    ghost large: { 4 ≤ D.Disk.size disk },
}

/// A disk that wasn't opened, returned to the caller.
#[derive(Drop)]
pub struct NotOpened<D: Disk> {
    pub disk: D,
    pub refusal: Refusal,
}

impl<D: Disk> fmt::Debug for NotOpened<D> {
    fn fmt<W: fmt::Write>(&self, f: &mut fmt::Formatter<W>) -> fmt::Result {
        fmt::Debug::fmt(&self.refusal, f)
    }
}

impl<D: Disk> fmt::Display for NotOpened<D> {
    ghost use Rattle.std.specs.Prelude.{Some};
    ghost use Rattle.lattice.specs.Refusals.{word_of};

    ghost output = { λ n. Some (word_of n.refusal) };

    fn fmt<W: fmt::Write>(&self, f: &mut fmt::Formatter<W>) -> fmt::Result {
        fmt::Display::fmt(&self.refusal, f)
    }
}

impl<D: Disk + Drop> Error for NotOpened<D> {}

/// With `?` a caller that answers a Refusal drops the disk.
impl<D: Disk + Drop> From<NotOpened<D>> for Refusal {
    ghost from_gives = { λ n r. r ≡ n.refusal };

    fn from(not_opened: NotOpened<D>) -> Refusal {
        not_opened.refusal
    }
}

impl<D: Disk> Roots<D> {
    ghost use Rattle.roots.specs.Roots.{IsReady, disk_of, root_of, slot_of, has_begun, has_failed, disk_after, opened_as, reopened_as};

    /// Makes this the disk's only root; it reaches no pages. A fault before the Ok may leave anything.
    pub fn format(disk: &mut D, root: &Root) -> Result<(), Refusal>
        requires { 4 ≤ D.size disk.old }
        ensures size { D.size disk.new ≡ D.size disk.old }
        ensures cause { HasCause (D.failures disk.old) (D.failures disk.new) result }
        ensures refused { IfErr result (λ refusal. refusal ≡ Device) }
        ensures writes { D.writes disk.new ≤ D.writes disk.old + 4 }
        ensures honest { D.honest disk.new → D.honest disk.old }
        ensures formatted { D.honest disk.new → OnOk result (IsCurrent root.now (D.seen disk.new)) }
        ensures pages { D.honest disk.new
            → OnOk result (SamePages (D.seen disk.old) (D.seen disk.new)) }
        ensures durable { D.honest disk.new
            → OnOk result (Only (D.seen disk.new) (D.may disk.new)) }
    {
        device(write_only(disk, root))
    }

    /// Opens a disk, which a stop may have left in the middle of a commit: syncs, reads both gates, and then the root
    /// behind each open gate. Nothing is written. A refusal returns the disk.
    ///
    /// The refusal is NotAStore if no gate is open or the disk has fewer than four sectors. Root A is judged before
    /// root B: NotAStore without the magic, Version for an unknown version, Damaged if another rule of a root is
    /// broken. Two roots with the same commit number are Damaged. Too few sectors for the current root's side and
    /// capacity are TooSmall.
    pub fn open(disk: D) -> Result<Roots<D>, NotOpened<D>>
        ensures size { D.size (disk_after result) ≡ D.size disk }
        ensures writes { D.writes (disk_after result) ≡ D.writes disk }
        ensures later { D.failures disk ≤ D.failures (disk_after result) }
        ensures refused { IfErr result (λ e. IsRefusalOfOpening e.refusal) }
        ensures device { opened_as result ≡ Err Device
            → HasRisen (D.failures disk) (D.failures (disk_after result)) }
        ensures nothing { D.honest (disk_after result)
            → AddsNothing D.Disk disk (disk_after result) }

        // If no call fails, the answer is the one that the image determines.
        ensures opens { D.honest (disk_after result)
            → (opened_as result ≡ Err Device)
            ⊎ OpensAs (D.size disk) (D.seen disk) (opened_as result) }
        ensures store { D.honest (disk_after result) → (root : RootValue)
            → HoldsStore (D.size disk) (D.seen disk) root → IfErr result (λ e. e.refusal ≡ Device) }
        ensures seen { D.honest (disk_after result)
            → OnOk result (D.seen (disk_after result) ≡ D.seen disk) }
        ensures ready { IfOk result (λ roots. D.honest (disk_of roots) → IsReady D.Disk roots) }
        ensures durable { D.honest (disk_after result)
            → OnOk result (Only (D.seen (disk_after result)) (D.may (disk_after result))) }
        ensures not_failed { IfOk result (λ roots. has_failed roots ≡ false) }
        ensures not_begun { IfOk result (λ roots. has_begun roots ≡ false) }
    {
        let mut disk = disk;
        match scan(&mut disk) {
            Ok(
                Found {
                    root,
                    slot,
                    other_open,
                },
            ) => Ok(Roots {
                disk,
                root,
                slot,
                other_open,
                begun: false,
                failed: false,
            }),
            Err(refusal) => Err(NotOpened { disk, refusal }),
        }
    }

    /// Opens the disk again, for example after a fault, and forgets what was known. If the reopening is refused, the
    /// last known root stays.
    pub fn reopen(&mut self) -> Result<(), Refusal>
        ensures size { D.size (disk_of self.new) ≡ D.size (disk_of self.old) }
        ensures writes { D.writes (disk_of self.new) ≡ D.writes (disk_of self.old) }
        ensures later { D.failures (disk_of self.old) ≤ D.failures (disk_of self.new) }
        ensures refused { IfErr result IsRefusalOfOpening }
        ensures device { IsErrOf result Device
            → HasRisen (D.failures (disk_of self.old)) (D.failures (disk_of self.new)) }
        ensures nothing { D.honest (disk_of self.new)
            → AddsNothing D.Disk (disk_of self.old) (disk_of self.new) }
        ensures opens { D.honest (disk_of self.new)
            → IsErrOf result Device ⊎ OpensAs (D.size (disk_of self.old)) (D.seen (disk_of self.old)) (reopened_as result (root_of self.new)) }
        ensures store { D.honest (disk_of self.new) → (root : RootValue)
            → HoldsStore (D.size (disk_of self.old)) (D.seen (disk_of self.old)) root
            → IfErr result (λ refusal. refusal ≡ Device) }
        ensures seen { D.honest (disk_of self.new)
            → OnOk result (D.seen (disk_of self.new) ≡ D.seen (disk_of self.old)) }
        ensures ready { D.honest (disk_of self.new) → OnOk result (IsReady D.Disk self.new) }
        ensures durable { D.honest (disk_of self.new)
            → OnOk result (Only (D.seen (disk_of self.new)) (D.may (disk_of self.new))) }
        ensures not_failed { OnOk result (has_failed self.new ≡ false) }
        ensures not_begun { OnOk result (has_begun self.new ≡ false) }
        ensures failed { OnErr result (has_failed self.new ≡ true) }
        ensures last_known { OnErr result (root_of self.new ≡ root_of self.old) }
    {
        self.begun = false;
        match scan(&mut self.disk) {
            Ok(
                Found {
                    root,
                    slot,
                    other_open,
                },
            ) => {
                self.root = root;
                self.slot = slot;
                self.other_open = other_open;
                self.failed = false;
                Ok(())
            }
            Err(refusal) => {
                self.failed = true;
                Err(refusal)
            }
        }
    }

    /// The current root as last known.
    pub fn current(&self) -> &Root
        ensures { result.now ≡ root_of self.now }
    {
        &self.root
    }

    /// The number of the disk's sectors, at least four.
    pub fn sectors(&self) -> u32
        ensures value { result ≡ D.size (disk_of self.now) }
        ensures large { 4 ≤ result }
    {
        self.disk.sectors()
    }

    /// Whether a call was refused, and no opening has succeeded since.
    pub fn has_failed(&self) -> bool
        ensures { result ≡ has_failed self.now }
    {
        self.failed
    }

    /// Marks the roots as failed, with this root as the last known: only reopening helps then, as after a refused
    /// reopening. No call of the disk is made.
    pub fn fail(&mut self, known: Root)
        ensures disk { disk_of self.new ≡ disk_of self.old }
        ensures root { root_of self.new ≡ known }
        ensures begun { has_begun self.new ≡ has_begun self.old }
        ensures failed { has_failed self.new ≡ true }
    {
        self.root = known;
        self.failed = true;
    }

    /// The disk, without the roots.
    pub fn into_disk(self) -> D
        ensures { result ≡ disk_of self }
    {
        let Roots { disk, .. } = self;
        disk
    }

    /// Reads a sector.
    pub fn read(&mut self, p: u32, into: &mut [u8; PAGE_BYTES]) -> Result<(), Refusal>
        requires not_failed { has_failed self.old ≡ false }
        requires in_range { p < D.size (disk_of self.old) }
        ensures size { D.size (disk_of self.new) ≡ D.size (disk_of self.old) }
        ensures cause { HasCause (D.failures (disk_of self.old)) (D.failures (disk_of self.new)) result }
        ensures refused { IfErr result (λ refusal. refusal ≡ Device) }
        ensures writes { D.writes (disk_of self.new) ≡ D.writes (disk_of self.old) }
        ensures root { root_of self.new ≡ root_of self.old }
        ensures has_read { OnOk result (D.has_read (disk_of self.old) p true into.new (disk_of self.new)) }
        ensures read { D.honest (disk_of self.new)
            → OnOk result (into.new ≡ D.seen (disk_of self.old) p) }
        ensures seen { D.honest (disk_of self.new)
            → D.seen (disk_of self.new) ≡ D.seen (disk_of self.old) }
        ensures nothing { D.honest (disk_of self.new)
            → AddsNothing D.Disk (disk_of self.old) (disk_of self.new) }
        ensures ready { D.honest (disk_of self.new) → IsReady D.Disk self.old
            → OnOk result (IsReady D.Disk self.new) }
        ensures not_failed { OnOk result (has_failed self.new ≡ false) }
        ensures begun { has_begun self.new ≡ has_begun self.old }
        ensures failed { OnErr result (has_failed self.new ≡ true) }
    {
        let answer = self.disk.read(p, into);
        noted(&mut self.failed, answer)
    }

    /// Reads a sector that a caller can do without. A fault is only counted and answered.
    pub fn peek(&mut self, p: u32, into: &mut [u8; PAGE_BYTES]) -> Result<(), Fault>
        requires { p < D.size (disk_of self.old) }
        ensures size { D.size (disk_of self.new) ≡ D.size (disk_of self.old) }
        ensures cause { HasCause (D.failures (disk_of self.old)) (D.failures (disk_of self.new)) result }
        ensures writes { D.writes (disk_of self.new) ≡ D.writes (disk_of self.old) }
        ensures root { root_of self.new ≡ root_of self.old }
        ensures read { D.honest (disk_of self.new)
            → OnOk result (into.new ≡ D.seen (disk_of self.old) p) }
        ensures seen { D.honest (disk_of self.new)
            → D.seen (disk_of self.new) ≡ D.seen (disk_of self.old) }
        ensures nothing { D.honest (disk_of self.new)
            → AddsNothing D.Disk (disk_of self.old) (disk_of self.new) }
        ensures ready { D.honest (disk_of self.new) → IsReady D.Disk self.old
            → IsReady D.Disk self.new }
        ensures begun { has_begun self.new ≡ has_begun self.old }
        ensures failed { has_failed self.new ≡ has_failed self.old }
    {
        self.disk.read(p, into)
    }

    /// Whether the current root stands unchanged behind its gate, by two reads: of the gate, which is to be open, and then of
    /// the root. On an honest disk of which it was known it does.
    ///
    /// For a disk that is read beside its writer: where the answer is yes at the opening and again after some reads, these are
    /// of one image (`specs/Shared.antt`). The gate comes first: a root that is read first may stand behind a closed gate, and
    /// the gate that is read then be open for another one.
    pub fn confirm(&mut self) -> Result<bool, Refusal>
        requires not_failed { has_failed self.old ≡ false }
        ensures size { D.size (disk_of self.new) ≡ D.size (disk_of self.old) }
        ensures cause { HasCause (D.failures (disk_of self.old)) (D.failures (disk_of self.new)) result }
        ensures refused { IfErr result (λ refusal. refusal ≡ Device) }
        ensures writes { D.writes (disk_of self.new) ≡ D.writes (disk_of self.old) }
        ensures root { root_of self.new ≡ root_of self.old }
        ensures seen { D.honest (disk_of self.new)
            → D.seen (disk_of self.new) ≡ D.seen (disk_of self.old) }
        ensures nothing { D.honest (disk_of self.new)
            → AddsNothing D.Disk (disk_of self.old) (disk_of self.new) }
        ensures ready { D.honest (disk_of self.new) → IsReady D.Disk self.old
            → OnOk result (IsReady D.Disk self.new) }
        ensures yes { D.honest (disk_of self.new) → IsReady D.Disk self.old
            → IfOk result (λ yes. yes ≡ true) }
        ensures tested { IfOk result (λ yes. HasTested D.Disk (slot_of self.old) (root_of self.old) (disk_of self.old) yes (disk_of self.new)) }
        ensures stands { D.honest (disk_of self.new)
            → result ≡ Ok true → StandsOpen (root_of self.old) (D.seen (disk_of self.old)) }
        ensures not_failed { OnOk result (has_failed self.new ≡ false) }
        ensures begun { has_begun self.new ≡ has_begun self.old }
        ensures failed { OnErr result (has_failed self.new ≡ true) }
    {
        let slot = self.slot;
        let mut gate = [0; PAGE_BYTES];
        self.read(slot.gate(), &mut gate)?;
        let mut bytes = [0; PAGE_BYTES];
        self.read(slot.root_sector(), &mut bytes)?;
        let wanted = spelling(&self.root);
        Ok(is_open_gate(&gate) && bytes == wanted)
    }

    /// Whether no later root stands behind the other gate, by two reads: of that gate, and of the root behind it. On an honest
    /// disk of which the current root was known none does.
    pub fn is_current(&mut self) -> Result<bool, Refusal>
        requires not_failed { has_failed self.old ≡ false }
        ensures size { D.size (disk_of self.new) ≡ D.size (disk_of self.old) }
        ensures cause { HasCause (D.failures (disk_of self.old)) (D.failures (disk_of self.new)) result }
        ensures refused { IfErr result (λ refusal. refusal ≡ Device) }
        ensures writes { D.writes (disk_of self.new) ≡ D.writes (disk_of self.old) }
        ensures root { root_of self.new ≡ root_of self.old }
        ensures seen { D.honest (disk_of self.new)
            → D.seen (disk_of self.new) ≡ D.seen (disk_of self.old) }
        ensures nothing { D.honest (disk_of self.new)
            → AddsNothing D.Disk (disk_of self.old) (disk_of self.new) }
        ensures ready { D.honest (disk_of self.new) → IsReady D.Disk self.old
            → OnOk result (IsReady D.Disk self.new) }
        ensures yes { D.honest (disk_of self.new) → IsReady D.Disk self.old
            → IfOk result (λ yes. yes ≡ true) }
        ensures greatest { D.honest (disk_of self.new) → result ≡ Ok true
            → IsNotPassed (other (slot_of self.old)) (root_of self.old) (D.seen (disk_of self.old)) }
        ensures not_failed { OnOk result (has_failed self.new ≡ false) }
        ensures begun { has_begun self.new ≡ has_begun self.old }
        ensures failed { OnErr result (has_failed self.new ≡ true) }
    {
        let other = self.slot.other();
        let mut bytes = [0; PAGE_BYTES];
        self.read(other.gate(), &mut bytes)?;
        if !is_open_gate(&bytes) {
            return Ok(true);
        }
        self.read(other.root_sector(), &mut bytes)?;
        match Root::read(&bytes) {
            Ok(root) => Ok(root.number() < self.root.number()),
            Err(_) => Ok(false),
        }
    }

    /// Begins a commit, if none has begun: the gate of the slot that isn't current is closed and settled, if it may be
    /// open.
    pub fn begin(&mut self) -> Result<(), Refusal>
        requires { has_failed self.old ≡ false }
        ensures size { D.size (disk_of self.new) ≡ D.size (disk_of self.old) }
        ensures cause { HasCause (D.failures (disk_of self.old)) (D.failures (disk_of self.new)) result }
        ensures refused { IfErr result (λ refusal. refusal ≡ Device) }
        ensures writes { D.writes (disk_of self.new) ≤ D.writes (disk_of self.old)
            + (if has_begun self.old then 0 else 1) }
        ensures honest { D.honest (disk_of self.new) → D.honest (disk_of self.old) }
        ensures root { root_of self.new ≡ root_of self.old }
        ensures ready { D.honest (disk_of self.new) → IsReady D.Disk self.old
            → OnOk result (IsReady D.Disk self.new) }
        ensures pages { D.honest (disk_of self.new)
            → OnOk result (SamePages (D.seen (disk_of self.old)) (D.seen (disk_of self.new))) }

        // A stop at any moment leaves the current root with its pages.
        ensures any_moment { D.honest (disk_of self.new) → IsReady D.Disk self.old
            → LeavesOnly D.Disk (disk_of self.old) (disk_of self.new) (KeepsAll (root_of self.old) (D.may (disk_of self.old))) }

        // Who reads beside it: an earlier root that is found behind an open gate has its pages.
        ensures readers { D.honest (disk_of self.new) → IsReady D.Disk self.old
            → LeavesOnly D.Disk (disk_of self.old) (disk_of self.new) (KeepsEarlier (root_of self.old) (D.may (disk_of self.old))) }
        ensures not_failed { OnOk result (has_failed self.new ≡ false) }
        ensures begun { OnOk result (has_begun self.new ≡ true) }
        ensures begun_before { has_begun self.old ≡ true
            → IsOk result × (disk_of self.new ≡ disk_of self.old) }
        ensures failed { OnErr result (has_failed self.new ≡ true) }
    {
        if !self.other_open {
            self.begun = true;
            return Ok(());
        }
        let answer = write_through(&mut self.disk, self.slot.other().gate(), &closed_gate());
        noted(&mut self.failed, answer)?;
        self.other_open = false;
        self.begun = true;
        Ok(())
    }

    /// Writes a page, and begins a commit if none has begun. The commit settles the page.
    pub fn write(&mut self, p: u32, from: &[u8; PAGE_BYTES]) -> Result<(), Refusal>
        requires not_failed { has_failed self.old ≡ false }
        requires page { 4 ≤ p }
        requires in_range { p < D.size (disk_of self.old) }
        ensures size { D.size (disk_of self.new) ≡ D.size (disk_of self.old) }
        ensures cause { HasCause (D.failures (disk_of self.old)) (D.failures (disk_of self.new)) result }
        ensures refused { IfErr result (λ refusal. refusal ≡ Device) }
        ensures writes { D.writes (disk_of self.new) ≤ D.writes (disk_of self.old)
            + (if has_begun self.old then 1 else 2) }
        ensures one_write { has_begun self.old ≡ true
            → D.writes (disk_of self.new) ≡ counted (D.writes (disk_of self.old)) }
        ensures honest { D.honest (disk_of self.new) → D.honest (disk_of self.old) }
        ensures root { root_of self.new ≡ root_of self.old }
        ensures ready { D.honest (disk_of self.new) → IsReady D.Disk self.old
            → OnOk result (IsReady D.Disk self.new) }
        ensures written { D.honest (disk_of self.new)
            → OnOk result (D.seen (disk_of self.new) p ≡ from.now) }
        ensures others { D.honest (disk_of self.new)
            → OnOk result (SamePagesBut p (D.seen (disk_of self.old)) (D.seen (disk_of self.new))) }
        ensures one_sector { D.honest (disk_of self.new) → has_begun self.old ≡ true
            → SameBut p (D.seen (disk_of self.old)) (D.seen (disk_of self.new)) }

        // A stop at any moment leaves the current root, and each other page as it might have been before.
        ensures any_moment { D.honest (disk_of self.new) → IsReady D.Disk self.old
            → LeavesOnly D.Disk (disk_of self.old) (disk_of self.new) (KeepsBut p (root_of self.old) (D.may (disk_of self.old))) }

        // And while an earlier root stands behind an open gate, this page too.
        ensures readers { D.honest (disk_of self.new) → IsReady D.Disk self.old
            → LeavesOnly D.Disk (disk_of self.old) (disk_of self.new) (KeepsEarlier (root_of self.old) (D.may (disk_of self.old))) }
        ensures not_failed { OnOk result (has_failed self.new ≡ false) }
        ensures begun { OnOk result (has_begun self.new ≡ true) }
        ensures failed { OnErr result (has_failed self.new ≡ true) }
    {
        self.begin()?;
        let answer = self.disk.write(p, from);
        noted(&mut self.failed, answer)
    }

    /// Makes this root the current one, with all pages written: begins a commit if none has begun, settles the pages
    /// and the root in the slot that isn't current, and then opens its gate. After Ok a stop leaves only this root.
    pub fn commit(&mut self, root: &Root) -> Result<(), Refusal>
        requires not_failed { has_failed self.old ≡ false }
        requires next { root.now.number ≡ (root_of self.old).number + 1 }
        ensures size { D.size (disk_of self.new) ≡ D.size (disk_of self.old) }
        ensures cause { HasCause (D.failures (disk_of self.old)) (D.failures (disk_of self.new)) result }
        ensures refused { IfErr result (λ refusal. refusal ≡ Device) }
        ensures writes { D.writes (disk_of self.new) ≤ D.writes (disk_of self.old)
            + (if has_begun self.old then 2 else 3) }
        ensures honest { D.honest (disk_of self.new) → D.honest (disk_of self.old) }
        ensures root { OnOk result (root_of self.new ≡ root.now) }
        ensures last_known { OnErr result (root_of self.new ≡ root_of self.old) }
        ensures ready { D.honest (disk_of self.new) → IsReady D.Disk self.old
            → OnOk result (IsReady D.Disk self.new) }
        ensures durable { D.honest (disk_of self.new)
            → OnOk result (Only (D.seen (disk_of self.new)) (D.may (disk_of self.new))) }
        ensures pages { D.honest (disk_of self.new)
            → OnOk result (SamePages (D.seen (disk_of self.old)) (D.seen (disk_of self.new))) }

        // A stop at any moment leaves the current root with its pages, or the new root with all pages written.
        ensures any_moment { D.honest (disk_of self.new) → IsReady D.Disk self.old
            → LeavesOnly D.Disk (disk_of self.old) (disk_of self.new) (λ image. KeepsAll (root_of self.old) (D.may (disk_of self.old)) image
            ⊎ HasMoved root.now (D.seen (disk_of self.old)) image) }
        ensures readers { D.honest (disk_of self.new) → IsReady D.Disk self.old
            → LeavesOnly D.Disk (disk_of self.old) (disk_of self.new) (KeepsEarlierYet (root_of self.old) root.now (D.may (disk_of self.old))) }
        ensures not_failed { OnOk result (has_failed self.new ≡ false) }
        ensures not_begun { OnOk result (has_begun self.new ≡ false) }
        ensures failed { OnErr result (has_failed self.new ≡ true) }
    {
        self.begin()?;
        let slot = self.slot.other();
        let answer = fill_slot(&mut self.disk, slot, root);
        noted(&mut self.failed, answer)?;
        self.slot = slot;
        self.root = root.copy();
        self.other_open = true;
        self.begun = false;
        Ok(())
    }
}
