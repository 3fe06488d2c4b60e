//! One plane of a tile, as committed and as the next commit will have it.
ghost use Rattle.std.specs.Prelude.{◌≡◌, ◌≢◌, ◌+◌, ◌<◌, ◌≤◌, ℕ, [], ◌∷◌, length, true, IsTrue, IsSome, IsOk, IfOk, IfErr, IfSome, OnOk, OnErr, None, option_and_then, option_copied, slice_get};
ghost use Rattle.std.specs.FinSet as set;
ghost use Rattle.lattice.specs.declared.refusal.Refusal.TheVariants.{NoMemory};
ghost use Rattle.page_map.specs.Locations.{times, listing_of, pages_behind, IsMovedBehind};
ghost use Rattle.page_map.specs.FreePages.{free_times, differing, AreBalanced, AreTaken, AreGiven, AreInUse, IsOwned, IsOwnedPage};
ghost use Rattle.page_map.specs.PlaneEntries.{behind_at, replaced_by};

use crate::free_pages::FreePages;
use crate::locations::PagedPlane;
use crate::pages::{give_replaced, stands_at};
use lattice::Refusal;
use page_codec::RECORD_PAGES;
use std::alloc::Global;
use std::mem;

/// What the next commit does with a plane.
#[derive(Drop)]
pub(crate) enum Staged {
    /// The plane stays as committed.
    AsCommitted,
    /// The tile loses the plane.
    Dropped,
    /// The plane has this location. Pages that the committed plane has at the same index are shared with it.
    Fresh(PagedPlane),
}

/// A plane as committed, if it is, and as staged.
#[derive(Drop)]
pub(crate) struct PlaneEntry {
    pub(crate) committed: Option<PagedPlane>,
    pub(crate) staged: Staged,
}

/// How staged changes end.
#[derive(Clone, Copy)]
pub(crate) enum Ending {
    /// By a commit.
    Committed,
    /// By a rollback.
    RolledBack,
}

impl PlaneEntry {
    ghost use Rattle.page_map.specs.PlaneEntries.{ended_plane, fresh_in, is_fresh, listed_at, settled_plane, staged_as, staged_plane, used_in, HasRoom, IsPageRestaged, IsRecordRestaged};

    /// A plane without staged pages.
    pub(crate) fn new(committed: Option<PagedPlane>) -> PlaneEntry
        ensures { result ≡ settled_plane committed }
    {
        PlaneEntry {
            committed,
            staged: Staged::AsCommitted,
        }
    }

    /// The plane's location after a commit.
    pub(crate) fn location(&self) -> Option<&PagedPlane>
        ensures { option_copied result ≡ staged_plane self.now }
    {
        match &self.staged {
            Staged::AsCommitted => match &self.committed {
                Some(location) => Some(location),
                None => None,
            },
            Staged::Dropped => None,
            Staged::Fresh(location) => Some(location),
        }
    }

    /// The page to which new content of page `i` may be written. From now on no committed tile reaches it, its index
    /// page or the record of the plane.
    pub(crate) fn page_for_writing(
        &mut self,
        alloc: Global,
        i: usize,
        free: &mut FreePages,
    ) -> Result<u32, Refusal>
        requires room { HasRoom self.old (set.len free.old.free) }
        requires present { IsSome (staged_plane self.old) }
        requires index { IfSome (staged_plane self.old) (λ location. i < length location.pages) }
        requires apart { (p : ℕ)
            → times p (behind_at self.old.committed) + free_times free.old p ≤ 1 }
        ensures staged { IfOk result (λ page. IsPageRestaged i page self.old self.new) }
        ensures committed { self.new.committed ≡ self.old.committed }
        ensures balanced { AreBalanced (fresh_in self.old) (fresh_in self.new) free.old free.new }
        ensures sure { is_fresh self.old ≡ true → IsOk result }
        ensures refused { IfErr result (λ refusal. refusal ≡ NoMemory) }
        ensures unchanged { OnErr result (self.new ≡ self.old) }
    {
        self.prepare(alloc, free)?;
        let committed = behind(&self.committed);
        match &mut self.staged {
            Staged::Fresh(location) => Ok(own_listed(location, committed, i, free)),
            Staged::AsCommitted => unreachable!(),
            Staged::Dropped => unreachable!(),
        }
    }

    /// Stages the plane without a change, unless it is staged already: its record goes to a free page.
    pub(crate) fn prepare(&mut self, alloc: Global, free: &mut FreePages) -> Result<(), Refusal>
        requires room { HasRoom self.old (set.len free.old.free) }
        requires present { IsSome (staged_plane self.old) }
        ensures staged { OnOk result (IsRecordRestaged self.old self.new) }
        ensures committed { self.new.committed ≡ self.old.committed }
        ensures balanced { AreBalanced (fresh_in self.old) (fresh_in self.new) free.old free.new }
        ensures room { HasRoom self.new (set.len free.new.free) }
        ensures fewer { (p : ℕ) → free_times free.new p ≤ free_times free.old p }
        ensures sure { is_fresh self.old ≡ true → IsOk result }
        ensures refused { IfErr result (λ refusal. refusal ≡ NoMemory) }
        ensures unchanged { OnErr result (self.new ≡ self.old) }
    {
        let staged = &mut self.staged;
        match staged {
            Staged::Fresh(_) => Ok(()),
            Staged::AsCommitted => match &self.committed {
                Some(committed) => {
                    let location = with_fresh_record(alloc, committed, free)?;
                    *staged = Staged::Fresh(location);
                    Ok(())
                }
                None => unreachable!(),
            },
            Staged::Dropped => unreachable!(),
        }
    }

    /// Whether the next commit leaves the plane as it is.
    pub(crate) fn is_unchanged(&self) -> bool
        ensures { IsTrue result → staged_plane self.now ≡ self.now.committed }
    {
        matches!(self.staged, Staged::AsCommitted)
    }

    /// A page of what lists the plane's pages, by its number, unless it is the committed one.
    pub(crate) fn page_due(&self, i: usize) -> Option<u32>
        ensures same { listed_at i self.now.committed ≡ listed_at i (staged_plane self.now)
            → result ≡ None }
        ensures other { listed_at i self.now.committed ≢ listed_at i (staged_plane self.now)
            → result ≡ listed_at i (staged_plane self.now) }
    {
        let page = listing_page(self.location(), i);
        let committed = listing_page(self.committed.as_ref(), i);
        if page == committed { None } else { page }
    }

    /// Replaces what is staged. Frees the pages of what was staged that the committed plane doesn't have.
    pub(crate) fn restage(&mut self, staged: Staged, free: &mut FreePages)
        requires { AreInUse (fresh_in self.old) free.old }
        ensures staged { self.new ≡ record (self.old) { staged = staged } }
        ensures given { AreGiven (fresh_in self.old) free.old free.new }
    {
        self.give_staged(free);
        self.staged = staged;
    }

    /// Frees the pages that the plane no longer uses after a commit or a rollback.
    pub(crate) fn give_back(&self, ending: Ending, free: &mut FreePages)
        requires { AreInUse (used_in self.now) free.old }
        ensures { AreBalanced (used_in self.now) (used_in (settled_plane (ended_plane ending self.now))) free.old free.new }
    {
        match ending {
            Ending::Committed => self.give_committed(free),
            Ending::RolledBack => self.give_staged(free),
        }
    }

    /// Commits or rolls back what is staged.
    pub(crate) fn end(&mut self, ending: Ending)
        ensures { self.new ≡ settled_plane (ended_plane ending self.old) }
    {
        let staged = mem::replace(&mut self.staged, Staged::AsCommitted);
        match ending {
            Ending::Committed => self.commit(staged),
            Ending::RolledBack => (),
        }
    }

    fn commit(&mut self, staged: Staged)
        ensures { self.new ≡ record (self.old) { committed = staged_as self.old.committed staged } }
    {
        match staged {
            Staged::AsCommitted => (),
            Staged::Dropped => self.committed = None,
            Staged::Fresh(location) => self.committed = Some(location),
        }
    }

    /// Frees the staged pages that the committed plane doesn't have.
    fn give_staged(&self, free: &mut FreePages)
        requires { AreInUse (fresh_in self.now) free.old }
        ensures { AreGiven (fresh_in self.now) free.old free.new }
    {
        match &self.staged {
            Staged::AsCommitted => (),
            Staged::Dropped => (),
            Staged::Fresh(location) => give_replaced(free, location, behind(&self.committed)),
        }
    }

    /// Frees the pages of the committed plane that the staged one doesn't have.
    fn give_committed(&self, free: &mut FreePages)
        requires { AreInUse (used_in self.now) free.old }
        ensures { AreBalanced (used_in self.now) (used_in (settled_plane (staged_plane self.now))) free.old free.new }
    {
        match &self.staged {
            Staged::AsCommitted => (),
            Staged::Dropped => give_location(free, &self.committed, &[]),
            Staged::Fresh(location) => give_location(free, &self.committed, location.behind()),
        }
    }
}

/// Frees the pages of a plane, if there is one, except data and index pages that `others` has at the same index.
fn give_location(free: &mut FreePages, location: &Option<PagedPlane>, others: &[u32])
    requires { AreInUse (replaced_by others.now location.now) free.old }
    ensures { AreGiven (replaced_by others.now location.now) free.old free.new }
{
    match location {
        Some(location) => give_replaced(free, location, others),
        None => (),
    }
}

/// A listing page of a plane, by its number.
fn listing_page(plane: Option<&PagedPlane>, i: usize) -> Option<u32>
    ensures { result ≡ option_and_then (λ p. slice_get (listing_of p) i) (option_copied plane.entry) }
{
    match plane {
        Some(plane) => plane.listing_page(i),
        None => None,
    }
}

/// The index pages and the pages of a plane, if there is one.
fn behind(location: &Option<PagedPlane>) -> &[u32]
    ensures { result.now ≡ behind_at location.now }
{
    match location {
        Some(location) => location.behind(),
        None => &[],
    }
}

/// The same plane with its record on a free page.
fn with_fresh_record(
    alloc: Global,
    plane: &PagedPlane,
    free: &mut FreePages,
) -> Result<PagedPlane, Refusal>
    requires { 0 < set.len free.old.free }
    ensures taken { IfOk result (λ copy. AreTaken (copy.record_page ∷ []) free.old free.new) }
    ensures same { IfOk result (λ copy. copy ≡ record (plane.now) { record_page = copy.record_page }) }
    ensures left { IfOk result (λ copy. set.len free.new.free + 1 ≡ set.len free.old.free) }
    ensures refused { IfErr result (λ refusal. refusal ≡ NoMemory) }
    ensures unchanged { OnErr result (free.new ≡ free.old) }
{
    let behind = Vec::from_slice(alloc, plane.behind())?;
    Ok(PagedPlane::new(free.take(), behind, plane.index_count()))
}

/// Makes page `i` of the plane writable, and its index page if there is one: each moves to a free page if the committed
/// plane has it at the same index.
fn own_listed(location: &mut PagedPlane, committed: &[u32], i: usize, free: &mut FreePages) -> u32
    requires room { length (pages_behind location.old)
        ≤ length (differing (pages_behind location.old) committed.now) + set.len free.old.free }
    requires index { i < length location.old.pages }
    requires apart { (p : ℕ) → times p committed.now + free_times free.old p ≤ 1 }
    ensures { IsOwnedPage committed.now i result location.old location.new free.old free.new }
{
    let index_page = i / RECORD_PAGES;
    let count = location.index_count();
    if index_page < count {
        make_writable(location, committed, index_page, free);
    }
    make_writable(location, committed, count + i, free)
}

/// Makes an index page or a page of the plane writable: it moves to a free page if the committed plane has it at the
/// same index.
fn make_writable(
    location: &mut PagedPlane,
    committed: &[u32],
    at: usize,
    free: &mut FreePages,
) -> u32
    requires room { length (pages_behind location.old)
        ≤ length (differing (pages_behind location.old) committed.now) + set.len free.old.free }
    requires index { at < length (pages_behind location.old) }
    requires apart { (p : ℕ) → times p committed.now + free_times free.old p ≤ 1 }
    ensures moved { IsMovedBehind at result location.old location.new }
    ensures owned { IsOwned committed.now result (pages_behind location.old) (pages_behind location.new) free.old free.new }
    ensures left { length (pages_behind location.new)
        ≤ length (differing (pages_behind location.new) committed.now) + set.len free.new.free }
{
    let page = location.behind()[at];
    if !stands_at(page, at, committed) {
        return page;
    }
    let page = free.take();
    location.set_behind(at, page);
    page
}
