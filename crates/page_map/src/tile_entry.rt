//! One tile of a page_map.
ghost use Rattle.std.specs.Prelude.{◌≡◌, ◌*◌, ◌≤◌, [], false, IsTrue, IsSome, OnOk, OnErr, IfErr, IfOk, Some, None};
ghost use Rattle.std.specs.FinSet as set;
ghost use Rattle.lattice.specs.Corners.{Corner};
ghost use Rattle.lattice.specs.declared.refusal.Refusal.TheVariants.{NoMemory};
ghost use Rattle.page_codec.specs.Sizes.{plane_pages_of};
ghost use Rattle.page_map.specs.FreePages.{AreBalanced, AreGiven, AreInUse};
ghost use Rattle.page_map.specs.PlaneEntries.{staged_plane};
ghost use Rattle.page_map.specs.TileLocations.{TileLocation};
ghost use Rattle.page_map.specs.declared.plane_entry.Staged.TheVariants.{Dropped};

use crate::free_pages::FreePages;
use crate::locations::{PagedPlane, TilePlanes};
use crate::pages::{fresh_plane, give_replaced};
use crate::plane::Plane;
use crate::plane_entry::{Ending, PlaneEntry, Staged};
use lattice::Refusal;
use page_codec::Format;
use std::alloc::Global;

/// The three planes of a corner. It has heights if it has a tile, and levels and labels if these are kept.
#[derive(Drop)]
pub(crate) struct TileEntry {
    pub(crate) heights: PlaneEntry,
    pub(crate) levels: PlaneEntry,
    pub(crate) labels: PlaneEntry,
}

impl TileEntry {
    ghost use Rattle.page_map.specs.TileEntries.{committed_tile, ended_planes, fresh_kept, fresh_pages, loaded_planes, named_plane, no_planes, staged_tile, used_pages, IsKeptAnew};

    /// A committed tile with nothing staged.
    pub(crate) fn committed(planes: TilePlanes) -> TileEntry
        ensures { result ≡ loaded_planes planes }
    {
        let TilePlanes { heights, kept } = planes;
        let (levels, labels) = match kept {
            Some(kept) => (Some(kept.levels), Some(kept.labels)),
            None => (None, None),
        };
        TileEntry {
            heights: PlaneEntry::new(Some(heights)),
            levels: PlaneEntry::new(levels),
            labels: PlaneEntry::new(labels),
        }
    }

    /// An entry without planes.
    pub(crate) fn empty() -> TileEntry
        ensures { result ≡ no_planes }
    {
        TileEntry {
            heights: PlaneEntry::new(None),
            levels: PlaneEntry::new(None),
            labels: PlaneEntry::new(None),
        }
    }

    /// One of the tile's planes.
    pub(crate) fn plane(&self, plane: Plane) -> &PlaneEntry
        ensures { result.now ≡ named_plane plane self.now }
    {
        match plane {
            Plane::Heights => &self.heights,
            Plane::Levels => &self.levels,
            Plane::Labels => &self.labels,
        }
    }

    /// Whether the next commit leaves each plane as it is.
    fn is_unchanged(&self) -> bool
        ensures heights { IsTrue result
            → staged_plane self.now.heights ≡ self.now.heights.committed }
        ensures levels { IsTrue result → staged_plane self.now.levels ≡ self.now.levels.committed }
        ensures labels { IsTrue result → staged_plane self.now.labels ≡ self.now.labels.committed }
    {
        self.heights.is_unchanged() && self.levels.is_unchanged() && self.labels.is_unchanged()
    }

    /// Whether the corner has a staged tile that isn't the committed one.
    pub(crate) fn is_changed(&self) -> bool
        ensures staged { IsTrue result → (c : Corner) → IsSome (staged_tile (c, self.now)) }
        ensures same { result ≡ false → (c : Corner) (t : TileLocation)
            → staged_tile (c, self.now) ≡ Some t → committed_tile (c, self.now) ≡ Some t }
    {
        if self.is_unchanged() {
            return false;
        }
        self.heights.location().is_some()
    }

    /// Stages levels and labels on free pages, where none are staged yet.
    pub(crate) fn keep(
        &mut self,
        alloc: Global,
        format: Format,
        free: &mut FreePages,
    ) -> Result<(), Refusal>
        requires room { 2 * plane_pages_of format ≤ set.len free.old.free }
        requires none { fresh_kept self.old ≡ [] }
        requires in_use { AreInUse (used_pages self.old) free.old }
        ensures kept { OnOk result (IsKeptAnew format self.old self.new) }
        ensures balanced { AreBalanced (used_pages self.old) (used_pages self.new) free.old free.new }
        ensures refused { IfErr result (λ refusal. refusal ≡ NoMemory) }
        ensures unchanged { OnErr result (self.new ≡ self.old) }
    {
        let index_pages = format.index_pages();
        let pages = format.data_pages();
        let levels = fresh_plane(alloc, free, index_pages, pages)?;
        match fresh_plane(alloc, free, index_pages, pages) {
            Ok(labels) => {
                self.levels.staged = Staged::Fresh(levels);
                self.labels.staged = Staged::Fresh(labels);
                Ok(())
            }
            Err(refusal) => {
                give_replaced(free, &levels, &[]);
                Err(refusal)
            }
        }
    }

    /// Stages the tile without levels and labels. Frees the staged pages of these.
    pub(crate) fn drop_kept(&mut self, free: &mut FreePages)
        requires { AreInUse (fresh_kept self.old) free.old }
        ensures dropped { self.new ≡ record (self.old) { levels = record (self.old.levels) { staged = Dropped }; labels = record (self.old.labels) { staged = Dropped } } }
        ensures given { AreGiven (fresh_kept self.old) free.old free.new }
    {
        self.levels.restage(Staged::Dropped, free);
        self.labels.restage(Staged::Dropped, free);
    }

    /// Removes the tile from the next commit, and frees its staged pages.
    pub(crate) fn remove(&mut self, free: &mut FreePages)
        requires { AreInUse (fresh_pages self.old) free.old }
        ensures removed { self.new ≡ record (self.old) { heights = record (self.old.heights) { staged = Dropped }; levels = record (self.old.levels) { staged = Dropped }; labels = record (self.old.labels) { staged = Dropped } } }
        ensures given { AreGiven (fresh_pages self.old) free.old free.new }
    {
        self.heights.restage(Staged::Dropped, free);
        self.drop_kept(free);
    }

    /// Frees the pages that the tile no longer uses after a commit or a rollback.
    pub(crate) fn give_back(&self, ending: Ending, free: &mut FreePages)
        requires { AreInUse (used_pages self.now) free.old }
        ensures { AreBalanced (used_pages self.now) (used_pages (ended_planes ending self.now)) free.old free.new }
    {
        self.heights.give_back(ending, free);
        self.levels.give_back(ending, free);
        self.labels.give_back(ending, free);
    }

    /// Commits or rolls back what is staged.
    pub(crate) fn end(&mut self, ending: Ending)
        ensures { self.new ≡ ended_planes ending self.old }
    {
        self.heights.end(ending);
        self.levels.end(ending);
        self.labels.end(ending);
    }
}
