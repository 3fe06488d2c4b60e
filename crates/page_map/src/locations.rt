//! The locations of a tile's planes.
ghost use Rattle.std.specs.Prelude.{◌≡◌, ◌<◌, ◌≤◌, ◌^◌, ◌++◌, length, take, drop, IfOk, IfErr, slice_get};
ghost use Rattle.lattice.specs.declared.refusal.Refusal.TheVariants.{NoMemory};
ghost use Rattle.page_map.specs.Locations.{listing_of, pages_behind, IsMovedBehind};

use lattice::Refusal;
use std::marker::Model;

/// The location of a plane: the page of its record, its index pages (none in the first version), and its pages in
/// order.
#[derive(Drop)]
pub struct PagedPlane {
    record_page: u32,
    // The index pages, followed by the plane's pages.
    behind: Vec<u32>,
    // The number of index pages.
    index_count: usize,
}

impl Model for PagedPlane {
    ghost use Rattle.std.specs.Prelude.{◌≤◌, length, take, drop};
    ghost use Rattle.page_map.specs.Locations.{PlaneLocation};

    ghost Value = { PlaneLocation };

    ghost view = { λ p. record { record_page = p.record_page; index_pages = take p.index_count p.behind.items; pages = drop p.index_count p.behind.items } };

    ghost invariant = { λ p. p.index_count ≤ length p.behind.items };
}

/// The levels and the labels of a tile.
#[derive(Drop)]
pub struct KeptLocations {
    pub levels: PagedPlane,
    pub labels: PagedPlane,
}

/// The planes of a tile. A tile whose levels and labels aren't kept is stale.
#[derive(Drop)]
pub struct TilePlanes {
    pub heights: PagedPlane,
    pub kept: Option<KeptLocations>,
}

impl PagedPlane {
    /// A plane whose record is at this page. The first `index_count` of the further pages are index pages; the others
    /// are the plane's.
    pub fn new(record_page: u32, behind: Vec<u32>, index_count: usize) -> PagedPlane
        requires { index_count ≤ length behind.items }
        ensures { result ≡ record { record_page = record_page; index_pages = take index_count behind.items; pages = drop index_count behind.items } }
    {
        PagedPlane {
            record_page,
            behind,
            index_count,
        }
    }

    /// Appends these pages to the plane's. Refused with NoMemory.
    pub(crate) fn with_pages(self, pages: &[u32]) -> Result<PagedPlane, Refusal>
        ensures more { IfOk result (λ plane. plane ≡ record self { pages = self.pages ++ pages.now }) }
        ensures refused { IfErr result (λ refusal. refusal ≡ NoMemory) }
    {
        let PagedPlane {
            record_page,
            mut behind,
            index_count,
        } = self;
        behind.extend_from_slice(pages)?;
        Ok(PagedPlane {
            record_page,
            behind,
            index_count,
        })
    }

    /// The page of the plane's record.
    pub fn record_page(&self) -> u32
        ensures { result ≡ self.now.record_page }
    {
        self.record_page
    }

    /// The plane's index pages in order.
    pub fn index_pages(&self) -> &[u32]
        ensures { result.now ≡ self.now.index_pages }
    {
        &self.behind[..self.index_count]
    }

    /// The number of listing pages: the record and the index pages.
    pub fn listing_len(&self) -> usize
        ensures { result ≡ length (listing_of self.now) }
    {
        1 + self.index_count
    }

    /// A listing page by its number; the record is the first.
    pub fn listing_page(&self, i: usize) -> Option<u32>
        ensures { result ≡ slice_get (listing_of self.now) i }
    {
        if i == 0 {
            return Some(self.record_page);
        }
        self.index_pages().get(i - 1).copied()
    }

    /// The plane's pages in order.
    pub fn pages(&self) -> &[u32]
        ensures { result.now ≡ self.now.pages }
    {
        &self.behind[self.index_count..]
    }

    /// The index pages, followed by the plane's pages.
    pub(crate) fn behind(&self) -> &[u32]
        ensures { result.now ≡ pages_behind self.now }
    {
        &self.behind
    }

    /// The number of index pages.
    pub(crate) fn index_count(&self) -> usize
        ensures value { result ≡ length self.now.index_pages }
        ensures fits { length (pages_behind self.now) < 2 ^ 64 }
    {
        self.index_count
    }

    /// Moves an index page or a page of the plane to another page.
    pub(crate) fn set_behind(&mut self, at: usize, page: u32)
        requires { at < length (pages_behind self.old) }
        ensures { IsMovedBehind at page self.old self.new }
    {
        self.behind[at] = page;
    }
}
