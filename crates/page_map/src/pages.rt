//! Takes and frees lists of pages.
ghost use Rattle.std.specs.Prelude.{◌≡◌, ◌+◌, ◌<◌, ◌≤◌, ◌∷◌, length, slice_index, Some, IsTrue, ◌↔◌, IfOk, IfErr, OnOk, OnErr};
ghost use Rattle.std.specs.FinSet as set;
ghost use Rattle.lattice.specs.declared.refusal.Refusal.TheVariants.{NoMemory};
ghost use Rattle.page_map.specs.Locations.{pages_behind, pages_of_plane};
ghost use Rattle.page_map.specs.FreePages.{differing, pages_of_planes, AreTaken, AreGiven, AreInUse, IsUnmarked};
ghost use Rattle.page_map.specs.TileLocations.{pages_of_kept};

use crate::free_pages::FreePages;
use crate::locations::{KeptLocations, PagedPlane, TilePlanes};
use lattice::Refusal;
use std::alloc::Global;

/// A plane with this many fresh index pages and pages, and a fresh one for its record.
pub(crate) fn fresh_plane(
    alloc: Global,
    free: &mut FreePages,
    index_pages: u32,
    pages: u32,
) -> Result<PagedPlane, Refusal>
    requires { index_pages + pages + 1 ≤ set.len free.old.free }
    ensures taken { IfOk result (λ plane. AreTaken (pages_of_plane plane) free.old free.new) }
    ensures left { IfOk result (λ plane. set.len free.new.free + (index_pages + pages + 1)
        ≡ set.len free.old.free) }
    ensures index_pages { IfOk result (λ plane. length plane.index_pages ≡ index_pages) }
    ensures pages { IfOk result (λ plane. length plane.pages ≡ pages) }
    ensures refused { IfErr result (λ refusal. refusal ≡ NoMemory) }
    ensures unchanged { OnErr result (free.new ≡ free.old) }
{
    let index_count = index_pages as usize;
    let mut behind = vec![in alloc; 0; index_count + pages as usize]?;
    for page in behind.iter_mut() {
        *page = free.take();
    }
    Ok(PagedPlane::new(free.take(), behind, index_count))
}

/// Frees the pages that the other list doesn't have at the same index.
fn give_differing(free: &mut FreePages, pages: &[u32], others: &[u32])
    requires { AreInUse (differing pages.now others.now) free.old }
    ensures { AreGiven (differing pages.now others.now) free.old free.new }
{
    for (i, page) in pages.iter().enumerate() {
        if !stands_at(*page, i, others) {
            free.give(*page);
        }
    }
}

/// Whether the list has the page at the index.
pub(crate) fn stands_at(page: u32, i: usize, pages: &[u32]) -> bool
    ensures { IsTrue result ↔ ((i < length pages.now) × (slice_index pages.now i ≡ page)) }
{
    i < pages.len() && pages[i] == page
}

/// Frees the record of a plane, and its other pages that the list doesn't have at the same index.
pub(crate) fn give_replaced(free: &mut FreePages, plane: &PagedPlane, others: &[u32])
    requires { AreInUse (plane.now.record_page ∷ differing (pages_behind plane.now) others.now) free.old }
    ensures { AreGiven (plane.now.record_page ∷ differing (pages_behind plane.now) others.now) free.old free.new }
{
    free.give(plane.record_page());
    give_differing(free, plane.behind(), others);
}

/// Makes the pages of a tile's planes not free. Refused with Damaged if they aren't all free and distinct, and with
/// NoMemory.
pub(crate) fn mark_planes(free: &mut FreePages, planes: &TilePlanes) -> Result<(), Refusal>
    ensures marked { OnOk result (AreTaken (pages_of_planes planes.now) free.old free.new) }
    ensures refused { IfErr result (IsUnmarked free.old (pages_of_planes planes.now)) }
{
    mark_plane(free, &planes.heights)?;
    match &planes.kept {
        Some(kept) => mark_kept(free, kept),
        None => Ok(()),
    }
}

fn mark_kept(free: &mut FreePages, kept: &KeptLocations) -> Result<(), Refusal>
    ensures marked { OnOk result (AreTaken (pages_of_kept (Some kept.now)) free.old free.new) }
    ensures refused { IfErr result (IsUnmarked free.old (pages_of_kept (Some kept.now))) }
{
    mark_plane(free, &kept.levels)?;
    mark_plane(free, &kept.labels)
}

fn mark_plane(free: &mut FreePages, plane: &PagedPlane) -> Result<(), Refusal>
    ensures marked { OnOk result (AreTaken (pages_of_plane plane.now) free.old free.new) }
    ensures refused { IfErr result (IsUnmarked free.old (pages_of_plane plane.now)) }
{
    free.mark(plane.record_page())?;
    mark_all(free, plane.behind())
}

fn mark_all(free: &mut FreePages, pages: &[u32]) -> Result<(), Refusal>
    ensures marked { OnOk result (AreTaken pages.now free.old free.new) }
    ensures refused { IfErr result (IsUnmarked free.old pages.now) }
{
    for page in pages {
        free.mark(*page)?;
    }
    Ok(())
}
