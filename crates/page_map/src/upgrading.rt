//! Planes upgraded to the second version, with the same data pages.
ghost use Rattle.std.specs.Prelude.{◌≡◌, ◌+◌, ◌*◌, ◌≤◌, ◌++◌, IfOk, IfErr, IfSome};
ghost use Rattle.std.specs.FinSet as set;
ghost use Rattle.lattice.specs.Corners.{Corner};
ghost use Rattle.lattice.specs.declared.refusal.Refusal.TheVariants.{NoMemory};
ghost use Rattle.page_codec.specs.Sizes.{index_pages_of};
ghost use Rattle.page_map.specs.PageMaps.{AreWholeKept, IsWholeTile, tile_at};
ghost use Rattle.page_map.specs.FreePages.{AreTaken};
ghost use Rattle.page_map.specs.Locations.{IsWholePlane, listing_of};
ghost use Rattle.page_map.specs.TileEntries.{kept_of, tile_planes};
ghost use Rattle.page_map.specs.Upgraded.{HasAllPages, HaveAllPages, KeptHaveAllPages, data_of, data_of_kept, listing_of_kept};

use crate::free_pages::FreePages;
use crate::locations::{KeptLocations, PagedPlane, TilePlanes};
use crate::pages::fresh_plane;
use crate::tile_entry::TileEntry;
use lattice::Refusal;
use page_codec::Format;
use std::alloc::Global;

/// The planes of a committed tile in a format with index pages, with the same data pages. Records and index pages are
/// on free pages.
pub(crate) fn upgraded_planes(
    alloc: Global,
    heights: &PagedPlane,
    entry: &TileEntry,
    format: Format,
    free: &mut FreePages,
) -> Result<TilePlanes, Refusal>
    requires whole { HaveAllPages format.side (tile_planes heights.now entry.now.levels.committed entry.now.labels.committed) }
    requires room { 3 * (1 + index_pages_of format) ≤ set.len free.old.free }
    ensures taken { IfOk result (λ new. AreTaken (listing_of new.heights ++ listing_of_kept new.kept) free.old free.new) }
    ensures left { IfOk result (λ new. set.len free.old.free ≤ set.len free.new.free
        + 3 * (1 + index_pages_of format)) }
    ensures same_pages { IfOk result (λ new. (c : Corner)
        → data_of (tile_at c new) ≡ data_of (tile_at c (tile_planes heights.now entry.now.levels.committed entry.now.labels.committed))) }
    ensures whole { IfOk result (λ new. (c : Corner) → IsWholeTile format (tile_at c new)) }
    ensures refused { IfErr result (λ refusal. refusal ≡ NoMemory) }
{
    let heights = upgraded_plane(alloc, heights, format, free)?;
    let kept = upgraded_kept(alloc, entry, format, free)?;
    Ok(TilePlanes { heights, kept })
}

fn upgraded_kept(
    alloc: Global,
    entry: &TileEntry,
    format: Format,
    free: &mut FreePages,
) -> Result<Option<KeptLocations>, Refusal>
    requires whole { IfSome (kept_of entry.now.levels.committed entry.now.labels.committed) (KeptHaveAllPages format.side) }
    requires room { 2 * (1 + index_pages_of format) ≤ set.len free.old.free }
    ensures taken { IfOk result (λ new. AreTaken (listing_of_kept new) free.old free.new) }
    ensures left { IfOk result (λ new. set.len free.old.free ≤ set.len free.new.free
        + 2 * (1 + index_pages_of format)) }
    ensures same_pages { IfOk result (λ new. data_of_kept new ≡ data_of_kept (kept_of entry.now.levels.committed entry.now.labels.committed)) }
    ensures whole { IfOk result (λ new. IfSome new (AreWholeKept format)) }
    ensures refused { IfErr result (λ refusal. refusal ≡ NoMemory) }
{
    let Some(levels) = &entry.levels.committed else {
        return Ok(None);
    };
    let Some(labels) = &entry.labels.committed else {
        return Ok(None);
    };
    let levels = upgraded_plane(alloc, levels, format, free)?;
    let labels = upgraded_plane(alloc, labels, format, free)?;
    Ok(Some(KeptLocations { levels, labels }))
}

fn upgraded_plane(
    alloc: Global,
    plane: &PagedPlane,
    format: Format,
    free: &mut FreePages,
) -> Result<PagedPlane, Refusal>
    requires whole { HasAllPages format.side plane.now }
    requires room { 1 + index_pages_of format ≤ set.len free.old.free }
    ensures taken { IfOk result (λ new. AreTaken (listing_of new) free.old free.new) }
    ensures left { IfOk result (λ new. set.len free.old.free ≡ set.len free.new.free
        + (1 + index_pages_of format)) }
    ensures same_pages { IfOk result (λ new. new.pages ≡ plane.now.pages) }
    ensures whole { IfOk result (IsWholePlane format) }
    ensures refused { IfErr result (λ refusal. refusal ≡ NoMemory) }
{
    let listing = fresh_plane(alloc, free, format.index_pages(), 0)?;
    listing.with_pages(plane.pages())
}
