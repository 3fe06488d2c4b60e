//! What lists the pages of planes: records, and index pages.
ghost use Rattle.std.specs.Prelude.{◌≡◌, ◌≤◌, ◌<◌, ◌*◌, false, IsTrue, Contains, OnOk, length, slice_index};
ghost use Rattle.page_codec.specs.Records.{part_of, record_bytes};
ghost use Rattle.page_map.specs.PageMaps.{ChangesOnlyAt, IsLocated, is_unreached, page_if};
ghost use Rattle.page_map.specs.Locations.{IsWholePlane, listing_of};
ghost use Rattle.page_map.specs.Planes.{HasPlaneAt};
ghost use Rattle.page_map.specs.TileLocations.{TileLocation};
ghost use Rattle.cow_tree.specs.Caches.{Agrees};
ghost use Rattle.cow_tree.specs.Layout.{listed_by};
ghost use Rattle.cow_tree.specs.Listings.{WritesListing, due_among, listing_bytes, named_listing, tile_listing, tiles_listing, written_before};
ghost use Rattle.cow_tree.specs.declared.listings.Listings.TheVariants.{Due};
ghost use Rattle.roots.specs.Roots.{disk_of, has_failed};

use crate::cache::PageCache;
use crate::entries::is_among;
use arrayvec::ArrayVec;
use disk::Disk;
use lattice::{Corner, Refusal};
use page_codec::{Format, IndexPage, PAGE_BYTES, RECORD_PAGES, Record, Version};
use page_map::{PageMap, PagedPlane, Plane};
use roots::Roots;

/// Which listing pages a commit writes.
#[derive(Clone, Copy)]
pub(crate) enum Listings {
    /// The listing pages that no committed tile reaches.
    Due,
    /// All listing pages, for a page map whose version differs from the committed one.
    All,
}

// These page numbers, as a record or an index page lists them.
fn listing(numbers: &[u32]) -> ArrayVec<u32, RECORD_PAGES>
    requires { length numbers.now ≤ RECORD_PAGES }
    ensures { result.items ≡ numbers.now }
{
    let mut pages = ArrayVec::new();
    if pages.try_extend_from_slice(numbers).is_err() {
        unreachable!();
    }
    pages
}

// The page numbers in a plane's record.
fn listed(format: Format, plane: &PagedPlane) -> &[u32]
    requires { IsWholePlane format plane.now }
    ensures value { result.now ≡ listed_by format.version plane.now }
    ensures room { length result.now ≤ RECORD_PAGES }
{
    let count = format.listed() as usize;
    let numbers = match format.version() {
        Version::One => plane.pages(),
        Version::Two => plane.index_pages(),
    };
    prove!(numbers.len() == count);
    numbers
}

// The record of a plane.
fn record_of(format: Format, plane: &PagedPlane) -> [u8; PAGE_BYTES]
    requires { IsWholePlane format plane.now }
    ensures { result ≡ record_bytes (listed_by format.version plane.now) }
{
    let pages = listing(listed(format, plane));
    Record { pages }.write()
}

// The pages of a plane that its index page `t` lists.
fn part(plane: &PagedPlane, t: usize) -> &[u32]
    requires { 1024 * t < length plane.now.pages }
    ensures value { result.now ≡ part_of t plane.now.pages }
    ensures room { length result.now ≤ RECORD_PAGES }
{
    let (_, behind) = plane.pages().split_at(RECORD_PAGES * t);
    let (front, _) = behind.split_at(behind.len().min(RECORD_PAGES));
    front
}

// Index page `t` of a plane.
fn index_page_of(plane: &PagedPlane, t: usize) -> [u8; PAGE_BYTES]
    requires { 1024 * t < length plane.now.pages }
    ensures { result ≡ record_bytes (part_of t plane.now.pages) }
{
    let pages = listing(part(plane, t));
    IndexPage { pages }.write()
}

// A plane's listing page by its number: the record first, then the index pages.
fn listing_page(format: Format, plane: &PagedPlane, i: usize) -> [u8; PAGE_BYTES]
    requires whole { IsWholePlane format plane.now }
    requires index { i < length (listing_of plane.now) }
    ensures { result ≡ listing_bytes format plane.now i }
{
    if i == 0 {
        record_of(format, plane)
    } else {
        index_page_of(plane, i - 1)
    }
}

// The disk page for listing page `i` of this plane of the corner's staged tile; None if it isn't due.
fn page_due(
    page_map: &PageMap,
    which: Listings,
    corner: Corner,
    name: Plane,
    plane: &PagedPlane,
    i: usize,
) -> Option<u32>
    requires here { HasPlaneAt page_map.now.staged corner name plane.now }
    requires index { i < length (listing_of plane.now) }
    ensures { result ≡ page_if (is_unreached (written_before which page_map.now) (slice_index (listing_of plane.now) i)) (slice_index (listing_of plane.now) i) }
{
    match which {
        Listings::Due => page_map.page_due(corner, name, i),
        Listings::All => plane.listing_page(i),
    }
}

// Writes the listing pages of one plane of the corner's staged tile, if the tile has the plane.
fn write_listing<D: Disk>(
    roots: &mut Roots<D>,
    cache: &mut PageCache,
    page_map: &PageMap,
    which: Listings,
    corner: Corner,
    name: Plane,
) -> Result<(), Refusal>
    requires not_failed { has_failed roots.old ≡ false }
    requires sectors { page_map.now.sectors ≡ D.size (disk_of roots.old) }
    ensures listed { (t : TileLocation) → Contains page_map.now.staged t → t.corner ≡ corner
        → WritesListing D.Disk (due_among (written_before which page_map.now) (named_listing page_map.now.format name t)) roots.old roots.new result }
    ensures cached { D.honest (disk_of roots.new) → Agrees cache.old (D.seen (disk_of roots.old))
        → OnOk result (Agrees cache.new (D.seen (disk_of roots.new))) }
{
    page_map.rules();
    let Some(plane) = page_map.plane(corner, name) else {
        return Ok(());
    };
    for i in 0..plane.listing_len() {
        if let Some(page) = page_due(page_map, which, corner, name, plane, i) {
            roots.write(page, &listing_page(page_map.format(), plane, i))?;
            cache.forget(page);
        }
    }
    Ok(())
}

// Whether no page of what lists the corner's staged tile is due: the commit doesn't change it.
fn is_listed(which: Listings, changed: &[Corner], corner: Corner) -> bool
    ensures due { IsTrue result → which ≡ Due }
    ensures unchanged { IsTrue result → ¬ Contains changed.now corner }
{
    match which {
        Listings::Due => !is_among(changed, corner),
        Listings::All => false,
    }
}

// Writes what lists the pages of the corner's staged tile.
fn write_tile_listings<D: Disk>(
    roots: &mut Roots<D>,
    cache: &mut PageCache,
    page_map: &PageMap,
    which: Listings,
    changed: &[Corner],
    corner: Corner,
) -> Result<(), Refusal>
    requires not_failed { has_failed roots.old ≡ false }
    requires sectors { page_map.now.sectors ≡ D.size (disk_of roots.old) }
    requires changed { ChangesOnlyAt changed.now page_map.now }
    requires present { IsLocated corner page_map.now.staged }
    ensures listed { (t : TileLocation) → Contains page_map.now.staged t → t.corner ≡ corner
        → WritesListing D.Disk (due_among (written_before which page_map.now) (tile_listing page_map.now.format t)) roots.old roots.new result }
    ensures cached { D.honest (disk_of roots.new) → Agrees cache.old (D.seen (disk_of roots.old))
        → OnOk result (Agrees cache.new (D.seen (disk_of roots.new))) }
{
    page_map.rules();
    if is_listed(which, changed, corner) {
        return Ok(());
    }
    write_listing(roots, cache, page_map, which, corner, Plane::Heights)?;
    write_listing(roots, cache, page_map, which, corner, Plane::Levels)?;
    write_listing(roots, cache, page_map, which, corner, Plane::Labels)
}

/// Writes the listing pages of the staged tiles, and evicts them from the cache.
pub(crate) fn write_listings<D: Disk>(
    roots: &mut Roots<D>,
    cache: &mut PageCache,
    page_map: &PageMap,
    which: Listings,
) -> Result<(), Refusal>
    requires not_failed { has_failed roots.old ≡ false }
    requires sectors { page_map.now.sectors ≡ D.size (disk_of roots.old) }
    ensures listed { WritesListing D.Disk (due_among (written_before which page_map.now) (tiles_listing page_map.now.format page_map.now.staged)) roots.old roots.new result }
    ensures cached { D.honest (disk_of roots.new) → Agrees cache.old (D.seen (disk_of roots.old))
        → OnOk result (Agrees cache.new (D.seen (disk_of roots.new))) }
{
    page_map.rules();
    let changed = page_map.changed_corners();
    let corners = page_map.corners();
    for corner in corners.as_slice() {
        write_tile_listings(roots, cache, page_map, which, changed.as_slice(), *corner)?;
    }
    Ok(())
}
