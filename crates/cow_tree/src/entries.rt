//! The entries by which a root names the tiles of a page_map.
ghost use Rattle.std.specs.Prelude.{◌≡◌, ◌≤◌, ◌<◌, ◌^◌, All, Contains, IfSome, length, map, option_copied};
ghost use Rattle.page_codec.specs.Entries.{IsEntry};
ghost use Rattle.page_codec.specs.Roots.{AreInOrder};
ghost use Rattle.page_map.specs.PageMaps.{ChangesOnlyAt, IsLocated};
ghost use Rattle.page_map.specs.TileEntries.{kept_of};
ghost use Rattle.page_map.specs.TileLocations.{TileLocation};
ghost use Rattle.catalogue.specs.Tiles.{is_listed};
ghost use Rattle.cow_tree.specs.Entries.{NameCommitted, entry_of, entry_of_kept};

use arrayvec::ArrayVec;
use lattice::Corner;
use page_codec::{Entry, Kept, ROOT_ENTRIES};
use page_map::{PageMap, PagedPlane, Plane};

/// The entries of the staged tiles, in the order of tiles. Those of tiles that the commit doesn't change are looked for in
/// their places among the committed ones.
pub(crate) fn staged_entries(
    page_map: &PageMap,
    committed: &[Entry],
) -> ArrayVec<Entry, ROOT_ENTRIES>
    requires fits { page_map.now.sectors < 2 ^ 32 }
    requires committed { NameCommitted committed.now page_map.now }
    ensures value { result.items ≡ map entry_of page_map.now.staged }
    ensures each { All IsEntry result.items }
    ensures in_order { AreInOrder result.items }
    ensures room { length result.items ≤ page_map.now.format.capacity }
{
    page_map.rules();
    let changed = page_map.changed_corners();
    let corners = page_map.corners();
    let mut entries = ArrayVec::new();
    for corner in corners.as_slice() {
        let entry = next_entry(
            page_map,
            committed,
            entries.len(),
            changed.as_slice(),
            *corner,
        );
        entries.push(entry);
    }
    entries
}

// The entry of the corner's staged tile: the committed one of this place, where the commit doesn't change it.
fn next_entry(
    page_map: &PageMap,
    committed: &[Entry],
    place: usize,
    changed: &[Corner],
    corner: Corner,
) -> Entry
    requires fits { page_map.now.sectors < 2 ^ 32 }
    requires committed { NameCommitted committed.now page_map.now }
    requires changed { ChangesOnlyAt changed.now page_map.now }
    requires present { IsLocated corner page_map.now.staged }
    ensures { (t : TileLocation) → Contains page_map.now.staged t → t.corner ≡ corner
        → result ≡ entry_of t }
{
    match unchanged_entry(committed, place, changed, corner) {
        Some(entry) => entry,
        None => entry_at(page_map, corner),
    }
}

// The committed entry of this place, if it is the corner's and the commit doesn't change its tile.
fn unchanged_entry(
    committed: &[Entry],
    place: usize,
    changed: &[Corner],
    corner: Corner,
) -> Option<Entry>
    ensures committed { IfSome result (Contains committed.now) }
    ensures corner { IfSome result (λ entry. entry.corner ≡ corner) }
    ensures unchanged { IfSome result (λ entry. ¬ Contains changed.now corner) }
{
    let entry = committed.get(place)?;
    if entry.corner != corner || is_among(changed, corner) {
        return None;
    }
    Some(*entry)
}

/// Whether the corner is one of these few. (`contains` is made for many.)
pub(crate) fn is_among(corners: &[Corner], corner: Corner) -> bool
    ensures { result ≡ is_listed corner corners.now }
{
    corners.iter().any(|one| *one == corner)
}

// The entry of the corner's staged tile.
fn entry_at(page_map: &PageMap, c: Corner) -> Entry
    requires fits { page_map.now.sectors < 2 ^ 32 }
    requires present { IsLocated c page_map.now.staged }
    ensures { (t : TileLocation) → Contains page_map.now.staged t → t.corner ≡ c
        → result ≡ entry_of t }
{
    page_map.rules();
    let Some(heights) = page_map.plane(c, Plane::Heights) else {
        unreachable!()
    };
    let levels = page_map.plane(c, Plane::Levels);
    Entry {
        corner: c,
        heights: heights.record_page(),
        kept: records_of(levels, page_map.plane(c, Plane::Labels)),
    }
}

// The record pages of kept planes.
fn records_of(levels: Option<&PagedPlane>, labels: Option<&PagedPlane>) -> Option<Kept>
    ensures { result ≡ entry_of_kept (kept_of (option_copied levels.entry) (option_copied labels.entry)) }
{
    match (levels, labels) {
        (Some(levels), Some(labels)) => Some(Kept {
            levels: levels.record_page(),
            labels: labels.record_page(),
        }),
        _ => None,
    }
}
