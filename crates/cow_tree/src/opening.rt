//! Reads the page map of a disk from its records.
ghost use Rattle.std.specs.Prelude.{◌≡◌, ◌≤◌, ◌<◌, ◌⊎◌, ◌^◌, ℕ, List, All, length, map, IfSome, false, Ok, Err, IfOk, IfErr, Some, None};
ghost use Rattle.lattice.specs.declared.refusal.Refusal.TheVariants.{Damaged};
ghost use Rattle.page_codec.specs.declared.version.Version.TheVariants.{Two};
ghost use Rattle.page_codec.specs.Records.{IsRecord, record_bytes};
ghost use Rattle.page_codec.specs.Roots.{format_of};
ghost use Rattle.page_codec.specs.Sizes.{pages_of, index_pages_of, sectors_asked};
ghost use Rattle.page_map.specs.Locations.{IsWholePlane};
ghost use Rattle.page_map.specs.TileLocations.{TileLocation};
ghost use Rattle.cow_tree.specs.Entries.{entry_of, entry_of_kept};
ghost use Rattle.cow_tree.specs.Layout.{HasRecord, IsIndexed, HasRecords, IsLaidOut, HaveKeptRecords};
ghost use Rattle.page_map.specs.PageMaps.{IsWholeTile, IsPageMap, IsClean, tile_at, AreWholeKept};
ghost use Rattle.cow_tree.specs.Found.{NoneListed, NoneIndexed, NonePlane, NoneKept, NoTileAt};
ghost use Rattle.roots.specs.Roots.{disk_of, has_failed};
ghost use Rattle.cow_tree.specs.OverRoots.{OnlyReads, IsRefusedFor, IsRefusalOfTree};

use arrayvec::ArrayVec;
use disk::Disk;
use lattice::Refusal;
use page_codec::{
    Entry, FIXED_SECTORS, Format, Kept, PAGE_BYTES, RECORD_PAGES, Record, Root, Version,
};
use page_map::{KeptLocations, PageMap, PagedPlane, TilePlanes};
use roots::Roots;
use std::alloc::Global;

/// Reads this many page numbers from a record or an index page.
fn read_listed<D: Disk>(
    roots: &mut Roots<D>,
    page: u32,
    count: u32,
) -> Result<ArrayVec<u32, RECORD_PAGES>, Refusal>
    requires not_failed { has_failed roots.old ≡ false }
    requires count { count ≤ RECORD_PAGES }
    ensures reads { OnlyReads D.Disk roots.old roots.new result }
    ensures refusals { IfErr result IsRefusalOfTree }
    ensures count { IfOk result (λ pages. IsRecord count pages.items) }
    ensures listed { D.honest (disk_of roots.new)
        → IfOk result (λ pages. D.seen (disk_of roots.old) page ≡ record_bytes pages.items) }
    ensures refused { D.honest (disk_of roots.new)
        → IfErr result (IsRefusedFor (NoneListed (D.size (disk_of roots.old)) (D.seen (disk_of roots.old)) page count)) }
{
    if page < FIXED_SECTORS || roots.sectors() <= page {
        return Err(Refusal::Damaged);
    }
    let mut bytes = [0; PAGE_BYTES];
    roots.read(page, &mut bytes)?;
    match Record::read(&bytes, count) {
        Ok(record) => Ok(record.pages),
        Err(_) => Err(Refusal::Damaged),
    }
}

/// The plane with this record, whose pages these index pages list.
fn read_indexed<D: Disk>(
    roots: &mut Roots<D>,
    format: Format,
    record_page: u32,
    index: Vec<u32>,
) -> Result<PagedPlane, Refusal>
    requires not_failed { has_failed roots.old ≡ false }
    requires second { format.version ≡ Two }
    requires count { length index.items ≡ index_pages_of format }
    ensures reads { OnlyReads D.Disk roots.old roots.new result }
    ensures refusals { IfErr result IsRefusalOfTree }
    ensures at { IfOk result (λ plane. plane.record_page ≡ record_page) }
    ensures index { IfOk result (λ plane. plane.index_pages ≡ index.items) }
    ensures pages { IfOk result (λ plane. length plane.pages ≡ pages_of format.side) }
    ensures each { IfOk result (λ plane. All (λ p. p < 2 ^ 32) plane.pages) }
    ensures indexed { D.honest (disk_of roots.new)
        → IfOk result (λ plane. (t : ℕ) → t < length plane.index_pages
        → IsIndexed (D.seen (disk_of roots.old)) plane t) }
    ensures refused { D.honest (disk_of roots.new)
        → IfErr result (IsRefusedFor (NoneIndexed format (D.size (disk_of roots.old)) (D.seen (disk_of roots.old)) index.items)) }
{
    let index_count = index.len();
    let mut behind = index;
    let mut left = format.data_pages();
    for t in 0..index_count {
        let count = left.min(RECORD_PAGES as u32);
        let listed = read_listed(roots, behind[t], count)?;
        behind.extend_from_slice(listed.as_slice())?;
        left -= count;
    }
    Ok(PagedPlane::new(record_page, behind, index_count))
}

/// The location of a plane, from its record and index pages.
fn read_plane<D: Disk>(
    alloc: Global,
    roots: &mut Roots<D>,
    format: Format,
    record_page: u32,
) -> Result<PagedPlane, Refusal>
    requires not_failed { has_failed roots.old ≡ false }
    ensures reads { OnlyReads D.Disk roots.old roots.new result }
    ensures refusals { IfErr result IsRefusalOfTree }
    ensures record { D.honest (disk_of roots.new)
        → IfOk result (λ plane. HasRecord format (D.seen (disk_of roots.old)) plane) }
    ensures at { IfOk result (λ plane. plane.record_page ≡ record_page) }
    ensures whole { IfOk result (IsWholePlane format) }
    ensures refused { D.honest (disk_of roots.new)
        → IfErr result (IsRefusedFor (NonePlane format (D.size (disk_of roots.old)) (D.seen (disk_of roots.old)) record_page)) }
{
    let listed = read_listed(roots, record_page, format.listed())?;
    let behind = Vec::from_slice(alloc, listed.as_slice())?;
    match format.version() {
        Version::One => Ok(PagedPlane::new(record_page, behind, 0)),
        Version::Two => read_indexed(roots, format, record_page, behind),
    }
}

/// The locations of a tile's kept planes, from their records.
fn read_kept<D: Disk>(
    alloc: Global,
    roots: &mut Roots<D>,
    format: Format,
    kept: Option<Kept>,
) -> Result<Option<KeptLocations>, Refusal>
    requires not_failed { has_failed roots.old ≡ false }
    ensures reads { OnlyReads D.Disk roots.old roots.new result }
    ensures refusals { IfErr result IsRefusalOfTree }
    ensures records { D.honest (disk_of roots.new)
        → IfOk result (λ locations. IfSome locations (HaveKeptRecords format (D.seen (disk_of roots.old)))) }
    ensures entry { IfOk result (λ locations. entry_of_kept locations ≡ kept) }
    ensures whole { IfOk result (λ locations. IfSome locations (AreWholeKept format)) }
    ensures refused { D.honest (disk_of roots.new)
        → IfErr result (IsRefusedFor (NoneKept format (D.size (disk_of roots.old)) (D.seen (disk_of roots.old)) kept)) }
{
    let Some(kept) = kept else {
        return Ok(None);
    };
    let levels = read_plane(alloc, roots, format, kept.levels)?;
    let labels = read_plane(alloc, roots, format, kept.labels)?;
    Ok(Some(KeptLocations { levels, labels }))
}

/// The locations of a tile's planes, from their records.
fn read_planes<D: Disk>(
    alloc: Global,
    roots: &mut Roots<D>,
    format: Format,
    entry: &Entry,
) -> Result<TilePlanes, Refusal>
    requires not_failed { has_failed roots.old ≡ false }
    ensures reads { OnlyReads D.Disk roots.old roots.new result }
    ensures refusals { IfErr result IsRefusalOfTree }
    ensures records { D.honest (disk_of roots.new)
        → IfOk result (λ planes. HasRecords format (D.seen (disk_of roots.old)) (tile_at entry.now.corner planes)) }
    ensures entry { IfOk result (λ planes. entry_of (tile_at entry.now.corner planes) ≡ entry.now) }
    ensures whole { IfOk result (λ planes. IsWholeTile format (tile_at entry.now.corner planes)) }
    ensures refused { D.honest (disk_of roots.new)
        → IfErr result (IsRefusedFor (NoTileAt format (D.size (disk_of roots.old)) (D.seen (disk_of roots.old)) entry.now)) }
{
    let heights = read_plane(alloc, roots, format, entry.heights)?;
    let kept = read_kept(alloc, roots, format, entry.kept)?;
    Ok(TilePlanes { heights, kept })
}

/// The page_map of the tiles that the current root's entries name.
pub(crate) fn read_page_map<D: Disk>(
    alloc: Global,
    roots: &mut Roots<D>,
    root: &Root,
) -> Result<PageMap, Refusal>
    requires not_failed { has_failed roots.old ≡ false }
    ensures reads { OnlyReads D.Disk roots.old roots.new result }
    ensures refusals { IfErr result IsRefusalOfTree }
    ensures rules { IfOk result IsPageMap }
    ensures sectors { IfOk result (λ page_map. page_map.sectors ≡ D.size (disk_of roots.old)) }
    ensures format { IfOk result (λ page_map. page_map.format ≡ format_of root.now) }
    ensures fits { IfOk result (λ page_map. page_map.sectors < 2 ^ 32) }
    ensures entries { IfOk result (λ page_map. map entry_of page_map.committed ≡ root.now.entries) }
    ensures clean { IfOk result IsClean }
    ensures records { D.honest (disk_of roots.new)
        → IfOk result (λ page_map. All (HasRecords (format_of root.now) (D.seen (disk_of roots.old))) page_map.committed) }
    ensures refused { D.honest (disk_of roots.new)
        → IfErr result (λ why. (D.size (disk_of roots.old) < sectors_asked (format_of root.now))
        ⊎ IsRefusedFor ((tiles : List TileLocation)
        → ¬ IsLaidOut (D.size (disk_of roots.old)) (D.seen (disk_of roots.old)) root.now tiles) why) }
{
    let format = root.format();
    let entries = root.entries();
    let sectors = roots.sectors();
    // Reading the roots tested that there is room. A disk that isn't honest may answer otherwise here.
    if sectors < format.sectors() {
        return Err(Refusal::TooSmall);
    }
    let mut page_map = PageMap::new(alloc, sectors, format)?;
    for entry in entries {
        let planes = read_planes(alloc, roots, format, entry)?;
        page_map = page_map.load(entry.corner, planes)?;
    }
    Ok(page_map)
}
