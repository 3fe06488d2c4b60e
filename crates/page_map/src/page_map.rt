//! Which pages store which planes, as committed and as the next commit will store them.
ghost use Rattle.std.specs.Prelude.{◌≡◌, slice_index, ◌⊎◌, ◌≤◌, ◌<◌, [], ◌∷◌, ◌++◌, All, length, map, Some, None, Contains, IsOk, IfOk, OnOk, OnErr, IfSome, IfNone, IsSome, IsTrue, ◌↔◌, IfErr};
ghost use Rattle.lattice.specs.declared.refusal.Refusal.TheVariants.{Damaged, NoMemory};
ghost use Rattle.page_codec.specs.Formats.{upgraded};
ghost use Rattle.page_codec.specs.Sizes.{pages_of, sectors_asked};
ghost use Rattle.page_codec.specs.declared.version.Version.TheVariants.{One};
ghost use Rattle.lattice.specs.Corners.{is_before};
ghost use Rattle.lattice.specs.Lattice.{IsBefore};
ghost use Rattle.lattice.specs.Limits.{most_tiles};
ghost use Rattle.page_map.specs.TileEntries.{ended_entry, planes_at, AreAlike, AreCounted, AreInOrder};

use crate::free_pages::FreePages;
use crate::locations::{PagedPlane, TilePlanes};
use crate::pages::{fresh_plane, mark_planes};
use crate::plane::Plane;
use crate::plane_entry::{Ending, Staged};
use crate::tile_entry::TileEntry;
use crate::upgrading::upgraded_planes;
use arrayvec::ArrayVec;
use lattice::{Corner, MOST_TILES, Refusal, corner_in_range, is_before};
use page_codec::Format;
use std::alloc::Global;
use std::collections::BTreeMap;
use std::marker::Model;

// The most tiles of a page map, as a length.
const TILES: usize = MOST_TILES as usize;

/// The location of each plane of a store, as committed and as the next commit will store it.
///
/// Writing copies: the first write to a page of a committed plane takes a free page for it, and one for a record of the
/// plane. A page that isn't committed is written in place. Pages that a commit replaces become free only after it.
#[derive(Drop)]
pub struct PageMap {
    alloc: Global,
    format: Format,
    entries: BTreeMap<Corner, TileEntry>,
    free: FreePages,
}

impl Model for PageMap {
    ghost use Rattle.page_map.specs.PageMaps.{PageMapValue};
    ghost use Rattle.page_map.specs.TileEntries.{IsKept, page_map_of};

    ghost Value = { PageMapValue };

    ghost view = { λ c. page_map_of c.format c.entries.entries c.free };

    ghost invariant = { λ c. IsKept c.format c.entries.entries c.free };
}

impl PageMap {
    ghost use Rattle.page_map.specs.Locations.{PlaneLocation, listing_of};
    ghost use Rattle.page_map.specs.TileLocations.{TileLocation, KeepsPageRule};
    ghost use Rattle.page_map.specs.PageMaps.{no_tiles_mapped, IsPageMap, IsClean, IsLocated, HasFreshHeights, is_unreached, page_if, IsRewritten, IsPrepared, IsAdded, AreKept, ChangesOnlyAt, IsWholeTile, tile_at, other_kept, without_location, corners_of_locations};
    ghost use Rattle.page_map.specs.TileEntries.{ended_page_map};
    ghost use Rattle.page_map.specs.Planes.{HasPlane, HasPlaneAt};
    ghost use Rattle.page_map.specs.Upgraded.{IsUpgraded};

    /// A page map without tiles, for a disk with this many sectors and a store of this format.
    pub fn new(alloc: Global, sectors: u32, format: Format) -> Result<PageMap, Refusal>
        requires size { sectors_asked format ≤ sectors }
        requires capacity { format.capacity ≤ most_tiles }
        ensures value { IfOk result (λ page_map. page_map ≡ no_tiles_mapped sectors format) }
        ensures rules { IfOk result IsPageMap }
        ensures refused { IfErr result (λ refusal. refusal ≡ NoMemory) }
    {
        // An upgraded store stays in the same window.
        let window = sectors.min(format.upgraded().sectors());
        let free = FreePages::new(alloc, sectors, window)?;
        Ok(PageMap {
            alloc,
            format,
            entries: BTreeMap::new(alloc),
            free,
        })
    }

    /// Adds a committed tile after the others. Damaged if its pages break the page rule.
    pub fn load(self, corner: Corner, planes: TilePlanes) -> Result<PageMap, Refusal>
        requires clean { IsClean self }
        requires after { All (λ t. IsBefore t.corner corner) self.committed }
        requires room { length self.committed < self.format.capacity }
        requires whole { IsWholeTile self.format (tile_at corner planes) }
        ensures loaded { IfOk result (λ page_map. page_map ≡ record self { committed = self.committed ++ tile_at corner planes ∷ []; staged = self.committed ++ tile_at corner planes ∷ [] }) }
        ensures rules { IfOk result IsPageMap }
        ensures refused { IfErr result (λ refusal. (refusal ≡ NoMemory)
            ⊎ ((refusal ≡ Damaged)
            × ¬ KeepsPageRule self.sectors (self.committed ++ tile_at corner planes ∷ []))) }
    {
        corner_in_range(corner);
        let PageMap {
            alloc,
            format,
            mut entries,
            mut free,
        } = self;
        mark_planes(&mut free, &planes)?;
        place(&mut entries, corner)?;
        let entry = entries.get_mut(&corner).unwrap();
        *entry = TileEntry::committed(planes);
        Ok(PageMap {
            alloc,
            format,
            entries,
            free,
        })
    }

    /// A page map of the committed tiles in the second version; nothing may be staged. Data pages stay. Records and
    /// index pages get pages that no committed tile reaches. Refused with NoMemory.
    pub fn upgraded(&self) -> Result<PageMap, Refusal>
        requires clean { IsClean self.now }
        requires first { self.now.format.version ≡ One }
        requires room { sectors_asked (upgraded self.now.format) ≤ self.now.sectors }
        ensures upgraded { IfOk result (IsUpgraded self.now) }
        ensures rules { IfOk result IsPageMap }
        ensures refused { IfErr result (λ refusal. refusal ≡ NoMemory) }
    {
        let format = self.format.upgraded();
        // This call shows the prover that the side keeps its rules.
        let _side = format.side();
        let mut free = self.free.copy(self.alloc)?;
        let mut page_map = PageMap::new(self.alloc, free.sectors(), format)?;
        for (corner, entry) in &self.entries {
            if let Some(heights) = &entry.heights.committed {
                let planes = upgraded_planes(self.alloc, heights, entry, format, &mut free)?;
                page_map = page_map.load(*corner, planes)?;
            }
        }
        Ok(page_map)
    }

    /// The format of the page_map's store.
    pub fn format(&self) -> Format
        ensures { result ≡ self.now.format }
    {
        self.format
    }

    /// The rules of every page map, for the prover.
    pub fn rules(&self)
        ensures { IsPageMap self.now }
    {
        let _ = &self.entries;
    }

    /// Whether the corner's tile is staged.
    pub fn is_present(&self, c: Corner) -> bool
        ensures { IsTrue result ↔ IsLocated c self.now.staged }
    {
        self.plane(c, Plane::Heights).is_some()
    }

    /// The location of a plane of the corner's staged tile.
    pub fn plane(&self, c: Corner, plane: Plane) -> Option<&PagedPlane>
        ensures found { IfSome result (λ location. HasPlaneAt self.now.staged c plane location.now) }
        ensures none { IfNone result (¬ HasPlane self.now.staged c plane) }
    {
        let entry = self.entries.get(&c)?;
        entry.plane(plane).location()
    }

    /// The page to which new content of page `i` of the corner's heights may be written. No committed tile reaches it,
    /// its index page or the record of the heights. Refused with NoMemory, but never if the heights are staged already.
    pub fn page_for_writing(&mut self, c: Corner, i: u32) -> Result<u32, Refusal>
        requires present { IsLocated c self.old.staged }
        requires index { i < pages_of self.old.format.side }
        ensures written { IfOk result (λ page. IsRewritten c i page self.old self.new) }
        ensures sure { HasFreshHeights c self.old → IsOk result }
        ensures refused { IfErr result (λ refusal. refusal ≡ NoMemory) }
        ensures unchanged { OnErr result (self.new ≡ self.old) }
        ensures rules { IsPageMap self.new }
    {
        let entry = self.entries.get_mut(&c).unwrap();
        entry
            .heights
            .page_for_writing(self.alloc, i as usize, &mut self.free)
    }

    /// Stages the heights of the corner's tile without a change: their record is to be written, and from then on
    /// `page_for_writing` is never refused for them.
    pub fn prepare(&mut self, c: Corner) -> Result<(), Refusal>
        requires { IsLocated c self.old.staged }
        ensures prepared { OnOk result (IsPrepared c self.old self.new) }
        ensures refused { IfErr result (λ refusal. refusal ≡ NoMemory) }
        ensures unchanged { OnErr result (self.new ≡ self.old) }
        ensures rules { IsPageMap self.new }
    {
        let entry = self.entries.get_mut(&c).unwrap();
        entry.heights.prepare(self.alloc, &mut self.free)
    }

    /// A listing page of a plane of the corner's staged tile, by its number, if it is still to be written: no committed
    /// tile reaches it.
    pub fn page_due(&self, c: Corner, plane: Plane, i: usize) -> Option<u32>
        ensures { (location : PlaneLocation) → HasPlaneAt self.now.staged c plane location
            → i < length (listing_of location)
            → result ≡ page_if (is_unreached self.now.committed (slice_index (listing_of location) i)) (slice_index (listing_of location) i) }
    {
        let entry = self.entries.get(&c)?;
        entry.plane(plane).page_due(i)
    }

    /// Adds a tile with fresh pages for its heights.
    pub fn tile_for_writing(&mut self, c: Corner) -> Result<(), Refusal>
        requires absent { ¬ IsLocated c self.old.staged }
        requires room { length self.old.staged < self.old.format.capacity }
        ensures added { OnOk result (IsAdded c self.old self.new) }
        ensures refused { IfErr result (λ refusal. refusal ≡ NoMemory) }
        ensures unchanged { OnErr result (self.new ≡ self.old) }
        ensures rules { IsPageMap self.new }
    {
        place(&mut self.entries, c)?;
        let location = fresh_plane(
            self.alloc,
            &mut self.free,
            self.format.index_pages(),
            self.format.data_pages(),
        )?;
        let entry = self.entries.get_mut(&c).unwrap();
        entry.heights.staged = Staged::Fresh(location);
        Ok(())
    }

    /// Removes the corner's tile. The pages of the committed tile stay in use until the commit.
    pub fn remove_tile(&mut self, c: Corner)
        requires { IsLocated c self.old.staged }
        ensures removed { self.new ≡ record (self.old) { staged = without_location c self.old.staged } }
        ensures rules { IsPageMap self.new }
    {
        let entry = self.entries.get_mut(&c).unwrap();
        entry.remove(&mut self.free);
    }

    /// Stages fresh pages for the levels and labels of the corner's tile; nothing else may be staged. Refused with
    /// NoMemory.
    pub fn keep(&mut self, c: Corner) -> Result<(), Refusal>
        requires clean { IsClean self.old }
        requires present { IsLocated c self.old.staged }
        ensures kept { OnOk result (AreKept c self.old self.new) }
        ensures refused { IfErr result (λ refusal. refusal ≡ NoMemory) }
        ensures unchanged { OnErr result (self.new ≡ self.old) }
        ensures rules { IsPageMap self.new }
    {
        let entry = self.entries.get_mut(&c).unwrap();
        entry.keep(self.alloc, self.format, &mut self.free)
    }

    /// Stages the corner's tile without its kept planes. The pages of committed planes stay in use until the commit.
    /// Takes no memory.
    pub fn drop_kept(&mut self, c: Corner)
        requires { IsLocated c self.old.staged }
        ensures dropped { self.new ≡ record (self.old) { staged = other_kept c None self.old.staged } }
        ensures rules { IsPageMap self.new }
    {
        let entry = self.entries.get_mut(&c).unwrap();
        entry.drop_kept(&mut self.free);
    }

    /// The corners of the staged tiles, in order.
    pub fn corners(&self) -> ArrayVec<Corner, TILES>
        ensures value { result.items ≡ corners_of_locations self.now.staged }
        ensures room { length result.items ≤ self.now.format.capacity }
    {
        let mut corners = ArrayVec::new();
        for (corner, entry) in &self.entries {
            if entry.heights.location().is_some() {
                corners.push(*corner);
            }
        }
        corners
    }

    /// The corners of the staged tiles that the next commit changes. A staged tile of another corner is a committed one.
    pub fn changed_corners(&self) -> ArrayVec<Corner, TILES>
        ensures { ChangesOnlyAt result.items self.now }
    {
        let mut corners = ArrayVec::new();
        for (corner, entry) in &self.entries {
            if entry.is_changed() {
                corners.push(*corner);
            }
        }
        corners
    }

    /// What is staged is committed. Takes no memory.
    pub fn commit(&mut self)
        ensures committed { self.new ≡ record (self.old) { committed = self.old.staged } }
        ensures rules { IsPageMap self.new }
    {
        self.end(Ending::Committed);
    }

    /// Rolls back what is staged. Takes no memory.
    pub fn rollback(&mut self)
        ensures rolled_back { self.new ≡ record (self.old) { staged = self.old.committed } }
        ensures rules { IsPageMap self.new }
    {
        self.end(Ending::RolledBack);
    }

    fn end(&mut self, ending: Ending)
        ensures ended { self.new ≡ ended_page_map ending self.old }
        ensures rules { IsPageMap self.new }
    {
        give_back(&self.entries, ending, &mut self.free);
        self.entries.retain(|_, entry| {
            entry.end(ending);
            entry.heights.committed.is_some()
        });
    }
}

/// Adds an entry without planes for the corner, if it has none. Refused with NoMemory.
fn place(entries: &mut BTreeMap<Corner, TileEntry>, c: Corner) -> Result<(), Refusal>
    requires { AreInOrder entries.old.entries }
    ensures placed { OnOk result (IsSome (planes_at c entries.new.entries)) }
    ensures alike { AreAlike entries.old.entries entries.new.entries }
    ensures refused { IfErr result (λ refusal. refusal ≡ NoMemory) }
{
    corner_in_range(c);
    if entries.contains_key(&c) {
        return Ok(());
    }
    match entries.insert(c, TileEntry::empty()) {
        Ok(_) => Ok(()),
        Err(_) => Err(Refusal::NoMemory),
    }
}

/// Frees the pages that the entries no longer use after a commit or an abandon.
fn give_back(entries: &BTreeMap<Corner, TileEntry>, ending: Ending, free: &mut FreePages)
    requires { AreCounted entries.now.entries free.old }
    ensures range { free.new.range ≡ free.old.range }
    ensures counted { AreCounted (map (ended_entry ending) entries.now.entries) free.new }
{
    for (_, entry) in entries {
        entry.give_back(ending, free);
    }
}
