//! The pages that dropped levels and labels had.
ghost use Rattle.std.specs.Prelude.{◌≡◌, MatchOption, None, Some};
ghost use Rattle.cow_tree.specs.Past.{past_page, past_pages, past_tile};

use lattice::Corner;
use page_map::{PagedPlane, Plane};
use std::alloc::Global;

// The most tiles whose planes are remembered.
const MOST_TILES: usize = 64;

// The pages that the levels and labels of a stale tile had.
#[derive(Drop)]
struct PastTile {
    corner: Corner,
    levels: Vec<u32>,
    labels: Vec<u32>,
}

impl PastTile {
    fn pages(&self, plane: Plane) -> &[u32]
        ensures { result.now ≡ past_pages self.now plane }
    {
        match plane {
            Plane::Heights => &[],
            Plane::Levels => &self.levels,
            Plane::Labels => &self.labels,
        }
    }
}

/// The pages that levels and labels of stale tiles had. They may have been overwritten, so they may contain anything.
#[derive(Drop)]
pub(crate) struct PastPlanes {
    tiles: Vec<PastTile>,
}

impl PastPlanes {
    pub(crate) fn new(alloc: Global) -> PastPlanes {
        PastPlanes {
            tiles: Vec::new(alloc),
        }
    }

    pub(crate) fn clear(&mut self) {
        self.tiles.clear();
    }

    /// Remembers the pages of the corner's kept planes, if there are any and memory suffices.
    pub(crate) fn note(
        &mut self,
        alloc: Global,
        corner: Corner,
        levels: Option<&PagedPlane>,
        labels: Option<&PagedPlane>,
    ) {
        let (Some(levels), Some(labels)) = (levels, labels) else {
            return;
        };
        let (Ok(levels), Ok(labels)) = (
            Vec::from_slice(alloc, levels.pages()),
            Vec::from_slice(alloc, labels.pages()),
        ) else {
            return;
        };
        self.tiles.retain(|tile| tile.corner != corner);
        self.tiles.truncate(MOST_TILES - 1);
        let tile = PastTile {
            corner,
            levels,
            labels,
        };
        let _ = self.tiles.insert(0, tile);
    }

    /// The page that page `i` of the corner's plane had, if it is remembered.
    pub(crate) fn page(&self, corner: Corner, plane: Plane, i: u32) -> Option<u32>
        ensures { result ≡ past_page self.now.tiles.items corner plane i }
    {
        let tile = self.tile(corner)?;
        tile.pages(plane).get(i as usize).copied()
    }

    fn tile(&self, corner: Corner) -> Option<&PastTile>
        ensures { MatchOption result (past_tile self.now.tiles.items corner ≡ None) (λ t. past_tile self.now.tiles.items corner
            ≡ Some t.now) }
    {
        for tile in &self.tiles {
            if tile.corner == corner {
                return Some(tile);
            }
        }
        None
    }
}
