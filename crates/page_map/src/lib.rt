//! Which pages of a disk store which planes of which tiles, as committed and as the next commit will store them.
//!
//! A [`PageMap`] is in memory and makes no call of a disk. The layer above rests on this: for new content and for
//! records it gives out pages that no committed tile reaches, and there always is one. Pages that a commit replaces
//! become free only after it. `specs/TileLocations.antt` says which pages tiles reach, `specs/PageMaps.antt` what a
//! page map is.
//!
//! ```
//! page_map.tile_for_writing(corner)?;
//! let page = page_map.page_for_writing(corner, 0)?;      // for new content of the tile's first page
//! page_map.commit();                                     // what was staged is committed
//! ```
#![tactic(auto)]

mod free_pages;
mod locations;
mod page_map;
mod pages;
mod plane;
mod plane_entry;
mod tile_entry;
mod upgrading;

pub use locations::{KeptLocations, PagedPlane, TilePlanes};
pub use page_map::PageMap;
pub use plane::Plane;
