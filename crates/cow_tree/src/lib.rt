//! Tiles and their planes as pages of a disk: copy on write by page, above the roots.
//!
//! A [`Tree`] reads pages by corner, plane and index, stages new ones on pages that no committed tile reaches, and
//! commits all staged pages at once. The layer above rests on this, on an honest disk. A stop at any moment leaves the
//! committed content or, inside a commit, all that was staged. After a commit's Ok a stop leaves only the new content.
//! An upgrade to the second version is one commit with the same tiles. An image stores at most one list of tiles.
//! `specs/Stored.antt` says what a disk stores, `specs/Layout.antt` when an image stores it.
//!
//! Six rules ensure that, here and in the crates below. Each names the definitions that state it.
//!
//! 1. A committed page is never written. `page_map` gives out pages that no committed tile reaches: `page_for_writing` a
//!    page of heights (page_map/plane_entry.rt `make_writable`: the committed page itself only where the tile has left it),
//!    `tile_for_writing` and `keep` whole planes.
//! 2. A page is free, committed or fresh, and only one of these. `AreCounted` (page_map/specs/TileEntries.antt) counts it,
//!    and `AreBalanced` (FreePages.antt) is every change of it: these pages are used in place of those. What a commit does
//!    without is free after it, and not before (page_map/page_map.rt `give_back`); what was staged alone is free as soon as
//!    it is dropped (`PlaneEntry::restage`).
//! 3. A free page is always there. A disk has sectors for every plane of every tile, for the heights of every tile once
//!    more, and for two planes more: `IsKept.kept_room`, page_map/proofs/Room.antt.
//! 4. Pages of planes are written when they are staged; what lists them in the commit. Of the records and index pages of
//!    staged tiles a commit writes those that no committed tile reaches (`pages_due`, specs/Staged.antt; listings.rt). An
//!    upgrade is the same commit for a page map whose planes all have new ones: `Listings::All`.
//! 5. A commit swaps the root. `roots` closes and settles the other slot's gate before the first page, and opens it behind
//!    the root, each with a sync (roots/roots.rt `begin`, `commit`). A stop leaves one root or the other, with all its
//!    pages (`WritesPages.any_moment`, specs/OverRoots.antt).
//! 6. An image stands for one store. `Stands` (specs/Layout.antt) says what is on a disk without saying where: the current
//!    root, its entries, their records and index pages, and the pages that these list.
//!
//! ```
//! tree.stage_plane(corner, Plane::Heights, bytes)?;      // read from now on, but not committed
//! tree.commit(count)?;                                   // or `abandon`
//! ```
#![tactic(auto)]

mod cache;
mod entries;
mod laws;
mod listings;
mod longer;
mod opening;
mod past_planes;
mod samples;
mod sinks;
mod tree;
mod writing;

pub use laws::{images_stand_for_one, no_tiles_stand, planes_read_back};
pub use longer::stands_where_longer;
pub use page_map::Plane;
pub use roots::NotOpened;
pub use tree::Tree;
