//! The watershed of a point, the points that drain through it, as maximal runs of samples. Also: the number of these points,
//! for all samples of a tile at once.
//!
//! The layer above relies on this: the runs are those of the point's watershed. The search reads flows point by point: from a
//! mosaic's directions, or from tiles that are loaded when the search reaches them.
//!
//! ```
//! let mut flows = DirectionGrid { directions: &directions };
//! let runs = watershed_over(alloc, &mut flows, point)?;      // (y, first x, last x), from the north down
//! ```
#![tactic(auto)]

mod counting;
mod donors;
mod marks;
mod runs;
mod search;
mod tile_counts;

pub use counting::upstream_counts;
pub use marks::Marks;
pub use search::watershed_over;
