//! Filled levels: how high water stands at a point of a mosaic before it runs off, over any source of samples.
//!
//! The layer above relies on this: over any lawful `Labellings` each call returns what its definition says about their
//! mosaic, and only reads. A filled level reads the labellings of the tiles on the water's way out, which are flooded or were
//! stored. Results are cached for later queries, and survive changes of points that don't reach them.
//!
//! ```
//! let mut tiles = TileCache::new(alloc, &table)?;        // results, cached for later queries
//! let level = level_in(alloc, &mut table, &mut tiles, point)?;   // in metres; None where there is no ground
//! ```
#![tactic(auto)]

mod affected_tiles;
mod asking;
mod filling;
mod ground_cache;
mod heights;
mod labelling_cache;
mod outlets;
mod raised_levels;
mod refreshing;
mod rim_graph;
mod rims;
mod summing;
mod tile_cache;

pub use asking::{check_ground, present_holder};
pub use filling::{label_in, level_in};
pub use labelling_cache::LabellingCache;
pub use raised_levels::{level_of, tile_levels};
pub use rim_graph::RimGraph;
pub use rims::RimLevels;
pub use tile_cache::TileCache;
