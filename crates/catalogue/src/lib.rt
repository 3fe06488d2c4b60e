//! The mosaic as the layers above read it: samples from any source, a table of tiles in memory, and the seam rule.
//!
//! The layers above rest on this: for any lawful `Samples` the height of a point, adjacency, degree, the list of tiles
//! and the count of seams are those of its mosaic. Reading changes none of its tiles.
//!
//! ```
//! let mut table = Table::new(alloc, side);
//! table.add(corner, samples)?;
//! let height = height(&mut table, point)?;               // Outside, Void, or At so many metres
//! ```
#![tactic(auto)]

mod adjacency;
mod listing;
mod locality;
mod samples;
mod seam_rule;
mod seams_between;
mod table;
mod tile_block;

pub use adjacency::{adjacent, degree, is_ground, is_sink, outlet, share_tile, tile_of_both};
pub use lattice::Height;
pub use listing::tiles;
pub use locality::blocks_are_local;
pub use samples::Samples;
pub use seam_rule::height;
pub use seams_between::seams;
pub use table::Table;
pub use tile_block::block_heights;
