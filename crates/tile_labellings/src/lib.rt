//! The stored labelling of a tile: the bytes of its levels and labels. Also: labellings, either flooded or stored.
//!
//! The layers above rely on this: the bytes that `kept_planes` returns are a valid labelling of the tile in the mosaic.
//! `labelled_from` reads such bytes back, and refuses bytes that can be no labelling.
//!
//! ```
//! let planes = kept_planes(alloc, &mut table, corner)?;  // two bytes a point of each
//! let labelled = labelled_from(alloc, side, &planes.levels, &planes.labels)?;
//! ```
#![tactic(auto)]

mod bytes;
mod flooded_block;
mod held_spills;
mod labellings;
mod planes;
mod reading;
mod tile_labelling;

pub use flooded_block::FloodedBlock;
pub use labellings::{Labellings, flooded};
pub use planes::{KeptPlanes, kept_planes, planes_of};
pub use reading::{labelled_at, labelled_from};
pub use tile_labelling::TileLabelling;
