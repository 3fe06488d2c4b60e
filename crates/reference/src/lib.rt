//! Slow, obvious programs over a small mosaic in memory. They compute what the product should answer, written from its rules
//! alone, without its code or its definitions. Tests use them; no contract mentions them. The crate also has worked rows that
//! the definitions themselves compute.
//!
//! ```
//! let mosaic = effect(alloc, 4, &Plain::new(alloc, side), &command)?;
//! let levels = filled_levels(alloc, &mosaic)?;           // over all neighbours, until nothing falls
//! let level = levels.get(point);
//! ```
#![tactic(auto)]

mod commands;
mod directions;
mod heights;
mod levels;
mod mosaic;
mod paths;
mod rows;

pub use commands::effect;
pub use directions::{direction, flat_distance};
pub use heights::{disagrees, height, is_adjacent, is_ground, is_outlet};
pub use levels::{Levels, filled_levels};
pub use mosaic::{Plain, PlainTile};
pub use paths::{flow_path, watershed};
pub use rows::{
    adjacency_rows, depth_rows, edit_rows, import_rows, patch_rows, refusal_rows, rim_rows,
    seam_rows, sink_rows, step_rows, void_rows,
};
