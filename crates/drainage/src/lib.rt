//! Where water stands and goes in a mosaic: filled levels, directions, flow paths and watersheds. They are computed over any
//! type that reads samples and labellings.
//!
//! The layer above relies on this: over any lawful `Labellings` each call returns what its definition says about their
//! mosaic, and only reads. A filled level reads the labellings of the tiles on the water's way out. A direction and a flow
//! path ask for levels on their way, a watershed for levels around its points. Labellings are flooded, or read from a store.
//! Results are cached for later queries, and survive changes that don't reach them.
//!
//! ```
//! let mut held = DrainageCache::new();                      // results, cached for later queries
//! let level = fill(alloc, &mut table, &mut held, point)?;   // in metres; Outside or Void where there is none
//! let path = trace(alloc, &mut table, &mut held, point)?;
//! ```
#![tactic(auto)]

mod downstream;
mod drainage_cache;
mod far_tiles;
mod filled_level;
mod flow_direction;
mod flow_paths;
mod invalidating;
mod laws;
mod levels_near;
mod neighbourhood;
mod prepared_flows;
mod preparing;
mod watersheds;
mod whole_tiles;

pub use drainage_cache::DrainageCache;
pub use filled_level::{fill, level};
pub use flow_direction::{direction, trace};
pub use invalidating::invalidate_edit;
pub use laws::{level_functions_exist, what_is_held_is_bounded};
pub use watersheds::watershed;
pub use whole_tiles::{directions, levels, upstream};
