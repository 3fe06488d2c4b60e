//! Where water flows: D-8 directions on filled levels, with flats crossed the shortest way, and flow paths (O'Callaghan and
//! Mark 1984).
//!
//! The layer above relies on this: the directions and paths found are those of the definitions (crate `water`).
//!
//! Where a sample's point drains is one byte (`Flow`), which depends only on the mosaic. An exit of a flat is a point of its
//! level that drains to a lower point or off the mosaic; names call it `end`. `prepare` computes the bytes of a tile from its
//! filled levels and those of two rows around it. It leaves open the directions of points inside flats without an adjacent
//! exit. `FlowGrid::resolve` computes these, by waves over the loaded tiles that start next to the exits.
//!
//! `Filled::directions` does so for all tiles at once:
//!
//! ```
//! let filled = Filled::new(side, corners, levels, sinks).ok_or(Refusal::BadLength)?;
//! let directions = filled.directions()?;                 // Damaged where these are no mosaic's levels
//! let path = directions.trace(point)?;                   // from the point to where its water leaves
//! ```
#![tactic(auto)]

mod collecting;
mod direction_grid;
mod directions;
mod division;
mod donors;
mod filled;
mod flat_search;
mod flow;
mod flow_byte;
mod grid;
mod levels_around;
mod local_flow;
mod marks;
mod near;
mod padding;
mod preparing;
mod resolving;
mod slopes;
mod spreading;
mod telling;
mod tile_flows;
mod tiles;

pub use direction_grid::DirectionGrid;
pub use directions::Directions;
pub use filled::Filled;
pub use flat_search::FlatSearch;
pub use flow_byte::FlowByte;
pub use grid::FlowGrid;
pub use levels_around::Near;
pub use near::flow_near;
pub use preparing::{Sides, padded_point, prepare};
