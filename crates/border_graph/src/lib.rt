//! Joins the tiles of a mosaic at their rims.
//!
//! The layers above rely on this: `lowest_pass` computes the filled level of a rim point from a source of edges
//! (`EdgeSource`), node by node. It reads only tiles with a rim point that the point's water reaches at no more than that
//! level. `join` calls it for each ground rim point, from a summary of each tile's labelling. `list_edges` lists the edges
//! for such a source; edges inside a tile come from its `TileGraph`. `reduced` keeps only the spills of a summary that
//! matter.
//!
//! ```
//! let levels = join(alloc, &summaries)?;                 // tile by tile, each by rim numbers
//! ```
#![tactic(auto)]

mod bottleneck;
mod edge_source;
mod forest;
mod frontier;
mod joining;
mod lowest_first;
mod mosaic_graph;
mod pass;
mod reducing;
mod rows;
mod seams;
mod summary;
mod tile_graph;
mod union_find;
mod visited;

pub use bottleneck::lowest_pass;
pub use edge_source::{Edge, EdgeSource};
pub use joining::join;
pub use reducing::reduced;
pub use seams::{list_edges, node_at, place_of};
pub use summary::{RimPoint, Summary};
pub use tile_graph::TileGraph;
