//! The lattice that all tiles share: corners, points, sides, directions and refusals. Its `specs/` define what all
//! contracts of the product rest on: tiles and samples, the seam rule, ground and adjacency, paths and filled levels,
//! blocks.
//!
//! The layers above rest on this: the holders of a point are exactly the corners whose tile has a sample there, in the
//! order of tiles. A point has an index in exactly the tiles that have it.
//!
//! ```
//! let side = Side::new(3).ok_or(Refusal::BadSide)?;
//! let point = Point { y: 1, x: 2 };                      // on the edge between N00E000 and N00E001
//! for corner in holders(side, point) {                   // these two, in this order
//!     let index = index_in(side, corner, point);         // Some(5), then Some(3): which sample of the tile it is
//! ```
#![tactic(auto)]

mod corner;
mod direction;
mod ground_laws;
mod growth;
mod height;
mod holding;
mod laws;
mod limits;
mod order;
mod point;
mod ranges;
mod refusal;
mod rim;
mod side;
mod sinks;

pub use corner::Corner;
pub use direction::{DIRECTIONS, Dir, Step, neighbour, steps};
pub use ground_laws::{
    blocks_are_lawful, filled_levels_are_unique, filled_levels_exist, heights_make_a_block,
    terrains_are_lawful, ways_out_exist,
};
pub use growth::push;
pub use height::{Height, VOID};
pub use holding::{holders, index_in, point_at};
pub use laws::{
    at_most_four_hold_a_point, edges_tell_holders, index_and_point_are_inverse, no_double_square,
    rim_points_are_numbered,
};
pub use limits::{LARGEST_SIDE, MOST_SINKS, MOST_TILES};
pub use order::{is_before, is_point_before};
pub use point::Point;
pub use ranges::{bytes_in_range, corner_in_range, labels_in_range, samples_in_range};
pub use refusal::Refusal;
pub use rim::{rim_index, rim_number};
pub use side::Side;
pub use sinks::{is_held, sinks_in};
