//! What a valid labelling of one block is: the level and the label of each point, and the spills between labels. Also: the
//! levels to which the rim's filled levels raise the points.
//!
//! The layers above rely on this: a block is a part of its mosaic, so a path in the mosaic is a path in the block up to its
//! rim. The crate tile_flood computes labellings, and border_graph joins spills.
#![tactic(auto)]

mod labels;
mod spill;

pub use labels::{NO_LABEL, OUT};
pub use spill::Spill;
