//! The levels and labels that a tree keeps for its tiles: which tiles have none, and steps that add those of one tile.
//!
//! The layer above rests on this: if a tree keeps only valid labellings of its tiles' blocks, that is still so after a
//! step, whatever the step answers and whenever it is stopped. A present tile that isn't stale has a kept labelling.
//!
//! ```
//! let stepped = step(alloc, &mut tree, None, None)?;     // floods a stale tile, and keeps that; None where none is
//! let fresh = !stale(&tree, corner);
//! ```
#![tactic(auto)]

mod staleness;
mod stepping;

pub use staleness::{next_stale, stale, stale_count};
pub use stepping::step;
