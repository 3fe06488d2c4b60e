//! The levels and labels of one block: Priority-Flood inside a tile.
//!
//! The layers above rely on this: `Flood::run` returns a valid labelling of any block. A ground point's level is the least
//! crest of paths inside the block to a ground rim point or an inner outlet. Its label names one that is reached at that
//! level.
//!
//! The labelling is carried, too: from each ground point a path of adjacent points leads down to that outlet. Each level on
//! it is the greater of the point's height and the next level, and each label is the next one. So after some heights change,
//! `mend` returns the new labelling in the time that changed levels and labels need.
//!
//! ```
//! let block = Block::new(side, heights, sinks).ok_or(Refusal::BadLength)?;   // unless there is a height for each point
//! let labelled = Flood::run(alloc, &block)?;
//! let spills = spills(alloc, &labelled)?;                // the least pass between each two labels that meet
//! ```
#![tactic(auto)]

mod affected;
mod bands;
mod block;
mod borders;
mod cells;
mod filling;
mod flood;
mod labelled;
mod mending;
mod outlets;
mod passing;
mod passing_on;
mod queue;
mod raising;
mod restoring;
mod seeding;
mod settling;
mod sparing;
mod suspects;
mod values;
mod views;
mod waiting;

pub use bands::{renew_bands, spill_bands, spills_of};
pub use block::Block;
pub use flood::Flood;
pub use labelled::Labelled;
pub use mending::{Mended, mend};
pub use passing::spills;
pub use raising::{raise, raise_at};
pub use restoring::restore;
