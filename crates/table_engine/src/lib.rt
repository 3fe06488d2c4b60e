//! A mosaic in memory, as an engine.
//!
//! The layer above rests on this: the engine answers as a store does, and never refuses with Device.
//!
//! ```
//! let mut engine = TableEngine::new(alloc, side, 4);     // for at most four tiles
//! let count = engine.apply(&Command::Import { corner, bytes })?;
//! let level = engine.fill(Point { y: 1, x: 1 })?;        // in metres
//! ```
#![tactic(auto)]

mod table_engine;

pub use edits::{ArrayVec, Bytes, Command};
pub use engine::{Engine, Event, Reply};
pub use lattice::{Corner, Height, Point, Refusal, Side};
pub use table_engine::TableEngine;
pub use water::Run;
