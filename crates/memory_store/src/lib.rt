//! Stores on disks in memory: a new one, and one through two sessions with a power cut after each.
//!
//! Tests rest on this: such a disk is honest, so the promises for an honest disk are true of these calls without a premise.
//!
//! ```
//! let mut store = store_in_memory(alloc, 24, 3, 1)?;     // 24 sectors, side 3, one tile
//! ```
#![tactic(auto)]

mod in_memory;
mod two_sessions;

pub use in_memory::store_in_memory;
pub use two_sessions::{CutSession, run_two_sessions};
