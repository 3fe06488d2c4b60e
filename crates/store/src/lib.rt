//! An elevation store: tiles of elevation samples on a disk whose power may be cut at any moment.
//!
//! The layer above rests on this, on an honest disk. Each call answers what its definition says for the store's state,
//! and leads to the state that goes with the answer. A stop at any moment inside a command leaves the contents
//! unchanged or as the command makes them, whole; after an Ok only as it makes them. An image stores at most one
//! contents. `stored_mosaic` says when an image stores contents and when its tree is in a state, and
//! `specs/StoreState.antt` what contracts see of a store as an engine. The crate `engine` has the states, the answers
//! and the relation of a call, which each call here ensures.
//!
//! ```
//! let format = Format::new(Version::Two, 3, 4)?;         // tiles of 3 x 3 samples, at most four
//! let mut disk = MemDisk::new(alloc, format.sectors())?; // `FileDisk` keeps them in a file
//! Store::format(&mut disk, 3, 4)?;
//! let mut store = Store::open(alloc, disk)?;             // the refusal has the disk, too
//! let count = store.apply(&Command::Import { corner, bytes })?;   // acknowledged: a power cut leaves it done
//! let level = store.fill(Point { y: 1, x: 1 })?;         // in metres
//! let mut points = ArrayVec::new();
//! points.push(Point { y: 0, x: 2 });
//! store.apply(&Command::Burn { depth: 3, points })?;     // three metres lower
//! ```
#![tactic(auto)]

mod asking;
mod commands;
mod kept_right;
mod queries;
mod running;
mod sessions;
mod stepping;
mod store;
mod store_engine;
mod upgrading;

pub use cow_tree::NotOpened;
pub use disk::{Disk, Fault, FileDisk, MemDisk};
pub use edits::{ArrayVec, Bytes, Command};
pub use engine::{Engine, Event, Reply};
pub use kept_right::planes_stay_right;
pub use lattice::{Corner, Height, Point, Refusal, Side};
pub use page_codec::{Format, Version};
pub use sessions::{open_session, run_in_session, sessions_compose, upgrade_in_session};
pub use store::Store;
pub use stored_mosaic::{images_stand_for_one_contents, pages_are_written_once};
pub use water::Run;
