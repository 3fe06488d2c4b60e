//! The mosaic that a tree of pages stores: what an image stores, and how a call that may commit ends.
//!
//! The layer above rests on this, on an honest disk. An edit is staged and committed whole or not at all; a stop at any
//! moment leaves the contents unchanged, or as the edit makes them. An image stores at most one contents. A tree is
//! samples with labellings: a fresh tile's is read, a stale tile is flooded. `specs/Standing.antt` says when an image
//! stores contents, `specs/TreeStates.antt` when a tree is in a state, and `specs/Ended.antt` how such a call ends. The
//! layer above caches results about water.
#![tactic(auto)]

mod committing;
mod heights;
mod kept_plane;
mod laws;
mod marking_stale;
mod page_edit;
mod rims;
mod staging;
mod staging_pages;
mod tree_labellings;
mod tree_upgrade;
mod voids;

pub use committing::commit_staged;
pub use kept_plane::read_plane;
pub use laws::{images_stand_for_one_contents, pages_are_written_once};
pub use marking_stale::mark_stale;
pub use staging::stage;
pub use tree_labellings::{Premise, TreeSource};
pub use tree_upgrade::upgrade_tree;
