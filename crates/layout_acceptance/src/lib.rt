//! Tests only, of the crates about bytes: disks, free pages, spellings of roots and records, slots and gates, trees.
//!
//! Images that aren't stores, and work on others, are in tests/test_images.py.
//!
//! A row has the number of calls before the stop, and the commit that each kind of stop leaves:
//!
//! ```
//! (14, [1, 2, 1, 2]),                                    // the sync of the second commit, which a stop may lose
//! ```
#![tactic(auto)]

#[cfg(test)]
mod disks;
#[cfg(test)]
mod examples;
#[cfg(test)]
mod free_pages;
#[cfg(test)]
mod root_slots;
#[cfg(test)]
mod spellings;
#[cfg(test)]
mod trees;
