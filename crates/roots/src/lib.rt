//! Two roots behind gates: which root of a disk is current, and how a commit replaces it.
//!
//! The first four sectors are gate A, root A, gate B and root B; pages follow. The layer above writes pages that the
//! current root doesn't reach, and then commits a new root. It rests on this: a stop at any moment leaves the current
//! root or, inside a commit, the new one with all pages written since `begin`; pages that weren't written stay.
//! `specs/Slots.antt` says which root of an image is current, `specs/Opening.antt` what opening answers on it.
//!
//! ```
//! let mut roots = Roots::open(disk)?;                    // the refusal has the disk, too
//! roots.begin()?;                                        // the slot that isn't current is closed
//! roots.write(page, &bytes)?;
//! roots.commit(&root)?;                                  // a stop from here on leaves this root, with the page
//! ```
#![tactic(auto)]

mod faults;
mod laws;
mod opening;
mod roots;
mod slot;
mod writing;

pub use laws::{one_root_is_current, readers_see_one_image, stores_open};
pub use roots::{NotOpened, Roots};
