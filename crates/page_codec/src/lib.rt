//! The layout of a store, in both versions: the sizes of planes and stores, and the bytes of roots, of their entries
//! and sinks, and of the records and index pages of planes. Values are read from bytes and written to bytes.
//!
//! The layers above rest on this. A [`Format`] is a version with a side and a capacity that it allows. A disk of
//! `sectors` has a free page whenever a change or a step needs one. Each value has one spelling: `write` gives it, and
//! `read` answers a value exactly for its spelling. A root is refused by the first of three tests that fails: its
//! magic, its version, all other rules. This crate allocates no memory.
//!
//! ```
//! let format = Format::new(Version::Two, 3, 1)?;         // refused as BadSide or BadCapacity
//! let sectors = format.sectors();                        // the least that such a store needs
//! let root = Root::empty(format);
//! let bytes = root.write();                              // "MOSAICST", version 2, side 3, capacity 1, ..
//! let same = Root::read(&bytes)?;
//! ```
#![tactic(auto)]

mod damaged;
mod entries;
mod entry;
mod format;
mod header;
mod law;
mod numbers;
mod record;
mod root;
mod sinks;
mod size;
mod version;
mod writer;

pub use damaged::Damaged;
pub use entry::{Entry, Kept};
pub use format::Format;
pub use law::one_value_a_spelling;
pub use record::{IndexPage, Record};
pub use root::Root;
pub use size::pages_in_plane;
pub use version::Version;

/// The size of a sector and of a page in bytes.
pub const PAGE_BYTES: usize = 4096;

/// The number of samples, levels or labels on a page, at two bytes each.
pub const VALUES_IN_PAGE: u32 = 2048;

/// The number of sectors for gates and roots, before the pages.
pub const FIXED_SECTORS: u32 = 4;

/// The most page numbers in a record or an index page.
pub const RECORD_PAGES: usize = 1024;

/// The greatest capacity of a store, in tiles.
pub const MAX_CAPACITY: u32 = lattice::MOST_TILES;

/// The length of a tile's entry in a root, in bytes.
pub const ENTRY_BYTES: usize = 16;

/// The most entries of a root.
pub const ROOT_ENTRIES: usize = MAX_CAPACITY as usize;
