//! Which pages of a store's disk are free. The layer above marks the pages that its records reach, takes a free page
//! for each page that it writes, and frees pages that it no longer uses.
//!
//! The layer above rests on this: taking a page makes a free page not free and changes no other page, and it fails only
//! if no page is free.
//!
//! ```
//! let mut pages = Pages::new(alloc, 16).ok_or(Refusal::NoMemory)?;   // pages 4 to 15
//! let was_free = pages.mark(4);                          // true
//! pages.give(4);
//! let page = pages.take().ok_or(Refusal::Full)?;         // one of 4 to 15
//! ```
#![tactic(auto)]

mod allocator;
mod bits;

pub use allocator::{FIRST_PAGE, Pages};
