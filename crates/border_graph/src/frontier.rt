//! The frontier of a search, the lowest crest first.

use crate::lowest_first::LowestFirst;

/// A node, the greatest level on a path to it, and the level of that path's last edge, in metres.
#[derive(Clone, Copy, Debug, PartialEq, Eq, PartialOrd, Ord)]
pub(crate) struct Entry {
    pub(crate) crest: i16,
    pub(crate) level: i16,
    pub(crate) node: u32,
}

/// The entries that the search hasn't taken yet.
pub(crate) type Frontier = LowestFirst<Entry>;
