//! The numbers of a store.

/// The sizes and counts of a store.
#[derive(Clone, Copy, Debug, PartialEq, Eq, Drop)]
pub struct Info {
    /// The number of samples along an edge of a tile.
    pub side: u32,
    /// The capacity in tiles.
    pub capacity: u32,
    /// The version of the store's format.
    pub version: u32,
    /// The number of accepted commands.
    pub count: u64,
    /// The number of the last commit.
    pub commits: u64,
    /// The number of present tiles with kept planes.
    pub fresh: u64,
    /// The number of present tiles without kept planes.
    pub stale: u64,
}
