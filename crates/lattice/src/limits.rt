//! The size limits of a mosaic.

/// The most samples along the edge of a tile: those of SRTM1 tiles (SRTM documentation).
pub const LARGEST_SIDE: u32 = 3601;

/// The most tiles of one mosaic.
pub const MOST_TILES: u32 = 240;

/// The most sinks of one mosaic.
pub const MOST_SINKS: usize = 16;
