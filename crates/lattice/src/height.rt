//! The elevation of a point in a mosaic.

/// The elevation of a point.
#[derive(Clone, Copy, Debug, PartialEq, Eq)]
pub enum Height {
    /// No present tile has the point.
    Outside,
    /// Each present tile with the point has a data void there.
    Void,
    /// Whole metres, from -32767 to 32767.
    At(i16),
}

/// The sample of a data void (SRTM documentation).
pub const VOID: i16 = -32768;
