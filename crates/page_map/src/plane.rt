//! The planes of a tile.

/// The planes that are stored for a tile: its heights, and its in-tile levels and labels if they are kept.
#[derive(Clone, Copy, Debug, PartialEq, Eq)]
pub enum Plane {
    Heights,
    Levels,
    Labels,
}
