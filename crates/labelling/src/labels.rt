//! The labels that name no rim point.

/// The label of points that reach an inner outlet. An inner outlet is a ground point off the rim with a void next to it, or a
/// sink off the rim.
pub const OUT: u16 = 0xFFFF;

/// The label of a void point.
pub const NO_LABEL: u16 = 0xFFFE;
