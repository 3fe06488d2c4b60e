//! Where water passes between points with different labels.

/// The level, in metres, at which water passes between points with two labels of one block; the lower label is first. It is
/// the least, over adjacent points with these labels, of the greater of their levels.
#[derive(Clone, Copy, Debug, PartialEq, Eq, PartialOrd, Ord)]
pub struct Spill {
    pub a: u16,
    pub b: u16,
    pub level: i16,
}
