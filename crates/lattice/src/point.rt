//! A point of the lattice.

/// The place of a sample, counted in samples: `y` grows northwards and `x` eastwards, from the south-west sample of the
/// tile at latitude 0 and longitude 0. Points are ordered by `y`, then `x`.
#[derive(Clone, Copy, Debug, Default, PartialEq, Eq, PartialOrd, Ord)]
pub struct Point {
    pub y: i32,
    pub x: i32,
}
