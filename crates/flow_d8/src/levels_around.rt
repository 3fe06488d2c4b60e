//! The levels at a point and around it.

/// The filled level of a ground point, and the levels of the points adjacent to it, by direction in the order of codes.
#[derive(Clone, Copy)]
pub struct Near {
    pub height: i16,
    pub around: [Option<i16>; 8],
}
