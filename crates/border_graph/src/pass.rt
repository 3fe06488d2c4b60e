//! A pass between two places.

/// Water passes between two places at this level, in metres, in both directions.
#[derive(Clone, Copy, Debug, PartialEq, Eq, PartialOrd, Ord)]
pub(crate) struct Pass {
    pub(crate) level: i16,
    pub(crate) a: u16,
    pub(crate) b: u16,
}
