//! The least and the greatest of some levels, and whether a height change can move one of them.
ghost use Rattle.std.specs.Prelude.{◌≡◌};
ghost use Rattle.water.specs.Ranges.{is_range_spared};

use lattice::VOID;

/// The least and the greatest of some levels, in metres.
#[derive(Clone, Copy, Debug, PartialEq, Eq)]
pub struct LevelRange {
    pub least: i16,
    pub greatest: i16,
}

impl LevelRange {
    /// Whether no level of the range changes when a ground point's height goes from `was` to `is`: all are below both
    /// heights, or above both.
    pub fn is_spared(self, was: i16, is: i16) -> bool
        ensures { result ≡ is_range_spared was is self }
    {
        is != VOID
            && (self.greatest < was && self.greatest < is || was < self.least && is < self.least)
    }
}
