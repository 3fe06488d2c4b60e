//! What is known about where a point drains.
ghost use Rattle.std.specs.Prelude.{◌≡◌, ◌↔◌, IsTrue};
ghost use Rattle.water.specs.Flows.{Drains, IsTellingAll, back_of, direction_of};

use lattice::Dir;

/// What is known about where a point drains.
#[derive(Clone, Copy, PartialEq, Eq, Debug)]
pub enum Flow {
    /// Nothing is known about where the point drains.
    Unknown,
    /// The point isn't ground.
    NoGround,
    /// Water leaves the mosaic at the point.
    Outlet,
    /// The point drains by this step, the steepest down.
    To(Dir),
    /// The point lies inside a flat next to an exit: a point of its level that drains to a lower one or off the mosaic. This
    /// is the first step to one.
    Beside(Dir),
    /// The point lies inside a flat, not next to an exit; its direction is unknown.
    Flat,
    /// The point lies inside a flat, not next to an exit. This is the first step that crosses the flat the shortest way.
    FlatTo(Dir),
}

impl Flow {
    /// Whether the flow shows where the point drains.
    #[inline(always)]
    pub fn drains(self) -> bool
        ensures { IsTrue result ↔ Drains self }
    {
        matches!(
            self,
            Flow::Outlet | Flow::To(_) | Flow::Beside(_) | Flow::FlatTo(_)
        )
    }

    /// Whether the flow is resolved: it shows where the point drains, or that it isn't ground.
    #[inline(always)]
    pub fn tells_all(self) -> bool
        ensures { IsTrue result ↔ IsTellingAll self }
    {
        !matches!(self, Flow::Unknown | Flow::Flat)
    }

    /// The flow's direction, if it has one.
    #[inline(always)]
    pub fn direction(self) -> Option<Dir>
        ensures { result ≡ direction_of self }
    {
        match self {
            Flow::To(direction) | Flow::Beside(direction) | Flow::FlatTo(direction) => Some(
                direction,
            ),
            Flow::Unknown | Flow::NoGround | Flow::Outlet | Flow::Flat => None,
        }
    }
}

/// The opposite direction.
#[inline(always)]
pub fn back(direction: Dir) -> Dir
    ensures { result ≡ back_of direction }
{
    match direction {
        Dir::East => Dir::West,
        Dir::SouthEast => Dir::NorthWest,
        Dir::South => Dir::North,
        Dir::SouthWest => Dir::NorthEast,
        Dir::West => Dir::East,
        Dir::NorthWest => Dir::SouthEast,
        Dir::North => Dir::South,
        Dir::NorthEast => Dir::SouthWest,
    }
}
