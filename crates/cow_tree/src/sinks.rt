//! The declared sinks of a tree, in memory.
ghost use Rattle.std.specs.Prelude.{◌≡◌};
ghost use Rattle.lattice.specs.Mosaic.{AreSinks};

use arrayvec::ArrayVec;
use lattice::{MOST_SINKS, Point, Side};
use page_codec::Root;
use std::marker::Model;

/// Sinks, with the side of the tiles, in order.
#[derive(Drop)]
pub(crate) struct Sinks {
    side: Side,
    points: ArrayVec<Point, MOST_SINKS>,
}

impl Model for Sinks {
    ghost use Rattle.lattice.specs.Mosaic.{AreSinks};
    ghost use Rattle.cow_tree.specs.Sinks.{SinksValue};

    ghost Value = { SinksValue };

    ghost view = { λ s. record { side = s.side; points = s.points.items } };

    ghost invariant = { λ s. AreSinks s.side s.points.items };
}

impl Sinks {
    pub(crate) fn new(side: Side, points: &[Point]) -> Sinks
        requires { AreSinks side points.now }
        ensures { result ≡ record { side = side; points = points.now } }
    {
        let Ok(points) = ArrayVec::try_from(points) else {
            unreachable!()
        };
        Sinks { side, points }
    }

    /// The root's sinks.
    pub(crate) fn of(root: &Root) -> Sinks
        ensures { result ≡ record { side = root.now.side; points = root.now.sinks } }
    {
        Sinks::new(root.side(), root.sinks())
    }

    pub(crate) fn points(&self) -> &[Point]
        ensures value { result.now ≡ self.now.points }
        ensures valid { AreSinks self.now.side self.now.points }
    {
        self.points.as_slice()
    }
}
