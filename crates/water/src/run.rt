//! Runs of points.
ghost use Rattle.std.specs.Prelude.{◌≡◌, ◌↔◌, ◌+ℤ◌, pos, IsTrue};

use lattice::Point;

/// The points of row `y` from column `first` to column `last`, in samples.
#[derive(Clone, Copy, Debug, Default, PartialEq, Eq)]
pub struct Run {
    pub y: i32,
    pub first: i32,
    pub last: i32,
}

impl Run {
    /// The run of one point.
    pub fn of(point: Point) -> Run
        ensures { result ≡ record { y = point.y; first = point.x; last = point.x } }
    {
        Run {
            y: point.y,
            first: point.x,
            last: point.x,
        }
    }

    /// This run, with its last point replaced by this point of its row.
    pub fn up_to(self, point: Point) -> Run
        ensures { result ≡ record { y = self.y; first = self.first; last = point.x } }
    {
        Run {
            last: point.x,
            ..self
        }
    }

    /// Whether the point comes right after the run's last one.
    pub fn ends_before(self, point: Point) -> bool
        ensures { IsTrue result ↔ ((point.y ≡ self.y) × (point.x ≡ (self.last +ℤ pos 1))) }
    {
        point.y == self.y && self.last < point.x && point.x - 1 == self.last
    }
}
