//! The eight directions, their codes and the steps from a point (O'Callaghan and Mark 1984).
ghost use Rattle.std.specs.Prelude.{◌≡◌, ◌+ℤ◌, IsTrue, SomeIff};

use crate::Point;
use arrayvec::ArrayVec;

/// Where a point drains: one of its eight neighbours.
#[derive(Clone, Copy, Debug, Default, PartialEq, Eq)]
pub enum Dir {
    #[default]
    East,
    SouthEast,
    South,
    SouthWest,
    West,
    NorthWest,
    North,
    NorthEast,
}

ghost use Rattle.lattice.specs.Steps.{code_of, directions, north_of, east_of};

/// The eight directions, in the order of their codes.
pub const DIRECTIONS: [Dir; 8] = [
    Dir::East,
    Dir::SouthEast,
    Dir::South,
    Dir::SouthWest,
    Dir::West,
    Dir::NorthWest,
    Dir::North,
    Dir::NorthEast,
];

impl Dir {
    /// The direction's code in replies: 1 for east, and twice as much for each next one clockwise.
    pub fn code(self) -> u8
        ensures { result ≡ code_of self }
    {
        match self {
            Dir::East => 1,
            Dir::SouthEast => 2,
            Dir::South => 4,
            Dir::SouthWest => 8,
            Dir::West => 16,
            Dir::NorthWest => 32,
            Dir::North => 64,
            Dir::NorthEast => 128,
        }
    }

    // Rows northwards and columns eastwards.
    fn offsets(self) -> (i32, i32)
        ensures north { result.0 ≡ north_of self }
        ensures east { result.1 ≡ east_of self }
    {
        match self {
            Dir::East => (0, 1),
            Dir::SouthEast => (-1, 1),
            Dir::South => (-1, 0),
            Dir::SouthWest => (-1, -1),
            Dir::West => (0, -1),
            Dir::NorthWest => (1, -1),
            Dir::North => (1, 0),
            Dir::NorthEast => (1, 1),
        }
    }
}

ghost use Rattle.lattice.specs.Stepping.{reach_of, fits_point, fits_number};
ghost use Rattle.lattice.specs.Steps.{step};

/// A step from a point to one of its neighbours.
#[derive(Clone, Copy, Debug, Default, PartialEq, Eq)]
pub struct Step {
    pub direction: Dir,
    pub to: Point,
}

/// The point one step away in this direction, if its coordinates fit 32 bits.
pub fn neighbour(point: Point, direction: Dir) -> Option<Point>
    ensures { SomeIff result (IsTrue (fits_point (step direction point))) (step direction point) }
{
    let (north, east) = direction.offsets();
    let y = shifted(point.y, north)?;
    let x = shifted(point.x, east)?;
    Some(Point { y, x })
}

fn shifted(value: i32, by: i32) -> Option<i32>
    ensures { SomeIff result (IsTrue (fits_number (value +ℤ by))) (value +ℤ by) }
{
    value.checked_add(by)
}

/// The steps from a point to its neighbours, in the order of their codes: eight, or fewer if 32-bit coordinates can't
/// name a neighbour.
pub fn steps(point: Point) -> ArrayVec<Step, 8>
    ensures { result.items ≡ reach_of point directions }
{
    let mut found = ArrayVec::new();
    for direction in DIRECTIONS {
        if let Some(to) = neighbour(point, direction) {
            found.push(Step { direction, to });
        }
    }
    found
}
