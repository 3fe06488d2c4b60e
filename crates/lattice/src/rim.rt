//! The rim of a tile: the samples of its first and last rows and columns.
ghost use Rattle.std.specs.Prelude.{◌≡◌, ◌*◌, ◌-◌, ◌<◌};
ghost use Rattle.lattice.specs.Block.{rim_number as number_of};
ghost use Rattle.lattice.specs.RimPoints.{IsRimPoint};

use crate::Side;

/// The number of the rim sample with this index: rim samples are numbered row by row from the north-west, from 0.
pub fn rim_number(side: Side, index: u32) -> u32
    requires { index < side * side }
    ensures { result ≡ number_of side index }
{
    let n = side.samples();
    let row = index / n;
    let column = index % n;
    if row == 0 {
        index
    } else if row + 1 == n {
        n + 2 * (n - 2) + column
    } else {
        n + 2 * (row - 1) + if column == 0 { 0 } else { 1 }
    }
}

/// The index of the rim sample with this number.
pub fn rim_index(side: Side, number: u32) -> u32
    requires { number < 4 * (side - 1) }
    ensures { IsRimPoint side number result }
{
    let n = side.samples();
    let between = 2 * (n - 2);
    if number < n {
        return number;
    }
    if number >= n + between {
        return (n - 1) * n + (number - n - between);
    }
    let row = 1 + (number - n) / 2;
    if (number - n) % 2 == 0 {
        row * n
    } else {
        row * n + n - 1
    }
}
