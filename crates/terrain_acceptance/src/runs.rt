//! Tests of watersheds over filled levels, worked by hand.
use crate::flow::found;
use crate::written::{are_runs, at};
use flow_d8::{DirectionGrid, Directions};
use lattice::VOID;
use std::alloc::Global;
use std::test::Fail;
use test_tiles::check_row;
use watershed::watershed_over;

/// A point, and the runs of its watershed: y, the first x and the last.
type Shed<'a> = (i32, i32, &'a [(i32, i32, i32)]);

/// What the row shows, tiles of side 3 by their corners and filled levels, and watersheds.
struct Row<'a> {
    shows: &'a str,
    corners: &'a [(i16, i16)],
    levels: &'a [i16],
    sheds: &'a [Shed<'a>],
}

const ROWS: [Row; 4] = [
    Row {
        shows: "an outlet drains the whole tile",
        corners: &[(0, 0)],
        levels: &[9, 9, 9, 9, 5, 9, 9, 9, 5],
        sheds: &[
            (0, 2, &[(2, 0, 2), (1, 0, 2), (0, 0, 2)]),
            (1, 1, &[(2, 0, 2), (1, 0, 1), (0, 0, 0)]),
            (0, 1, &[(0, 1, 1)]),
        ],
    },
    Row {
        shows: "water comes from beyond a seam",
        corners: &[(0, 0), (0, 1)],
        levels: &[9, 9, 9, 9, 3, 3, 9, 9, 9, 9, 9, 9, 3, 3, 3, 9, 9, 9],
        sheds: &[(1, 4, &[(2, 0, 4), (1, 0, 4), (0, 0, 4)])],
    },
    Row {
        shows: "a flat drains to the first way out",
        corners: &[(0, 0)],
        levels: &[5; 9],
        sheds: &[(1, 2, &[(1, 1, 2)])],
    },
    Row {
        shows: "nothing drains through a void",
        corners: &[(0, 0)],
        levels: &[9, 9, 9, 9, VOID, 9, 9, 9, 5],
        sheds: &[(1, 1, &[]), (3, 3, &[])],
    },
];

fn check_sheds(alloc: Global, directions: &Directions, row: &Row) -> Result<(), Fail> {
    for (y, x, runs) in row.sheds {
        let found = watershed_over(alloc, &mut DirectionGrid { directions }, at(*y, *x))?;
        check_row(&(row.shows, found.as_slice()), are_runs(&found, runs))?;
    }
    Ok(())
}

#[test]
fn watersheds_have_these_runs(rt: HostRuntime) -> Result<(), Fail> {
    let alloc = rt.alloc();
    for row in ROWS.iter() {
        let directions = found(alloc, 3, row.corners, row.levels, &[])?;
        check_sheds(alloc, &directions, row)?;
    }
    Ok(())
}
