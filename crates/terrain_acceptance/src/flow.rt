//! Tests of directions over filled levels, worked by hand: levels row by row from the north, tile after tile.
use crate::written::{are_points, at};
use flow_d8::{Directions, Filled};
use lattice::{Corner, Dir, Point, Refusal, Side, VOID};
use std::alloc::Global;
use std::test::Fail;
use test_tiles::{A_SAMPLES, check_found, check_row};

fn tiles(alloc: Global, corners: &[(i16, i16)]) -> Option<Vec<Corner>> {
    let mut tiles = Vec::new(alloc);
    for (lat, lon) in corners {
        tiles.push(Corner::new(*lat, *lon)?).ok()?;
    }
    Some(tiles)
}

fn filled(
    alloc: Global,
    side: u32,
    corners: &[(i16, i16)],
    levels: &[i16],
    sinks: &[Point],
) -> Option<Filled> {
    let side = Side::new(side)?;
    let tiles = tiles(alloc, corners)?;
    let levels = Vec::from_slice(alloc, levels).ok()?;
    let sinks = Vec::from_slice(alloc, sinks).ok()?;
    Filled::new(side, tiles, levels, sinks)
}

pub(crate) fn found(
    alloc: Global,
    side: u32,
    corners: &[(i16, i16)],
    levels: &[i16],
    sinks: &[Point],
) -> Result<Directions, Refusal> {
    let filled = filled(alloc, side, corners, levels, sinks).ok_or(Refusal::BadLength)?;
    filled.directions()
}

/// Levels of tiles, and how water flows over them. Points are written as y and x.
struct Row<'a> {
    shows: &'a str,
    side: u32,
    corners: &'a [(i16, i16)],
    levels: &'a [i16],
    sinks: &'a [Point],
    /// The directions in which water leaves these points.
    leads: &'a [(i32, i32, Option<Dir>)],
    /// The distances of these points from an outlet of their flat.
    lies: &'a [(i32, i32, Option<u32>)],
    /// The paths from these points.
    paths: &'a [(i32, i32, &'a [(i32, i32)])],
}

const STEEPEST: [Row; 5] = [
    Row {
        shows: "equal drops go to the first in code order",
        side: 3,
        corners: &[(0, 0)],
        levels: &[9, 9, 9, 9, 5, 9, 9, 9, 5],
        sinks: &[],
        leads: &[
            (1, 1, Some(Dir::SouthEast)),
            (0, 2, None),
            (0, 1, Some(Dir::East)),
        ],
        lies: &[(1, 1, Some(1)), (0, 2, Some(0))],
        paths: &[(0, 0, &[(0, 0), (1, 1), (0, 2)])],
    },
    Row {
        shows: "water crosses a seam",
        side: 3,
        corners: &[(0, 0), (0, 1)],
        levels: &[9, 9, 9, 9, 3, 3, 9, 9, 9, 9, 9, 9, 3, 3, 3, 9, 9, 9],
        sinks: &[],
        leads: &[(1, 1, Some(Dir::East))],
        lies: &[],
        paths: &[],
    },
    Row {
        shows: "no step leads across a corner that no tile holds whole",
        side: 3,
        corners: &[(0, 0), (1, 1)],
        levels: &[5, 5, 5, 5, 5, 5, 5, 5, 5, 1, 1, 1, 1, 1, 1, 5, 1, 1],
        sinks: &[],
        leads: &[(2, 1, None), (2, 2, Some(Dir::East))],
        lies: &[],
        paths: &[],
    },
    Row {
        shows: "a drop of 10 along a diagonal is less steep than one of 8 to the east",
        side: 3,
        corners: &[(0, 0)],
        levels: &[20, 20, 20, 20, 10, 2, 20, 20, 0],
        sinks: &[],
        leads: &[(1, 1, Some(Dir::East))],
        lies: &[],
        paths: &[],
    },
    Row {
        shows: "a drop of 10 along a diagonal is steeper than one of 7 to the east",
        side: 3,
        corners: &[(0, 0)],
        levels: &[20, 20, 20, 20, 10, 3, 20, 20, 0],
        sinks: &[],
        leads: &[(1, 1, Some(Dir::SouthEast))],
        lies: &[],
        paths: &[],
    },
];

const WAYS_OUT: [Row; 3] = [
    Row {
        shows: "water leaves at a sink with no lower neighbour",
        side: 3,
        corners: &[(0, 0)],
        levels: &A_SAMPLES,
        sinks: &[Point { y: 1, x: 1 }],
        leads: &[
            (1, 1, None),
            (0, 2, Some(Dir::NorthWest)),
            (0, 1, Some(Dir::North)),
        ],
        lies: &[(1, 1, Some(0))],
        paths: &[],
    },
    Row {
        shows: "points elsewhere have no direction",
        side: 3,
        corners: &[(0, 0)],
        levels: &[9, 9, 9, 9, VOID, 9, 9, 9, 5],
        sinks: &[],
        leads: &[(1, 1, None)],
        lies: &[(1, 1, None), (3, 3, None)],
        paths: &[(1, 1, &[])],
    },
    Row {
        shows: "water leaves beside a void",
        side: 5,
        corners: &[(0, 0)],
        levels: &[
            9, 9, 9, 9, 9, 9, 5, VOID, 9, 9, 9, 9, 9, 3, 9, 9, 9, 3, 9, 9, 9, 9, 9, 9, 9,
        ],
        sinks: &[],
        leads: &[(1, 2, Some(Dir::NorthEast)), (2, 3, None), (3, 1, None)],
        lies: &[],
        paths: &[],
    },
];

const FLATS: [Row; 2] = [
    Row {
        shows: "a flat drains to its nearest way out",
        side: 3,
        corners: &[(0, 0)],
        levels: &[5; 9],
        sinks: &[],
        leads: &[(1, 1, Some(Dir::East))],
        lies: &[],
        paths: &[],
    },
    Row {
        shows: "a flat is crossed over four tiles",
        side: 3,
        corners: &[(0, 0), (0, 1), (0, 2), (0, 3)],
        levels: &[
            9, 9, 9, 9, 3, 3, 9, 9, 9, 9, 9, 9, 3, 3, 3, 9, 9, 9, 9, 9, 9, 3, 3, 3, 9, 9, 9, 9, 9,
            9, 3, 3, 3, 9, 9, 9,
        ],
        sinks: &[],
        leads: &[(1, 1, Some(Dir::East))],
        lies: &[(1, 1, Some(7)), (1, 8, Some(0))],
        paths: &[(
            1,
            1,
            &[
                (1, 1),
                (1, 2),
                (1, 3),
                (1, 4),
                (1, 5),
                (1, 6),
                (1, 7),
                (1, 8),
            ],
        )],
    },
];

fn check_directions(directions: &Directions, row: &Row) -> Result<(), Fail> {
    for (y, x, direction) in row.leads {
        let found = directions.direction(at(*y, *x));
        check_found(&(row.shows, *y, *x), &found, direction)?;
    }
    Ok(())
}

fn check_distances(directions: &Directions, row: &Row) -> Result<(), Fail> {
    for (y, x, distance) in row.lies {
        let found = directions.flat_distance(at(*y, *x));
        check_found(&(row.shows, *y, *x), &found, distance)?;
    }
    Ok(())
}

fn check_paths(directions: &Directions, row: &Row) -> Result<(), Fail> {
    for (y, x, path) in row.paths {
        let found = directions.trace(at(*y, *x))?;
        check_row(&(row.shows, found.as_slice()), are_points(&found, path))?;
    }
    Ok(())
}

fn check(alloc: Global, rows: &[Row]) -> Result<(), Fail> {
    for row in rows {
        let directions = found(alloc, row.side, row.corners, row.levels, row.sinks)?;
        check_directions(&directions, row)?;
        check_distances(&directions, row)?;
        check_paths(&directions, row)?;
    }
    Ok(())
}

#[test]
fn water_goes_to_the_steepest_neighbour(rt: HostRuntime) -> Result<(), Fail> {
    check(rt.alloc(), &STEEPEST)
}

#[test]
fn water_leaves_at_sinks_and_beside_voids(rt: HostRuntime) -> Result<(), Fail> {
    check(rt.alloc(), &WAYS_OUT)
}

#[test]
fn flats_drain_to_their_nearest_way_out(rt: HostRuntime) -> Result<(), Fail> {
    check(rt.alloc(), &FLATS)
}

#[test]
fn levels_that_lead_nowhere_are_damaged(rt: HostRuntime) {
    let found = found(rt.alloc(), 3, &[(0, 0)], &A_SAMPLES, &[]);
    assert!(rt; found.err() == Some(Refusal::Damaged));
}

#[test]
fn levels_belong_to_tiles_in_order(rt: HostRuntime) {
    assert!(rt; filled(rt.alloc(), 3, &[(0, 1), (0, 0)], &[1; 18], &[]).is_none());
    assert!(rt; filled(rt.alloc(), 3, &[(0, 0)], &[1; 8], &[]).is_none());
}
