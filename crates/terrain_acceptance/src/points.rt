//! Tests of corners, sides, points, steps and refusals, worked by hand.
use lattice::{
    Corner, DIRECTIONS, Dir, Point, Refusal, Side, Step, holders, index_in, point_at, sinks_in,
    steps,
};
use std::test::Fail;
use test_tiles::{check_found, check_row};

const ORIGIN: Corner = Corner { lat: 0, lon: 0 };

// Latitude, longitude, and whether a corner is there.
const CORNERS: [(i16, i16, bool); 6] = [
    (-90, -180, true),
    (89, 179, true),
    (90, 0, false),
    (-91, 0, false),
    (0, 180, false),
    (0, -181, false),
];

#[test]
fn corners_lie_on_the_globe(rt: HostRuntime) -> Result<(), Fail> {
    for row in CORNERS.iter() {
        let (lat, lon, lies) = row;
        check_found(row, &Corner::new(*lat, *lon).is_some(), lies)?;
    }
    Ok(())
}

// The sizes of SRTM3 and SRTM1 files: samples along an edge, and bytes.
const SIZES: [(u32, u32); 2] = [(1201, 2_884_802), (3601, 25_934_402)];

#[test]
fn sides_measure_tiles(rt: HostRuntime) -> Result<(), Fail> {
    assert!(rt; Side::new(2).is_none());
    assert!(rt; Side::new(3602).is_none());
    for row in SIZES.iter() {
        let (samples, bytes) = row;
        let side = Side::new(*samples).expect(&rt, "a side");
        let is_right = side.samples() == *samples
            && side.edge() + 1 == *samples
            && side.area() * 2 == *bytes
            && side.file_bytes() == *bytes;
        check_row(row, is_right)?;
    }
    Ok(())
}

// y and x of a point, an index among the corners of the tiles of side 3 with the point, and the corner there. No corner
// has latitude 90.
const HELD: [(i32, i32, usize, Option<Corner>); 14] = [
    (0, 0, 0, Some(Corner { lat: -1, lon: -1 })),
    (0, 0, 1, Some(Corner { lat: -1, lon: 0 })),
    (0, 0, 2, Some(Corner { lat: 0, lon: -1 })),
    (0, 0, 3, Some(ORIGIN)),
    (0, 0, 4, None),
    (1, 2, 0, Some(ORIGIN)),
    (1, 2, 1, Some(Corner { lat: 0, lon: 1 })),
    (1, 2, 2, None),
    (1, 1, 0, Some(ORIGIN)),
    (1, 1, 1, None),
    (180, 0, 0, Some(Corner { lat: 89, lon: -1 })),
    (180, 0, 1, Some(Corner { lat: 89, lon: 0 })),
    (180, 0, 2, None),
    (181, 0, 0, None),
];

#[test]
fn points_are_held_by_these_corners(rt: HostRuntime) -> Result<(), Fail> {
    let side = Side::new(3).expect(&rt, "a side");
    for row in HELD.iter() {
        let (y, x, place, corner) = row;
        let held = holders(side, Point { y: *y, x: *x });
        check_found(row, &held.get(*place).copied(), corner)?;
    }
    Ok(())
}

// y and x of a point, and its index in the tile of side 3 at the origin.
const INDICES: [(i32, i32, Option<u32>); 7] = [
    (2, 0, Some(0)),
    (2, 2, Some(2)),
    (1, 1, Some(4)),
    (0, 0, Some(6)),
    (0, 2, Some(8)),
    (0, 3, None),
    (-1, 0, None),
];

#[test]
fn rows_run_from_the_north(rt: HostRuntime) -> Result<(), Fail> {
    let side = Side::new(3).expect(&rt, "a side");
    for row in INDICES.iter() {
        let (y, x, index) = row;
        let found = index_in(side, ORIGIN, Point { y: *y, x: *x });
        check_found(row, &found, index)?;
    }
    assert!(rt; point_at(side, ORIGIN, 2) == Point { y: 2, x: 2 });
    Ok(())
}

#[test]
fn a_tile_has_the_sinks_that_it_holds(rt: HostRuntime) {
    let side = Side::new(3).expect(&rt, "a side");
    let sinks = [
        Point { y: 0, x: 0 },
        Point { y: 1, x: 1 },
        Point { y: 3, x: 1 },
    ];
    assert!(rt; sinks_in(side, ORIGIN, &sinks).as_slice() == [6, 4].as_slice());
}

// How y and x change by each step, and the code of its direction.
const STEPS: [(i32, i32, u8); 8] = [
    (0, 1, 1),
    (-1, 1, 2),
    (-1, 0, 4),
    (-1, -1, 8),
    (0, -1, 16),
    (1, -1, 32),
    (1, 0, 64),
    (1, 1, 128),
];

fn leads(step: Option<&Step>, y: i32, x: i32, code: u8) -> bool {
    match step {
        Some(step) => step.to.y == y && step.to.x == x && step.direction.code() == code,
        None => false,
    }
}

#[test]
fn steps_go_clockwise_from_east(rt: HostRuntime) -> Result<(), Fail> {
    let around = steps(Point { y: 0, x: 0 });
    assert!(rt; around.len() == 8);
    for (place, (y, x, code)) in STEPS.iter().enumerate() {
        let is_right = leads(around.get(place), *y, *x, *code);
        check_row(&(y, x, code), is_right)?;
    }
    Ok(())
}

fn has_code(direction: Option<&Dir>, code: u8) -> bool {
    match direction {
        Some(direction) => direction.code() == code,
        None => false,
    }
}

#[test]
fn directions_are_in_the_order_of_their_steps(rt: HostRuntime) -> Result<(), Fail> {
    for (place, (_, _, code)) in STEPS.iter().enumerate() {
        let is_right = has_code(DIRECTIONS.get(place), *code);
        check_row(code, is_right)?;
    }
    Ok(())
}

// No point is south or west of the least coordinates.
#[test]
fn no_step_leads_off_the_lattice(rt: HostRuntime) {
    let least = Point {
        y: i32::MIN,
        x: i32::MIN,
    };
    assert!(rt; steps(least).len() == 3);
}

const REFUSALS: [(Refusal, u8, &str); 28] = [
    (Refusal::BadLine, 1, "BadLine"),
    (Refusal::BadName, 2, "BadName"),
    (Refusal::BadLength, 3, "BadLength"),
    (Refusal::TileThere, 4, "TileThere"),
    (Refusal::NoTile, 5, "NoTile"),
    (Refusal::Full, 6, "Full"),
    (Refusal::Outside, 7, "Outside"),
    (Refusal::Void, 8, "Void"),
    (Refusal::NothingVoid, 9, "NothingVoid"),
    (Refusal::BadHeight, 10, "BadHeight"),
    (Refusal::BadDepth, 11, "BadDepth"),
    (Refusal::BadBox, 12, "BadBox"),
    (Refusal::Repeated, 13, "Repeated"),
    (Refusal::TooDeep, 14, "TooDeep"),
    (Refusal::SinkThere, 15, "SinkThere"),
    (Refusal::SinksFull, 16, "SinksFull"),
    (Refusal::NoSink, 17, "NoSink"),
    (Refusal::Device, 20, "Device"),
    (Refusal::NoMemory, 21, "NoMemory"),
    (Refusal::Failed, 22, "Failed"),
    (Refusal::Damaged, 23, "Damaged"),
    (Refusal::Worn, 24, "Worn"),
    (Refusal::NotAStore, 30, "NotAStore"),
    (Refusal::Version, 31, "Version"),
    (Refusal::BadSide, 32, "BadSide"),
    (Refusal::BadCapacity, 33, "BadCapacity"),
    (Refusal::TooSmall, 34, "TooSmall"),
    (Refusal::NotOld, 35, "NotOld"),
];

// The number and the word of each refusal in replies.
#[test]
fn refusals_have_these_numbers_and_words(rt: HostRuntime) -> Result<(), Fail> {
    for row in REFUSALS.iter() {
        let (refusal, number, word) = row;
        check_found(row, &refusal.number(), number)?;
        check_found(row, &refusal.word(), word)?;
    }
    Ok(())
}
