//! Tests of heights, adjacent points and seams, worked by hand.
use crate::written::at;
use catalogue::{Samples, Table, adjacent, degree, outlet, seams, tiles};
use hgt::samples;
use lattice::{Corner, Refusal, Side};
use std::alloc::Global;
use std::test::Fail;
use test_tiles::{A, A_SAMPLES, F, G, H, K, O, V, check_found};

const N00E000: Corner = Corner { lat: 0, lon: 0 };

const N00E001: Corner = Corner { lat: 0, lon: 1 };

const N01E001: Corner = Corner { lat: 1, lon: 1 };

const S01W001: Corner = Corner { lat: -1, lon: -1 };

// A table with the tiles of side 3 at these corners.
fn table(alloc: Global, tiles: &[(Corner, [u8; 18])]) -> Result<Table, Refusal> {
    let side = Side::new(3).ok_or(Refusal::BadSide)?;
    let mut table = Table::new(alloc, side);
    for (corner, bytes) in tiles {
        add(alloc, &mut table, *corner, bytes)?;
    }
    Ok(table)
}

fn add(alloc: Global, table: &mut Table, corner: Corner, bytes: &[u8]) -> Result<(), Refusal> {
    let samples = samples(alloc, bytes, table.side())?;
    if table.present(corner) || samples.len() != table.side().area() as usize {
        return Err(Refusal::TileThere);
    }
    table.add(corner, samples)
}

fn has_tile(table: &Table, corner: Corner, samples: &[i16; 9]) -> bool {
    match table.samples(corner) {
        Some(found) => found == samples.as_slice(),
        None => false,
    }
}

// Points, the number of points adjacent to each, and whether water can leave there.
fn check_points(table: &mut Table, rows: &[(i32, i32, u32, bool)]) -> Result<(), Fail> {
    for row in rows {
        let (y, x, count, leaves) = row;
        let point = at(*y, *x);
        check_found(row, &degree(table, point), &Ok(*count))?;
        check_found(row, &outlet(table, point), &Ok(*leaves))?;
    }
    Ok(())
}

// What the row shows, two tiles, and the number of points at which they disagree.
const SEAMS: [(&str, [(Corner, [u8; 18]); 2], u64); 3] = [
    (
        "a point of two samples counts once",
        [(N00E000, G), (N00E001, H)],
        1,
    ),
    (
        "a void disagrees with a height",
        [(N00E000, K), (N00E001, H)],
        1,
    ),
    (
        "tiles apart share no point",
        [(S01W001, G), (N00E001, H)],
        0,
    ),
];

#[test]
fn seams_between_tiles(rt: HostRuntime) -> Result<(), Fail> {
    for (shows, tiles, count) in SEAMS.iter() {
        let mut table = table(rt.alloc(), tiles)?;
        check_found(shows, &seams(&mut table), &Ok(*count))?;
    }
    Ok(())
}

// Two tiles that meet only in the point 2 2.
const MEETING: [(Corner, [u8; 18]); 2] = [(N00E000, F), (N01E001, O)];

const MEETING_POINTS: [(i32, i32, u32, bool); 5] = [
    (2, 2, 6, true),
    (1, 1, 8, false),
    (0, 0, 3, true),
    (0, 1, 5, true),
    (0, 3, 0, false),
];

#[test]
fn tiles_that_meet_in_one_point(rt: HostRuntime) -> Result<(), Fail> {
    let mut table = table(rt.alloc(), &MEETING)?;
    check_points(&mut table, &MEETING_POINTS)?;
    assert!(rt; seams(&mut table) == Ok(1));
    Ok(())
}

// y and x of two points, and whether they are adjacent.
const PAIRS: [(i32, i32, i32, i32, bool); 4] = [
    (2, 1, 3, 2, false),
    (2, 2, 3, 2, true),
    (2, 2, 2, 1, true),
    (2, 2, 2, 2, false),
];

#[test]
fn adjacent_points_lie_in_one_tile(rt: HostRuntime) -> Result<(), Fail> {
    let mut table = table(rt.alloc(), &MEETING)?;
    for row in PAIRS.iter() {
        let (y, x, other_y, other_x, answer) = row;
        let found = adjacent(&mut table, at(*y, *x), at(*other_y, *other_x));
        check_found(row, &found, &Ok(*answer))?;
    }
    Ok(())
}

#[test]
fn points_beside_a_void(rt: HostRuntime) -> Result<(), Fail> {
    let mut table = table(rt.alloc(), &[(N00E000, V)])?;
    check_points(&mut table, &[(1, 1, 0, false), (0, 1, 4, true)])?;
    Ok(())
}

#[test]
fn a_table_keeps_its_tiles_in_order(rt: HostRuntime) -> Result<(), Fail> {
    let alloc = rt.alloc();
    let table = table(alloc, &[(N00E001, H), (S01W001, A), (N00E000, G)])?;
    let order = [S01W001, N00E000, N00E001];
    assert!(rt; table.corners()?.as_slice() == order.as_slice());
    assert!(rt; tiles(&table)?.as_slice() == order.as_slice());
    assert!(rt; has_tile(&table, N00E000, &[9, 9, 9, 9, 9, 7, 9, 9, 9]));
    assert!(rt; table.samples(N01E001).is_none());
    Ok(())
}

fn put(table: &mut Table, corner: Corner, index: u32, sample: i16) {
    if table.present(corner) && index < table.side().area() {
        table.set(corner, index, sample);
    }
}

fn removes(table: &mut Table, corner: Corner, samples: &[i16; 9]) -> bool {
    match table.remove(corner) {
        Some(removed) => removed.as_slice() == samples.as_slice(),
        None => false,
    }
}

#[test]
fn a_table_takes_samples_and_lets_tiles_go(rt: HostRuntime) -> Result<(), Fail> {
    let mut table = table(rt.alloc(), &[(N00E001, H), (S01W001, A), (N00E000, G)])?;
    put(&mut table, N00E000, 4, -3);
    assert!(rt; has_tile(&table, N00E000, &[9, 9, 9, 9, -3, 7, 9, 9, 9]));
    assert!(rt; removes(&mut table, S01W001, &A_SAMPLES));
    assert!(rt; table.remove(S01W001).is_none());
    assert!(rt; !table.present(S01W001));
    Ok(())
}

#[test]
fn samples_are_read_from_an_index_on(rt: HostRuntime) -> Result<(), Fail> {
    let mut table = table(rt.alloc(), &[(N00E000, A)])?;
    let mut some = [0; 3];
    if table.present(N00E000) && 7 <= table.side().area() {
        assert!(rt; table.read_samples(N00E000, 4, &mut some) == Ok(()));
    }
    assert!(rt; some == [1, 9, 9]);
    Ok(())
}
