//! Windows and tiles of tables with one tile, whose answers are worked by hand.
use crate::{
    Counts, Course, Direction, Each, Elevation, Fill, Level, Question, Tile, Upstream, Watershed,
    Window, ask,
};
use edits::{Bytes, Command};
use engine::Engine;
use lattice::{Corner, Point, Refusal, Side, VOID};
use std::alloc::Global;
use std::process::Abort;
use std::test::Fail;
use table_engine::TableEngine;

/// A table of tiles of side 3 with these samples at N00E000.
fn table(rt: &impl Abort, alloc: Global, tile: &[u8]) -> Result<TableEngine, Fail> {
    let side = Side::new(3).expect(rt, "a side");
    let mut engine = TableEngine::new(alloc, side, 4);
    let command = Command::Import {
        corner: Corner::new(0, 0).expect(rt, "a corner"),
        bytes: Bytes::new(Vec::from_slice(alloc, tile)?),
    };
    assert!(rt; engine.apply(&command) == Ok(1));
    Ok(engine)
}

/// The tile with one more point on each side.
const AROUND: Window = Window {
    north: 3,
    west: -1,
    rows: 5,
    columns: 5,
};

/// The tile alone.
const TILE: Window = Window {
    north: 2,
    west: 0,
    rows: 3,
    columns: 3,
};

// 9 9 9 / 9 1 9 / 9 9 5: the middle is filled to 5.
#[test]
fn levels_of_a_window(rt: HostRuntime) -> Result<(), Fail> {
    let mut engine = table(&rt, rt.alloc(), &test_tiles::A)?;
    let mut into = [7; 25];
    assert!(rt; Each(Level, AROUND).ask(&mut engine, &mut into) == Ok(()));
    let v = VOID;
    let wanted = [
        v, v, v, v, v, v, 9, 9, 9, v, v, 9, 5, 9, v, v, 9, 9, 5, v, v, v, v, v, v,
    ];
    assert!(rt; into == wanted);
    let mut tile = [7; 9];
    assert!(rt; Tile(Level, 0, 0).ask(&mut engine, &mut tile) == Ok(()));
    assert!(rt; tile == [9, 9, 9, 9, 5, 9, 9, 9, 5]);
    let middle = Point { y: 1, x: 1 };
    assert!(rt; Fill(middle).ask(&mut engine, &mut []) == Ok(5));
    assert!(rt; Direction(middle).ask(&mut engine, &mut []) == Ok(2));
    Ok(())
}

// 9 9 9 / 8 9 9 / 9 9 9: the points next to the notch drain to it, and the others are outlets.
#[test]
fn directions_of_a_window(rt: HostRuntime) -> Result<(), Fail> {
    let mut engine = table(&rt, rt.alloc(), &test_tiles::H)?;
    let mut into = [7; 9];
    let wanted = [4, 8, 0, 0, 16, 0, 64, 32, 0];
    assert!(rt; Each(Course, TILE).ask(&mut engine, &mut into) == Ok(()));
    assert!(rt; into == wanted);
    into = [7; 9];
    assert!(rt; Tile(Course, 0, 0).ask(&mut engine, &mut into) == Ok(()));
    assert!(rt; into == wanted);
    let east = Window { west: 2, ..TILE };
    assert!(rt; Each(Course, east).ask(&mut engine, &mut into) == Ok(()));
    assert!(rt; into == [0, 255, 255, 0, 255, 255, 0, 255, 255]);
    Ok(())
}

// The same tile: six points drain through the notch, itself included. Only their own water leaves the other outlets.
#[test]
fn upstream_counts_of_a_tile(rt: HostRuntime) -> Result<(), Fail> {
    let mut engine = table(&rt, rt.alloc(), &test_tiles::H)?;
    let mut into = [7; 9];
    assert!(rt; Tile(Upstream, 0, 0).ask(&mut engine, &mut into) == Ok(()));
    assert!(rt; into == [1, 1, 1, 6, 1, 1, 1, 1, 1]);
    Ok(())
}

#[test]
fn watershed_in_a_window(rt: HostRuntime) -> Result<(), Fail> {
    let mut engine = table(&rt, rt.alloc(), &test_tiles::H)?;
    let notch = Point { y: 1, x: 0 };
    let mut into = [7; 9];
    assert!(rt; Watershed(notch, TILE).ask(&mut engine, &mut into) == Ok(6));
    assert!(rt; into == [1, 1, 0, 1, 1, 0, 1, 1, 0]);
    let east = Window { west: 1, ..TILE };
    assert!(rt; Watershed(notch, east).ask(&mut engine, &mut into) == Ok(6));
    assert!(rt; into == [1, 0, 0, 1, 0, 0, 1, 0, 0]);
    let north = Window { north: 5, ..TILE };
    assert!(rt; Watershed(notch, north).ask(&mut engine, &mut into) == Ok(6));
    assert!(rt; into == [0; 9]);
    let off = Point { y: 9, x: 9 };
    assert!(rt; Watershed(off, TILE).ask(&mut engine, &mut into) == Err(Refusal::Outside));
    assert!(rt; Watershed(notch, TILE).ask(&mut engine, &mut into[..8]) == Err(Refusal::BadLength));
    Ok(())
}

// 9 9 9 / 9 void 9 / 9 9 9.
#[test]
fn heights_of_a_window(rt: HostRuntime) -> Result<(), Fail> {
    let mut engine = table(&rt, rt.alloc(), &test_tiles::V)?;
    let mut into = [7; 9];
    assert!(rt; Each(Elevation, TILE).ask(&mut engine, &mut into) == Ok(()));
    assert!(rt; into == [9, 9, 9, 9, VOID, 9, 9, 9, 9]);
    let middle = Point { y: 1, x: 1 };
    assert!(rt; Fill(middle).ask(&mut engine, &mut []) == Err(Refusal::Void));
    assert!(rt; Watershed(middle, TILE).ask(&mut engine, &mut [0; 9]) == Err(Refusal::Void));
    Ok(())
}

#[test]
fn questions_by_lines(rt: HostRuntime) -> Result<(), Fail> {
    let alloc = rt.alloc();
    let mut engine = table(&rt, alloc, &test_tiles::A)?;
    let mut into = [7; 9];
    assert!(rt; ask(alloc, &mut engine, b"fill 1 1", &mut into) == Ok(5));
    assert!(rt; into == *b"OK 5\n\x07\x07\x07\x07");
    let mut short = [7; 4];
    assert!(rt; ask(alloc, &mut engine, b"fill 1 1", &mut short) == Ok(5));
    assert!(rt; ask(alloc, &mut engine, b"trace 1 1", &mut into) == Ok(13));
    assert!(rt; ask(alloc, &mut engine, b"fill 9 9", &mut [0; 14]) == Ok(14));
    for line in [
        b"step" as &[u8],
        b"burn 1 1 1",
        b"quit",
        b"import N01E000 18",
        b"fill 1",
    ] {
        assert!(rt; ask(alloc, &mut engine, line, &mut into) == Err(Refusal::BadLine));
    }
    assert!(rt; ask(alloc, &mut engine, b"levels N0", &mut into) == Err(Refusal::BadName));
    assert!(rt; engine.count() == 1);
    Ok(())
}

#[test]
fn refusals(rt: HostRuntime) -> Result<(), Fail> {
    let mut engine = table(&rt, rt.alloc(), &test_tiles::A)?;
    let mut into = [7; 9];
    let more = Window { rows: 4, ..TILE };
    let none = Window {
        rows: u32::MAX,
        columns: 0,
        ..TILE
    };
    assert!(rt; Each(Level, more).ask(&mut engine, &mut into) == Err(Refusal::BadLength));
    assert!(rt; Each(Level, none).ask(&mut engine, &mut into) == Err(Refusal::BadLength));
    assert!(rt; Each(Level, none).ask(&mut engine, &mut []) == Ok(()));
    for north in [i32::MIN, i32::MIN + 1] {
        let beyond = Window { north, ..TILE };
        assert!(rt; Each(Level, beyond).ask(&mut engine, &mut into) == Err(Refusal::BadBox));
    }
    let last = Window {
        north: i32::MIN + 2,
        west: i32::MAX - 2,
        ..TILE
    };
    assert!(rt; Each(Level, last).ask(&mut engine, &mut into) == Ok(()));
    let wide = Window {
        west: i32::MAX - 1,
        ..TILE
    };
    assert!(rt; Each(Level, wide).ask(&mut engine, &mut into) == Err(Refusal::BadBox));
    assert!(rt; Tile(Level, 0, 1).ask(&mut engine, &mut into) == Err(Refusal::NoTile));
    assert!(rt; Tile(Level, 95, 1).ask(&mut engine, &mut into) == Err(Refusal::BadName));
    assert!(rt; Tile(Level, 0, 0).ask(&mut engine, &mut into[..8]) == Err(Refusal::BadLength));
    Ok(())
}

// The tile with the notch again: its six points are counted in a window that extends beyond the tile.
#[test]
fn upstream_counts_of_a_window(rt: HostRuntime) -> Result<(), Fail> {
    let mut engine = table(&rt, rt.alloc(), &test_tiles::H)?;
    let mut into = [7; 25];
    assert!(rt; Counts(AROUND).ask(&mut engine, &mut into) == Ok(()));
    let wanted = [
        0, 0, 0, 0, 0, 0, 1, 1, 1, 0, 0, 6, 1, 1, 0, 0, 1, 1, 1, 0, 0, 0, 0, 0, 0,
    ];
    assert!(rt; into == wanted);
    let east = Window { west: 2, ..TILE };
    let mut part = [7; 9];
    assert!(rt; Counts(east).ask(&mut engine, &mut part) == Ok(()));
    assert!(rt; part == [1, 0, 0, 1, 0, 0, 1, 0, 0]);
    assert!(rt; Counts(AROUND).ask(&mut engine, &mut part) == Err(Refusal::BadLength));
    Ok(())
}
