//! Tests of the plain programs' answers about heights, outlets and flats, worked by hand. `acceptance` asks them what
//! lines ask.
use crate::written::at;
use edits::{Bytes, Command};
use lattice::{Corner, Height, Refusal, Side};
use reference::{Plain, disagrees, effect, filled_levels, flat_distance, is_adjacent, is_outlet};
use std::alloc::{AllocError, Global};
use std::test::Fail;
use test_tiles::{A, B, C, D, F, G, H, O, W, check_found};

fn import(alloc: Global, lat: i16, lon: i16, bytes: &[u8]) -> Result<Command, Refusal> {
    let corner = Corner::new(lat, lon).ok_or(Refusal::BadName)?;
    let bytes = Bytes::new(Vec::from_slice(alloc, bytes)?);
    Ok(Command::Import { corner, bytes })
}

/// The latitude and longitude of a tile's corner, and its bytes.
type Tile<'a> = (i16, i16, &'a [u8]);

// A mosaic of these tiles.
fn mosaic(alloc: Global, side: u32, tiles: &[Tile]) -> Result<Plain, Refusal> {
    let mut mosaic = Plain::new(alloc, Side::new(side).ok_or(Refusal::BadSide)?);
    for (lat, lon, bytes) in tiles {
        let import = import(alloc, *lat, *lon, bytes)?;
        mosaic = effect(alloc, 4, &mosaic, &import)?;
    }
    Ok(mosaic)
}

// Two tiles that meet only in the point 2 2.
const MEETING: [Tile; 2] = [(0, 0, &F), (1, 1, &O)];

// Tiles of side 3, y and x of a point, and its height. First each tile that alone has the points 0 0, 1 2 and 1 1,
// without tiles around it; then a seam, a pole, and tiles that meet in one point.
const HEIGHTS: [(&[Tile], i32, i32, Height); 16] = [
    (&[(-1, -1, &A)], 0, 0, Height::At(9)),
    (&[(-1, 0, &A)], 0, 0, Height::At(9)),
    (&[(0, -1, &A)], 0, 0, Height::At(5)),
    (&[(0, 0, &A)], 0, 0, Height::At(9)),
    (&[(-1, -1, &A)], 1, 2, Height::Outside),
    (&[(-1, 0, &A)], 1, 2, Height::Outside),
    (&[(0, -1, &A)], 1, 2, Height::Outside),
    (&[(0, 0, &A)], 1, 2, Height::At(9)),
    (&[(-1, -1, &A)], 1, 1, Height::Outside),
    (&[(-1, 0, &A)], 1, 1, Height::Outside),
    (&[(0, -1, &A)], 1, 1, Height::Outside),
    (&[(0, 0, &A)], 1, 1, Height::At(1)),
    (&[(0, 1, &A), (89, -1, &A)], 1, 2, Height::At(9)),
    (&[(0, 1, &A), (89, -1, &A)], 180, 0, Height::At(9)),
    (&[(0, 0, &A), (-1, -1, &A)], 0, 0, Height::At(9)),
    (&MEETING, 2, 2, Height::At(5)),
];

#[test]
fn heights_of_points(rt: HostRuntime) -> Result<(), Fail> {
    for row in HEIGHTS.iter() {
        let (tiles, y, x, height) = row;
        let mosaic = mosaic(rt.alloc(), 3, tiles)?;
        let found = reference::height(&mosaic, at(*y, *x));
        check_found(row, &found, height)?;
    }
    Ok(())
}

// A side, tiles, y and x of a point, and whether it is an outlet. The neighbours of a void within a tile are outlets.
const OUTLETS: [(u32, &[Tile], i32, i32, bool); 5] = [
    (3, &MEETING, 2, 2, true),
    (3, &MEETING, 1, 1, false),
    (5, &[(0, 0, &W)], 3, 1, true),
    (5, &[(0, 0, &W)], 2, 3, true),
    (5, &[(0, 0, &W)], 1, 2, false),
];

#[test]
fn outlets_lie_on_rims_and_around_voids(rt: HostRuntime) -> Result<(), Fail> {
    for row in OUTLETS.iter() {
        let (side, tiles, y, x, leaves) = row;
        let mosaic = mosaic(rt.alloc(), *side, tiles)?;
        check_found(row, &is_outlet(&mosaic, at(*y, *x)), leaves)?;
    }
    Ok(())
}

#[test]
fn tiles_are_in_order(rt: HostRuntime) -> Result<(), Fail> {
    let two = mosaic(rt.alloc(), 3, &[(0, 0, &A), (-1, -1, &A)])?;
    let tiles = two.tiles();
    assert!(rt; tiles.len() == 2);
    assert!(rt; tiles[0].corner() == Corner { lat: -1, lon: -1 });
    Ok(())
}

#[test]
fn points_of_two_samples_disagree(rt: HostRuntime) -> Result<(), Fail> {
    let two = mosaic(rt.alloc(), 3, &[(0, 0, &G), (0, 1, &H)])?;
    assert!(rt; disagrees(&two, at(1, 2)));
    assert!(rt; !disagrees(&two, at(0, 2)));
    Ok(())
}

#[test]
fn adjacent_points_lie_in_one_tile(rt: HostRuntime) -> Result<(), Fail> {
    let apart = mosaic(rt.alloc(), 3, &MEETING)?;
    assert!(rt; !is_adjacent(&apart, at(2, 1), at(3, 2)));
    assert!(rt; is_adjacent(&apart, at(2, 1), at(2, 2)));
    Ok(())
}

// The distance of a point from an outlet of its flat; none off the ground.
fn distance(alloc: Global, mosaic: &Plain, y: i32, x: i32) -> Result<Option<usize>, AllocError> {
    let levels = filled_levels(alloc, mosaic)?;
    flat_distance(alloc, mosaic, &levels, at(y, x))
}

#[test]
fn a_flat_over_four_tiles(rt: HostRuntime) -> Result<(), Fail> {
    let tiles: [Tile; 4] = [(0, 0, &B), (0, 1, &D), (0, 2, &D), (0, 3, &C)];
    let row = mosaic(rt.alloc(), 3, &tiles)?;
    assert!(rt; distance(rt.alloc(), &row, 1, 1)? == Some(7));
    assert!(rt; distance(rt.alloc(), &row, 1, 8)? == Some(0));
    Ok(())
}
