//! The levels that a tile is prepared from: its own, and those of two rows and columns around it.
ghost use Rattle.std.specs.Prelude.{◌≡◌, ℤ, ◌+◌, ◌*◌, ◌<◌, [], IsTrue, IfOk, List, length, slice_index_or};
ghost use Rattle.lattice.specs.Corners.{Corner};
ghost use Rattle.lattice.specs.Mosaic.{Mosaic, IsMosaic, is_present, void};
ghost use Rattle.lattice.specs.declared.point.Point.{Point};
ghost use Rattle.flow_d8.specs.Filled.{AreLevels, IsFilledOf};
ghost use Rattle.flow_d8.specs.Levels.{filled_of, IsLevelIn, ArePaddedTo};
ghost use Rattle.flow_d8.specs.Padded.{ArePadded, AreSides, padded_point as point_in};
ghost use Rattle.flow_d8.specs.Tiles.{no_corner};

use crate::preparing::{Sides, padded_point};
use crate::tiles::Tiles;
use lattice::{Corner, Point, VOID};
use std::alloc::{AllocError, Global};

/// The levels of this slot's tile and of two rows and columns around it, from the levels of all tiles; void where a point
/// isn't ground.
pub(crate) fn padded_levels(
    alloc: Global,
    tiles: &Tiles,
    levels: &[i16],
    tile: usize,
) -> Result<Vec<i16>, AllocError>
    requires levels { AreLevels (filled_of tiles.now levels.now []) }
    requires tile { tile < length tiles.now.corners }
    ensures whole { IfOk result (λ padded. length padded.items ≡ (tiles.now.side + 4) * (tiles.now.side + 4)) }
    ensures padded { IfOk result (λ padded. (sinks : List Point)
        → ArePaddedTo (filled_of tiles.now levels.now sinks) (slice_index_or tiles.now.corners tile no_corner) (length padded.items) padded.items) }
{
    let width = tiles.side().samples() as usize + 4;
    let mut padded = Vec::with_capacity(alloc, width * width)?;
    for place in 0..width * width {
        padded.push(level_in(tiles, levels, tile, place / width, place % width))?;
    }
    Ok(padded)
}

// The level of this row and column of the square around the tile.
fn level_in(tiles: &Tiles, levels: &[i16], tile: usize, row: usize, column: usize) -> i16
    requires levels { AreLevels (filled_of tiles.now levels.now []) }
    requires tile { tile < length tiles.now.corners }
    requires row { row < tiles.now.side + 4 }
    requires column { column < tiles.now.side + 4 }
    ensures { (sinks : List Point)
        → IsLevelIn (filled_of tiles.now levels.now sinks) (point_in tiles.now.side (slice_index_or tiles.now.corners tile no_corner) row column) result }
{
    let point = padded_point(tiles.side(), tiles.corner(tile), row, column);
    level_at(tiles, levels, point)
}

// The point's level, from the first tile that has it.
fn level_at(tiles: &Tiles, levels: &[i16], point: Point) -> i16
    requires { AreLevels (filled_of tiles.now levels.now []) }
    ensures { (sinks : List Point) → IsLevelIn (filled_of tiles.now levels.now sinks) point result }
{
    // This call shows the prover that these are valid tiles (`AreTiles`).
    let _valid = tiles.tiles();
    let number = tiles.number(point);
    if number < levels.len() {
        level(levels, number)
    } else {
        VOID
    }
}

fn level(levels: &[i16], number: usize) -> i16
    requires { number < length levels.now }
    ensures { result ≡ slice_index_or levels.now number void }
{
    levels[number]
}

/// Which of the tiles across the four edges of the corner's tile are in the list.
pub(crate) fn sides(tiles: &Tiles, corner: Corner) -> Sides
    ensures { (m : Mosaic) (levels : List ℤ) (sinks : List Point) → IsMosaic m
        → IsFilledOf m (filled_of tiles.now levels sinks) → AreSides m corner result }
{
    Sides {
        north: is_present_at(tiles, corner.lat + 1, corner.lon),
        east: is_present_at(tiles, corner.lat, corner.lon + 1),
        south: is_present_at(tiles, corner.lat - 1, corner.lon),
        west: is_present_at(tiles, corner.lat, corner.lon - 1),
    }
}

fn is_present_at(tiles: &Tiles, lat: i16, lon: i16) -> bool
    ensures { (m : Mosaic) (levels : List ℤ) (sinks : List Point) → IsMosaic m
        → IsFilledOf m (filled_of tiles.now levels sinks)
        → result ≡ is_present m (record { lat = lat; lon = lon }) }
{
    let _valid = tiles.tiles();
    match Corner::new(lat, lon) {
        Some(corner) => tiles.has(corner),
        None => false,
    }
}
