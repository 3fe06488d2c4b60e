//! Filled levels by repeated relaxation. Outlets have their heights. While some point's level can be set or lowered from a
//! neighbour's, it is. Barnes, Lehman and Mulla (2014) define the filled level.
use crate::heights::metres_at;
use crate::{Plain, PlainTile, is_adjacent, is_outlet};
use lattice::{Point, point_at};
use std::alloc::{AllocError, Global};

/// A ground point, its height, and its level if one is known.
#[derive(Clone, Copy)]
pub(crate) struct Cell {
    pub(crate) point: Point,
    height: i16,
    level: Option<i16>,
}

/// The levels of a mosaic's ground points.
#[derive(Drop)]
pub struct Levels {
    pub(crate) cells: Vec<Cell>,
}

impl Levels {
    /// The level of the point in metres; None if it has none.
    pub fn get(&self, point: Point) -> Option<i16> {
        let cell = self.cells.iter().find(|cell| cell.point == point)?;
        cell.level
    }
}

/// The filled level of each ground point: the least crest of all paths from it to an outlet. Other points have none.
pub fn filled_levels(alloc: Global, mosaic: &Plain) -> Result<Levels, AllocError> {
    let mut cells = starting_cells(alloc, mosaic)?;
    // A lowest path has no point twice, so this many rounds suffice.
    for _ in 0..cells.len() {
        if !lower(mosaic, &mut cells) {
            break;
        }
    }
    Ok(Levels { cells })
}

// Each ground point once: outlets at their heights, all others without a level.
fn starting_cells(alloc: Global, mosaic: &Plain) -> Result<Vec<Cell>, AllocError> {
    let mut cells = Vec::new(alloc);
    for tile in &mosaic.tiles {
        push_cells(mosaic, tile, &mut cells)?;
    }
    Ok(cells)
}

// Adds the points of a tile that no earlier tile has.
fn push_cells(mosaic: &Plain, tile: &PlainTile, cells: &mut Vec<Cell>) -> Result<(), AllocError> {
    for index in 0..mosaic.side.area() {
        let point = point_at(mosaic.side, tile.corner, index);
        let is_new = !cells.iter().any(|cell| cell.point == point);
        if let (true, Some(height)) = (is_new, metres_at(mosaic, point)) {
            let level = is_outlet(mosaic, point).then_some(height);
            cells.push(Cell {
                point,
                height,
                level,
            })?;
        }
    }
    Ok(())
}

// Lowers each level that a neighbour's level lowers; false if there is none.
fn lower(mosaic: &Plain, cells: &mut [Cell]) -> bool {
    let mut lowered = false;
    for place in 0..cells.len() {
        let level = level_by_neighbours(mosaic, cells[place], cells);
        if is_lower(level, cells[place].level) {
            cells[place].level = level;
            lowered = true;
        }
    }
    lowered
}

// The lowest level at which water leaves the cell through one of the others.
fn level_by_neighbours(mosaic: &Plain, cell: Cell, others: &[Cell]) -> Option<i16> {
    let mut least = None;
    for other in others {
        let level = other.level.map(|level| level.max(cell.height));
        if is_lower(level, least) && is_adjacent(mosaic, cell.point, other.point) {
            least = level;
        }
    }
    least
}

// Whether the level is lower than the other; None is higher than each level.
fn is_lower(level: Option<i16>, other: Option<i16>) -> bool {
    match (level, other) {
        (Some(level), Some(other)) => level < other,
        (level, _) => level.is_some(),
    }
}
