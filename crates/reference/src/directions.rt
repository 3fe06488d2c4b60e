//! Where each ground point drains: by the steepest step down, off the mosaic, or across its flat.
use crate::{Levels, Plain, is_adjacent, is_outlet};
use lattice::{Dir, Point, Step, steps};
use std::alloc::{AllocError, Global};

/// The direction in which a ground point drains, given the filled levels; None if water leaves the mosaic there.
pub fn direction(
    alloc: Global,
    mosaic: &Plain,
    levels: &Levels,
    point: Point,
) -> Result<Option<Dir>, AllocError> {
    let step = drain(alloc, mosaic, levels, point)?;
    Ok(step.map(|step| step.direction))
}

// The step in the point's direction.
pub(crate) fn drain(
    alloc: Global,
    mosaic: &Plain,
    levels: &Levels,
    point: Point,
) -> Result<Option<Step>, AllocError> {
    if let Some(step) = steepest(mosaic, levels, point) {
        return Ok(Some(step));
    }
    if is_outlet(mosaic, point) {
        return Ok(None);
    }
    first_nearer(alloc, mosaic, levels, point)
}

// The first of the steepest steps down, in the order of codes.
fn steepest(mosaic: &Plain, levels: &Levels, point: Point) -> Option<Step> {
    let mut found = None;
    let mut steepest = 0;
    for step in steps(point).as_slice() {
        let slope = slope(mosaic, levels, point, *step);
        if slope > steepest {
            steepest = slope;
            found = Some(*step);
        }
    }
    found
}

// Twice the square of the step's slope; a diagonal step is longer by the square root of 2. 0 if the step doesn't go down.
fn slope(mosaic: &Plain, levels: &Levels, point: Point, step: Step) -> u64 {
    if !is_lower(mosaic, levels, step.to, point) {
        return 0;
    }
    let from = levels.get(point).unwrap_or_default();
    let to = levels.get(step.to).unwrap_or_default();
    let square = u64::from(from.abs_diff(to)).saturating_pow(2);
    match step.direction {
        Dir::East | Dir::South | Dir::West | Dir::North => square.saturating_mul(2),
        _ => square,
    }
}

// The first step to a point of the same level that is nearer to the exit of the flat.
fn first_nearer(
    alloc: Global,
    mosaic: &Plain,
    levels: &Levels,
    point: Point,
) -> Result<Option<Step>, AllocError> {
    let own = flat_distance(alloc, mosaic, levels, point)?;
    for step in steps(point).as_slice() {
        if is_level(mosaic, levels, step.to, point)
            && flat_distance(alloc, mosaic, levels, step.to)? < own
        {
            return Ok(Some(*step));
        }
    }
    Ok(None)
}

/// The flat distance of a ground point, given the filled levels. It is the least number of steps over points of one level to
/// a point with a lower neighbour, or to an outlet. None for a point that isn't ground.
pub fn flat_distance(
    alloc: Global,
    mosaic: &Plain,
    levels: &Levels,
    point: Point,
) -> Result<Option<usize>, AllocError> {
    // The points from which this many steps lead to an exit of their flat.
    let mut here = ends_of_flats(alloc, mosaic, levels)?;
    for steps in 0..levels.cells.len() {
        if here.contains(&point) {
            return Ok(Some(steps));
        }
        here = points_beside(alloc, mosaic, levels, &here)?;
    }
    Ok(None)
}

// The exits of flats: points with a lower neighbour, and outlets.
fn ends_of_flats(alloc: Global, mosaic: &Plain, levels: &Levels) -> Result<Vec<Point>, AllocError> {
    let mut ends = Vec::new(alloc);
    for cell in &levels.cells {
        if is_outlet(mosaic, cell.point) || has_lower(mosaic, levels, cell.point) {
            ends.push(cell.point)?;
        }
    }
    Ok(ends)
}

fn has_lower(mosaic: &Plain, levels: &Levels, point: Point) -> bool {
    let mut around = levels.cells.iter();
    around.any(|other| is_lower(mosaic, levels, other.point, point))
}

// The points that are neighbours of one of these and have its level.
fn points_beside(
    alloc: Global,
    mosaic: &Plain,
    levels: &Levels,
    points: &[Point],
) -> Result<Vec<Point>, AllocError> {
    let mut beside = Vec::new(alloc);
    for cell in &levels.cells {
        let mut others = points.iter();
        if others.any(|other| is_level(mosaic, levels, *other, cell.point)) {
            beside.push(cell.point)?;
        }
    }
    Ok(beside)
}

// Whether the point is adjacent to the other, and has a lower level.
fn is_lower(mosaic: &Plain, levels: &Levels, point: Point, other: Point) -> bool {
    is_adjacent(mosaic, point, other) && levels.get(point) < levels.get(other)
}

// Whether the point is adjacent to the other, and has the same level.
fn is_level(mosaic: &Plain, levels: &Levels, point: Point, other: Point) -> bool {
    is_adjacent(mosaic, point, other) && levels.get(point) == levels.get(other)
}
