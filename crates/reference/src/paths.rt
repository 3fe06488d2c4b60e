//! The path that water takes from a point, and the points whose water passes through a point.
use crate::directions::drain;
use crate::{Levels, Plain};
use lattice::Point;
use std::alloc::{AllocError, Global};
use water::Run;

/// The flow path of a ground point, given the filled levels: the point, then the next one in its direction, and so on, up to
/// a point where water leaves the mosaic.
pub fn flow_path(
    alloc: Global,
    mosaic: &Plain,
    levels: &Levels,
    point: Point,
) -> Result<Vec<Point>, AllocError> {
    let mut path = Vec::new(alloc);
    path.push(point)?;
    let mut here = point;
    // A flow path has no point twice.
    for _ in 0..levels.cells.len() {
        let Some(step) = drain(alloc, mosaic, levels, here)? else {
            break;
        };
        here = step.to;
        path.push(here)?;
    }
    Ok(path)
}

/// The watershed of a point, given the filled levels: the ground points whose flow path contains it, as maximal runs, north
/// first, then west first.
pub fn watershed(
    alloc: Global,
    mosaic: &Plain,
    levels: &Levels,
    point: Point,
) -> Result<Vec<Run>, AllocError> {
    let mut points = Vec::new(alloc);
    for cell in &levels.cells {
        if flow_path(alloc, mosaic, levels, cell.point)?.contains(&point) {
            points.push(cell.point)?;
        }
    }
    points.sort_unstable_by_key(|point| (-i64::from(point.y), point.x));
    runs_of(alloc, &points)
}

fn runs_of(alloc: Global, points: &[Point]) -> Result<Vec<Run>, AllocError> {
    let mut runs: Vec<Run> = Vec::new(alloc);
    for Point { y, x } in points.iter().copied() {
        match runs.last_mut() {
            Some(run) if run.y == y && run.last.checked_add(1) == Some(x) => run.last = x,
            _ => runs.push(Run {
                y,
                first: x,
                last: x,
            })?,
        }
    }
    Ok(runs)
}
