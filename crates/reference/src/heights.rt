//! Heights by the seam rule, and where water can go: ground, adjacent points, outlets.
use crate::{Plain, PlainTile};
use lattice::{Height, Point, VOID, index_in, steps};

/// The height of the point: the first sample that isn't void, among the present tiles that hold it, in their order.
pub fn height(mosaic: &Plain, point: Point) -> Height {
    let mut held = false;
    for tile in &mosaic.tiles {
        if let Some(sample) = sample_at(mosaic, tile, point) {
            if sample != VOID {
                return Height::At(sample);
            }
            held = true;
        }
    }
    if held { Height::Void } else { Height::Outside }
}

/// Whether two present tiles hold the point with different samples; a void counts as a sample.
pub fn disagrees(mosaic: &Plain, point: Point) -> bool {
    let mut first = None;
    for tile in &mosaic.tiles {
        if let Some(sample) = sample_at(mosaic, tile, point) {
            if *first.get_or_insert(sample) != sample {
                return true;
            }
        }
    }
    false
}

// The tile's sample of the point; None if the tile doesn't hold the point.
fn sample_at(mosaic: &Plain, tile: &PlainTile, point: Point) -> Option<i16> {
    let index = index_in(mosaic.side, tile.corner, point)?;
    tile.samples.get(index as usize).copied()
}

/// The height in metres; None if the point has none.
pub(crate) fn metres_at(mosaic: &Plain, point: Point) -> Option<i16> {
    match height(mosaic, point) {
        Height::At(metres) => Some(metres),
        _ => None,
    }
}

/// Whether the point has a height.
pub fn is_ground(mosaic: &Plain, point: Point) -> bool {
    metres_at(mosaic, point).is_some()
}

/// Whether water can go from one point to the other: two different ground points, at most one row and one column apart, that
/// one present tile holds.
pub fn is_adjacent(mosaic: &Plain, point: Point, other: Point) -> bool {
    point != other
        && point.y.abs_diff(other.y) <= 1
        && point.x.abs_diff(other.x) <= 1
        && is_ground(mosaic, point)
        && is_ground(mosaic, other)
        && share_tile(mosaic, point, other)
}

// Whether one present tile holds both points.
fn share_tile(mosaic: &Plain, point: Point, other: Point) -> bool {
    mosaic.tiles.iter().any(|tile| {
        sample_at(mosaic, tile, point).is_some() && sample_at(mosaic, tile, other).is_some()
    })
}

/// Whether water leaves the mosaic at the point: a ground point that has fewer than eight adjacent points, or is a declared
/// sink.
pub fn is_outlet(mosaic: &Plain, point: Point) -> bool {
    is_ground(mosaic, point) && (degree(mosaic, point) < 8 || mosaic.sinks.contains(&point))
}

// The number of points adjacent to the point.
fn degree(mosaic: &Plain, point: Point) -> usize {
    steps(point)
        .iter()
        .filter(|step| is_adjacent(mosaic, point, step.to))
        .count()
}
