//! The part of the world that a session covers: three by three corners.
use lattice::{Corner, Point, Side, point_at};
use std::alloc::{AllocError, Global};
use std::ops::Range;

/// The corners in the middle of regions: where latitudes and longitudes begin, and two ends of the world.
pub(crate) const MIDDLES: [Corner; 3] = [
    Corner { lat: 0, lon: 0 },
    Corner { lat: 88, lon: 178 },
    Corner {
        lat: -89,
        lon: -179,
    },
];

/// The corner this many degrees north and east of the middle, or the middle if there is none.
pub(crate) fn corner_beside(middle: Corner, lat: i16, lon: i16) -> Corner {
    let lat = middle.lat.saturating_add(lat);
    let lon = middle.lon.saturating_add(lon);
    Corner::new(lat, lon).unwrap_or(middle)
}

/// All corners of the region.
pub(crate) fn corners_around(alloc: Global, middle: Corner) -> Result<Vec<Corner>, AllocError> {
    let mut corners = Vec::new(alloc);
    for lat in -1..2 {
        extend_parallel(&mut corners, middle, lat)?;
    }
    Ok(corners)
}

// Adds the corners this many degrees north of the middle.
fn extend_parallel(corners: &mut Vec<Corner>, middle: Corner, lat: i16) -> Result<(), AllocError> {
    for lon in -1..2 {
        corners.push(corner_beside(middle, lat, lon))?;
    }
    Ok(())
}

/// All points of the region, and those around it.
pub(crate) fn points_around(
    alloc: Global,
    side: Side,
    middle: Corner,
) -> Result<Vec<Point>, AllocError> {
    let edge = side.edge() as i32;
    let north_west = point_at(side, middle, 0);
    let (west, east) = (-edge - 1, 2 * edge + 2);
    let mut points = Vec::new(alloc);
    for row in -2 * edge - 1..edge + 2 {
        let y = north_west.y.saturating_add(row);
        extend_row(&mut points, y, north_west.x, west..east)?;
    }
    Ok(points)
}

// Adds the points of a row in these columns, counted from x.
fn extend_row(
    points: &mut Vec<Point>,
    y: i32,
    x: i32,
    columns: Range<i32>,
) -> Result<(), AllocError> {
    for column in columns {
        let x = x.saturating_add(column);
        points.push(Point { y, x })?;
    }
    Ok(())
}
