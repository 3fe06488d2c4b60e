//! Points and runs in the form that rows have.
use lattice::Point;
use water::Run;

pub(crate) fn at(y: i32, x: i32) -> Point {
    Point { y, x }
}

/// Whether these are the points, given as y and x of each.
pub(crate) fn are_points(found: &[Point], wanted: &[(i32, i32)]) -> bool {
    found.len() == wanted.len()
        && found
            .iter()
            .zip(wanted)
            .all(|(point, (y, x))| point.y == *y && point.x == *x)
}

/// Whether these are the runs, given as y, first x and last x of each.
pub(crate) fn are_runs(found: &[Run], wanted: &[(i32, i32, i32)]) -> bool {
    found.len() == wanted.len()
        && found.iter().zip(wanted).all(|(run, (y, first, last))| run.y == *y
            && run.first == *first
            && run.last == *last)
}
