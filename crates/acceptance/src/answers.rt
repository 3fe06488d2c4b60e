//! The answers about one point.
use engine::Engine;
use lattice::{Height, Point, Refusal};
use reference::{Levels, Plain};
use std::alloc::{AllocError, Global};
use water::Run;

/// The answers to all queries of a point.
#[derive(Debug, PartialEq, Drop)]
pub(crate) struct Answers {
    pub(crate) elevation: Result<Height, Refusal>,
    pub(crate) fill: Result<i16, Refusal>,
    pub(crate) direction: Result<u8, Refusal>,
    pub(crate) trace: Result<Vec<Point>, Refusal>,
    pub(crate) watershed: Result<Vec<Run>, Refusal>,
}

/// The engine's answers.
pub(crate) fn served<E: Engine>(engine: &mut E, point: Point) -> Answers {
    Answers {
        elevation: engine.elevation(point),
        fill: engine.fill(point),
        direction: engine.direction(point),
        trace: engine.trace(point),
        watershed: engine.watershed(point),
    }
}

/// The plain programs' answers, from the filled levels.
pub(crate) fn defined(
    alloc: Global,
    mosaic: &Plain,
    levels: &Levels,
    point: Point,
) -> Result<Answers, AllocError> {
    if reference::is_ground(mosaic, point) {
        return drained(alloc, mosaic, levels, point);
    }
    let elevation = reference::height(mosaic, point);
    let refusal = match elevation {
        Height::Outside => Refusal::Outside,
        _ => Refusal::Void,
    };
    Ok(Answers {
        elevation: Ok(elevation),
        fill: Err(refusal),
        direction: Err(refusal),
        trace: Err(refusal),
        watershed: Err(refusal),
    })
}

fn drained(
    alloc: Global,
    mosaic: &Plain,
    levels: &Levels,
    point: Point,
) -> Result<Answers, AllocError> {
    let direction = match reference::direction(alloc, mosaic, levels, point)? {
        Some(direction) => direction.code(),
        None => 0,
    };
    Ok(Answers {
        elevation: Ok(reference::height(mosaic, point)),
        fill: levels.get(point).ok_or(Refusal::Void),
        direction: Ok(direction),
        trace: Ok(reference::flow_path(alloc, mosaic, levels, point)?),
        watershed: Ok(reference::watershed(alloc, mosaic, levels, point)?),
    })
}
