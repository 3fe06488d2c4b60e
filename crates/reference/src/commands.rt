//! The effect of a command on a mosaic, and when it is refused.
use crate::heights::{height, metres_at};
use crate::{Plain, PlainTile};
use edits::Command;
use lattice::{Corner, Height, MOST_SINKS, Point, Refusal, point_at};
use std::alloc::{AllocError, Global};

/// The mosaic after the command, or the first refusal that applies. At most `capacity` tiles may be present.
pub fn effect(
    alloc: Global,
    capacity: u32,
    mosaic: &Plain,
    command: &Command,
) -> Result<Plain, Refusal> {
    if let Some(refusal) = refusal(capacity, mosaic, command) {
        return Err(refusal);
    }
    let new = accepted(alloc, mosaic, command)?;
    Ok(new)
}

// The first refusal that applies to the command.
fn refusal(capacity: u32, mosaic: &Plain, command: &Command) -> Option<Refusal> {
    match command {
        Command::Import { corner, bytes } => {
            refusal_of_import(capacity, mosaic, *corner, bytes.as_slice())
        }
        Command::Remove { corner } => { (!is_present(mosaic, *corner)).then_some(Refusal::NoTile) }
        Command::Patch { from, to, height } => refusal_of_patch(mosaic, *from, *to, *height),
        Command::Burn { depth, .. } if !(1..=32767).contains(depth) => Some(Refusal::BadDepth),
        Command::Burn { depth, points } => fault(mosaic, *depth, points.as_slice()),
        Command::Wall { height, .. } if !is_height(*height) => Some(Refusal::BadHeight),
        Command::Wall { points, .. } => fault(mosaic, 0, points.as_slice()),
        Command::Sink { point } => refusal_of_sink(mosaic, *point),
        Command::Unsink { point } => { (!mosaic.sinks.contains(point)).then_some(Refusal::NoSink) }
    }
}

fn refusal_of_import(
    capacity: u32,
    mosaic: &Plain,
    corner: Corner,
    bytes: &[u8],
) -> Option<Refusal> {
    if bytes.len() != mosaic.side.file_bytes() as usize {
        Some(Refusal::BadLength)
    } else if is_present(mosaic, corner) {
        Some(Refusal::TileThere)
    } else if mosaic.tiles.len() >= capacity as usize {
        Some(Refusal::Full)
    } else {
        None
    }
}

fn is_present(mosaic: &Plain, corner: Corner) -> bool {
    mosaic.samples_of(corner).is_some()
}

fn refusal_of_patch(mosaic: &Plain, from: Point, to: Point, height: i32) -> Option<Refusal> {
    if !is_height(height) {
        Some(Refusal::BadHeight)
    } else if !is_box(mosaic, from, to) {
        Some(Refusal::BadBox)
    } else if !has_void(mosaic, from, to) {
        Some(Refusal::NothingVoid)
    } else {
        None
    }
}

fn is_height(height: i32) -> bool {
    (-32767..=32767).contains(&height)
}

// Whether the box's ends are in order, and it is at most a side's points wide and high.
fn is_box(mosaic: &Plain, from: Point, to: Point) -> bool {
    let side = mosaic.side.samples();
    from.y <= to.y && from.x <= to.x && to.y.abs_diff(from.y) < side && to.x.abs_diff(from.x) < side
}

// Whether some point of the box is void.
fn has_void(mosaic: &Plain, from: Point, to: Point) -> bool {
    (from.y..=to.y).any(|y| has_void_in_row(mosaic, y, from.x, to.x))
}

fn has_void_in_row(mosaic: &Plain, y: i32, first: i32, last: i32) -> bool {
    (first..=last).any(|x| height(mosaic, Point { y, x }) == Height::Void)
}

// The refusal for the points of a burn by this depth, or of a wall, if there is one. A repeated point comes first. Next is
// the first point that is outside, void, or too low after the burn.
fn fault(mosaic: &Plain, depth: i32, points: &[Point]) -> Option<Refusal> {
    if is_repeated(points) {
        return Some(Refusal::Repeated);
    }
    for point in points {
        match height(mosaic, *point) {
            Height::Outside => return Some(Refusal::Outside),
            Height::Void => return Some(Refusal::Void),
            Height::At(metres) if i32::from(metres).saturating_sub(depth) < -32767 => {
                return Some(Refusal::TooDeep);
            }
            Height::At(_) => {}
        }
    }
    None
}

// Whether some point is listed twice.
fn is_repeated(points: &[Point]) -> bool {
    for (place, point) in points.iter().enumerate() {
        if points[..place].contains(point) {
            return true;
        }
    }
    false
}

fn refusal_of_sink(mosaic: &Plain, point: Point) -> Option<Refusal> {
    match height(mosaic, point) {
        Height::Outside => Some(Refusal::Outside),
        Height::Void => Some(Refusal::Void),
        Height::At(_) if mosaic.sinks.contains(&point) => Some(Refusal::SinkThere),
        Height::At(_) => (mosaic.sinks.len() >= MOST_SINKS).then_some(Refusal::SinksFull),
    }
}

// The mosaic after a command that isn't refused.
fn accepted(alloc: Global, mosaic: &Plain, command: &Command) -> Result<Plain, AllocError> {
    let mut new = mosaic.copy(alloc)?;
    match command {
        Command::Import { corner, bytes } => {
            let samples = samples_in(alloc, bytes.as_slice())?;
            let corner = *corner;
            new.tiles.push(PlainTile { corner, samples })?;
            new.tiles
                .sort_unstable_by_key(|tile| (tile.corner.lat, tile.corner.lon));
        }
        Command::Remove { corner } => new.tiles.retain(|tile| tile.corner != *corner),
        Command::Sink { point } => {
            new.sinks.push(*point)?;
            new.sinks.sort_unstable_by_key(|sink| (sink.y, sink.x));
        }
        Command::Unsink { point } => new.sinks.retain(|sink| sink != point),
        Command::Patch { .. } | Command::Burn { .. } | Command::Wall { .. } => {
            edit(mosaic, command, &mut new);
        }
    }
    Ok(new)
}

// The samples in HGT bytes: two bytes each, the more significant first.
fn samples_in(alloc: Global, bytes: &[u8]) -> Result<Vec<i16>, AllocError> {
    let mut samples = Vec::new(alloc);
    for pair in bytes.chunks_exact(2) {
        samples.push(i16::from_be_bytes([pair[0], pair[1]]))?;
    }
    Ok(samples)
}

// Changes the samples of all tiles as the command says about their points.
fn edit(mosaic: &Plain, command: &Command, new: &mut Plain) {
    for tile in &mut new.tiles {
        edit_tile(mosaic, command, tile);
    }
}

fn edit_tile(mosaic: &Plain, command: &Command, tile: &mut PlainTile) {
    for index in 0..mosaic.side.area() {
        let point = point_at(mosaic.side, tile.corner, index);
        if let Some(sample) = tile.samples.get_mut(index as usize) {
            *sample = edited(mosaic, command, point).unwrap_or(*sample);
        }
    }
}

// The new height of a point that the command changes.
fn edited(mosaic: &Plain, command: &Command, point: Point) -> Option<i16> {
    let old = metres_at(mosaic, point).map(i32::from);
    let new = match command {
        Command::Patch {
            from,
            to,
            height: patched,
        } if is_in_box(*from, *to, point) => {
            (height(mosaic, point) == Height::Void).then_some(*patched)?
        }
        Command::Burn { depth, points } if points.contains(&point) => old?.saturating_sub(*depth),
        Command::Wall { height, points } if points.contains(&point) => old?.max(*height),
        _ => return None,
    };
    i16::try_from(new).ok()
}

fn is_in_box(from: Point, to: Point, point: Point) -> bool {
    from.y <= point.y && point.y <= to.y && from.x <= point.x && point.x <= to.x
}
