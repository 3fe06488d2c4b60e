//! The events of a run, and their replies.

use crate::Info;
use edits::Command;
use lattice::{Corner, Height, Point, Refusal};
use water::Run;

/// A call of a store: a command, a question or another.
#[derive(Drop)]
pub enum Event {
    /// Do a command.
    Do(Command),
    /// The height of a point.
    Elevation(Point),
    /// The filled level of a point.
    Fill(Point),
    /// The direction in which water leaves a point.
    Direction(Point),
    /// The flow path of a point.
    Trace(Point),
    /// The watershed of a point.
    Watershed(Point),
    /// The bytes of a tile's HGT file.
    Export(Corner),
    /// The filled levels of all samples of a tile.
    Levels(Corner),
    /// The directions of all samples of a tile.
    Directions(Corner),
    /// The number of points that drain through each sample of a tile.
    Upstream(Corner),
    /// The corners of the present tiles.
    Tiles,
    /// The declared sinks.
    Sinks,
    /// Store the planes of one stale tile.
    Step,
    /// The number of accepted commands.
    Count,
    /// The store's sizes and counts.
    Info,
    /// Open the disk again.
    Reopen,
}

/// A store's answer to an event: the result of the call of that name, or its refusal.
#[derive(Debug, PartialEq, Eq, Drop)]
pub enum Reply {
    /// The command is accepted; the number of commands accepted since the format.
    Done(u64),
    /// In metres, if the point is ground.
    Elevation(Height),
    /// In metres.
    Fill(i16),
    /// The direction's code.
    Direction(u8),
    /// From the point to the one where water leaves the mosaic.
    Trace(Vec<Point>),
    /// Maximal runs, north first, west first.
    Watershed(Vec<Run>),
    /// Two bytes a sample.
    Export(Vec<u8>),
    /// In metres; void where there is no ground.
    Levels(Vec<i16>),
    /// The codes of the directions; 255 where there is no ground.
    Directions(Vec<u8>),
    /// Each point itself included; 0 where there is no ground.
    Upstream(Vec<u32>),
    /// In order.
    Tiles(Vec<Corner>),
    /// In the order of points.
    Sinks(Vec<Point>),
    /// The tile whose planes were stored, or none if no tile was stale.
    Stepped(Option<Corner>),
    /// As last known.
    Count(u64),
    /// The store's sizes and counts.
    Info(Info),
    /// The store is open again.
    Reopened,
    /// The event was refused.
    Refused(Refusal),
}
