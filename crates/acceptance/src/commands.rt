//! Random commands, valid and invalid.
use crate::region::corner_beside;
use arrayvec::ArrayVec;
use edits::{Bytes, Command};
use lattice::{Corner, Point, Side, VOID, point_at};
use reference::Plain;
use seeded_random::Random;
use std::alloc::{AllocError, Global};

/// The values of samples in a session: few heights, so that flats, pits and ties are frequent.
const PALETTES: [[i16; 6]; 4] = [
    [0, 1, 2, 3, 4, VOID],
    [1, 2, 2, 2, 2, 3],
    [0, 0, 1, 1, 2, VOID],
    [-32767, -1, 0, 1, 32767, VOID],
];

/// Heights of patches and walls, in metres.
const HEIGHTS: [i32; 10] = [0, 1, 2, 3, 4, 5, -32767, 32767, -32768, 32768];

/// Depths of burns, in metres.
const DEPTHS: [i32; 8] = [1, 1, 1, 2, 2, 32767, 0, 32768];

/// The distances from a patch's first point to its last, in rows and columns.
const REACHES: [i32; 8] = [-1, 0, 0, 1, 1, 2, 2, 3];

/// The numbers of points of a burn or a wall.
const LENGTHS: [u32; 8] = [1, 1, 1, 2, 2, 3, 4, 6];

/// The commands of a session.
#[derive(Drop)]
pub(crate) struct Commands {
    random: Random,
    side: Side,
    middle: Corner,
    palette: [i16; 6],
    /// Whether most commands declare sinks, once there is a tile and until no more are allowed.
    is_of_sinks: bool,
}

impl Commands {
    pub(crate) fn new(mut random: Random, side: Side, middle: Corner) -> Commands {
        let palette = random.one_of(&PALETTES);
        let is_of_sinks = random.next_below(4) == 0;
        Commands {
            random,
            side,
            middle,
            palette,
            is_of_sinks,
        }
    }

    /// The next command for this mosaic.
    pub(crate) fn next(&mut self, alloc: Global, mosaic: &Plain) -> Result<Command, AllocError> {
        if self.is_of_sinks && !mosaic.tiles().is_empty() && self.random.next_below(8) != 0 {
            return Ok(self.sink(mosaic));
        }
        match self.random.next_below(14) {
            0..=3 => self.import(alloc),
            4 => Ok(self.remove()),
            5 | 6 => Ok(self.patch(mosaic)),
            7 | 8 => Ok(self.burn(mosaic)),
            9 | 10 => Ok(self.wall(mosaic)),
            11 | 12 => Ok(self.sink(mosaic)),
            _ => Ok(self.unsink(mosaic)),
        }
    }

    fn import(&mut self, alloc: Global) -> Result<Command, AllocError> {
        let corner = self.corner();
        let mut bytes = self.file(alloc)?;
        match self.random.next_below(16) {
            0 => bytes.push(0)?,
            1 => bytes.truncate(1),
            _ => {}
        }
        let bytes = Bytes::new(bytes);
        Ok(Command::Import { corner, bytes })
    }

    fn file(&mut self, alloc: Global) -> Result<Vec<u8>, AllocError> {
        let mut bytes = Vec::new(alloc);
        for _ in 0..self.side.area() {
            let sample = self.random.one_of(&self.palette);
            bytes.extend_from_slice(&sample.to_be_bytes())?;
        }
        Ok(bytes)
    }

    fn remove(&mut self) -> Command {
        let corner = self.corner();
        Command::Remove { corner }
    }

    fn patch(&mut self, mosaic: &Plain) -> Command {
        let from = self.point(mosaic);
        let to = Point {
            y: from.y.saturating_add(self.random.one_of(&REACHES)),
            x: from.x.saturating_add(self.random.one_of(&REACHES)),
        };
        let height = self.random.one_of(&HEIGHTS);
        Command::Patch { from, to, height }
    }

    fn burn(&mut self, mosaic: &Plain) -> Command {
        let depth = self.random.one_of(&DEPTHS);
        let points = self.points(mosaic);
        Command::Burn { depth, points }
    }

    fn wall(&mut self, mosaic: &Plain) -> Command {
        let height = self.random.one_of(&HEIGHTS);
        let points = self.points(mosaic);
        Command::Wall { height, points }
    }

    fn sink(&mut self, mosaic: &Plain) -> Command {
        let point = self.point(mosaic);
        Command::Sink { point }
    }

    // Usually for a declared sink.
    fn unsink(&mut self, mosaic: &Plain) -> Command {
        let sinks = mosaic.sinks();
        let point = if sinks.is_empty() || self.random.next_below(4) == 0 {
            self.point(mosaic)
        } else {
            self.random.one_of(sinks)
        };
        Command::Unsink { point }
    }

    fn points(&mut self, mosaic: &Plain) -> ArrayVec<Point, 64> {
        let mut points = ArrayVec::new();
        for _ in 0..self.random.one_of(&LENGTHS) {
            let _ = points.try_push(self.point(mosaic));
        }
        points
    }

    fn corner(&mut self) -> Corner {
        let lat = self.random.one_of(&[-1, 0, 1]);
        let lon = self.random.one_of(&[-1, 0, 1]);
        corner_beside(self.middle, lat, lon)
    }

    // Usually a point of a present tile.
    fn point(&mut self, mosaic: &Plain) -> Point {
        let tiles = mosaic.tiles();
        let corner = if tiles.is_empty() || self.random.next_below(16) == 0 {
            self.corner()
        } else {
            self.random.item_of(tiles).corner()
        };
        let index = self.random.next_below(self.side.area());
        point_at(self.side, corner, index)
    }
}
