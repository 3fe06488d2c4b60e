//! The commands that change a mosaic.
ghost use Rattle.std.specs.Prelude.{◌≡◌};

use arrayvec::ArrayVec;
use lattice::{Corner, Point};
use std::marker::Model;

/// The bytes of a file.
#[derive(Drop)]
pub struct Bytes {
    bytes: Vec<u8>,
}

impl Model for Bytes {
    ghost use Rattle.std.specs.Prelude.{List, ℕ};

    ghost Value = { List ℕ };

    ghost view = { λ b. b.bytes.items };
}

impl Bytes {
    /// Wraps these bytes; takes no memory.
    pub fn new(bytes: Vec<u8>) -> Bytes
        ensures { result ≡ bytes.items }
    {
        Bytes { bytes }
    }

    /// The bytes, in their order.
    pub fn as_slice(&self) -> &[u8]
        ensures { result.now ≡ self.now }
    {
        &self.bytes
    }
}

/// A command of a store. Heights and depths are in metres.
#[derive(Drop)]
pub enum Command {
    /// Adds the tile with these bytes of an HGT file.
    Import {
        corner: Corner,
        bytes: Bytes,
    },
    /// Removes the tile.
    Remove {
        corner: Corner,
    },
    /// Gives each void point of the box, corners included, a height from -32767 to 32767.
    Patch {
        from: Point,
        to: Point,
        height: i32,
    },
    /// Lowers each point by a depth from 1 to 32767, for example to burn in a stream.
    Burn {
        depth: i32,
        points: ArrayVec<Point, 64>,
    },
    /// Raises each lower point to a height from -32767 to 32767.
    Wall {
        height: i32,
        points: ArrayVec<Point, 64>,
    },
    /// Declares the point a sink.
    Sink {
        point: Point,
    },
    /// Removes the sink at the point.
    Unsink {
        point: Point,
    },
}
