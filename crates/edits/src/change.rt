//! The changes that carry out a command.
ghost use Rattle.std.specs.Prelude.{◌≡◌};

use lattice::{Corner, Point};
use std::marker::Model;

/// The samples of a whole tile in metres: row by row from the north, west first.
#[derive(Drop)]
pub struct TileSamples {
    samples: Vec<i16>,
}

impl Model for TileSamples {
    ghost use Rattle.std.specs.Prelude.{List, ℤ};

    ghost Value = { List ℤ };

    ghost view = { λ s. s.samples.items };
}

impl TileSamples {
    /// Wraps these samples; takes no memory.
    pub fn new(samples: Vec<i16>) -> TileSamples
        ensures { result ≡ samples.items }
    {
        TileSamples { samples }
    }

    /// The samples, in the order of their indices.
    pub fn as_slice(&self) -> &[i16]
        ensures { result.now ≡ self.now }
    {
        &self.samples
    }
}

/// One change of a mosaic.
#[derive(Drop)]
pub enum Change {
    /// A tile is added.
    Add {
        corner: Corner,
        samples: TileSamples,
    },
    /// The corner's tile is removed.
    Drop {
        corner: Corner,
    },
    /// The sample at the index of the corner's tile gets this value.
    Set {
        corner: Corner,
        index: u32,
        sample: i16,
    },
    /// The point is declared a sink.
    Sink {
        point: Point,
    },
    /// The point is no longer a sink.
    Unsink {
        point: Point,
    },
}
