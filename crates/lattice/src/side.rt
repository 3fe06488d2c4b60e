//! The size of a tile.
ghost use Rattle.std.specs.Prelude.{◌≡◌, ◌≤◌, ◌*◌, ◌-◌, SomeIff};
ghost use Rattle.lattice.specs.Limits.{IsSide, largest_side};

use crate::LARGEST_SIDE;
use std::marker::Model;

/// The number of samples along each edge of a tile, from 3 to 3601: 1201 in SRTM3 tiles, 3601 in SRTM1 tiles (SRTM
/// documentation); small sides serve tests. Neighbouring tiles share the samples of their common edge.
#[derive(Clone, Copy, Debug, PartialEq, Eq)]
pub struct Side {
    samples: u32,
}

impl Model for Side {
    ghost use Rattle.std.specs.Prelude.{ℕ};
    ghost use Rattle.lattice.specs.Limits.{IsSide};

    ghost Value = { ℕ };

    ghost view = { λ s. s.samples };

    ghost invariant = { λ s. IsSide s.samples };

    ghost inverse = { λ n. record { samples = n } };
}

impl Side {
    /// The side with this many samples, if that is allowed.
    pub fn new(samples: u32) -> Option<Side>
        ensures { SomeIff result (IsSide samples) samples }
    {
        if 3 <= samples && samples <= LARGEST_SIDE {
            Some(Side { samples })
        } else {
            None
        }
    }

    /// The number of samples along an edge.
    pub fn samples(self) -> u32
        ensures value { result ≡ self }
        ensures low { 3 ≤ self }
        ensures high { self ≤ largest_side }
    {
        self.samples
    }

    /// The number of samples from one edge to the opposite one, which is the distance of neighbouring corners.
    pub fn edge(self) -> u32
        ensures value { result ≡ self - 1 }
        ensures low { 3 ≤ self }
        ensures high { self ≤ largest_side }
    {
        self.samples - 1
    }

    /// The number of samples on the rim of the tile: those of its first and last rows and columns.
    pub fn rim(self) -> u32
        ensures value { result ≡ 4 * (self - 1) }
        ensures low { 3 ≤ self }
        ensures high { self ≤ largest_side }
    {
        4 * self.edge()
    }

    /// The number of samples in the whole tile.
    pub fn area(self) -> u32
        ensures value { result ≡ self * self }
        ensures low { 3 ≤ self }
        ensures high { self ≤ largest_side }
    {
        self.samples * self.samples
    }

    /// The length in bytes of the tile's HGT file: two for each sample.
    pub fn file_bytes(self) -> u32
        ensures value { result ≡ 2 * (self * self) }
        ensures low { 3 ≤ self }
        ensures high { self ≤ largest_side }
    {
        2 * self.area()
    }
}
