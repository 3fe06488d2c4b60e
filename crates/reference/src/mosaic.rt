//! A mosaic as a list of tiles.
use lattice::{Corner, Point, Side};
use std::alloc::{AllocError, Global};

/// A tile: its corner, and its samples in metres, row by row from the north, west first.
#[derive(Drop)]
pub struct PlainTile {
    pub(crate) corner: Corner,
    pub(crate) samples: Vec<i16>,
}

impl PlainTile {
    /// The tile's corner.
    pub fn corner(&self) -> Corner {
        self.corner
    }

    /// The tile's samples, row by row from the north, west first.
    pub fn samples(&self) -> &[i16] {
        &self.samples
    }
}

/// A mosaic: its present tiles, by rising latitude and then longitude, and its declared sinks, by rising y and then x.
#[derive(Drop)]
pub struct Plain {
    pub(crate) side: Side,
    pub(crate) tiles: Vec<PlainTile>,
    pub(crate) sinks: Vec<Point>,
}

impl Plain {
    /// The mosaic without tiles and sinks. Allocates nothing.
    pub fn new(alloc: Global, side: Side) -> Plain {
        Plain {
            side,
            tiles: Vec::new(alloc),
            sinks: Vec::new(alloc),
        }
    }

    /// The present tiles, in their order.
    pub fn tiles(&self) -> &[PlainTile] {
        &self.tiles
    }

    /// The points that are declared sinks, in their order.
    pub fn sinks(&self) -> &[Point] {
        &self.sinks
    }

    /// The samples of the tile with this corner; None if the tile is absent.
    pub fn samples_of(&self, corner: Corner) -> Option<&[i16]> {
        for tile in &self.tiles {
            if tile.corner == corner {
                return Some(&tile.samples);
            }
        }
        None
    }

    pub(crate) fn copy(&self, alloc: Global) -> Result<Plain, AllocError> {
        let mut tiles = Vec::new(alloc);
        for tile in &self.tiles {
            let samples = tile.samples.to_vec(alloc)?;
            let corner = tile.corner;
            tiles.push(PlainTile { corner, samples })?;
        }
        let sinks = self.sinks.to_vec(alloc)?;
        let side = self.side;
        Ok(Plain { side, tiles, sinks })
    }
}
