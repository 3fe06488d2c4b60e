//! The ground of a block.
ghost use Rattle.std.specs.Prelude.{◌≡◌, ◌*◌, ◌<◌, length, slice_set, SomeIff};

use crate::views::BlockView;
use arrayvec::ArrayVec;
use lattice::{MOST_SINKS, Side};
use std::marker::Model;

/// The ground of one tile. It has the heights of the tile's points by the seam rule, in metres, row by row from the
/// north-west corner; -32768 where a point has none. It also has the indices of the declared sinks among these points.
#[derive(Drop)]
pub struct Block {
    side: Side,
    heights: Vec<i16>,
    sinks: ArrayVec<u32, MOST_SINKS>,
}

impl Model for Block {
    ghost use Rattle.std.specs.Prelude.{◌≡◌, ◌*◌, length};
    ghost use Rattle.lattice.specs.Block.{Block};

    ghost Value = { Block };

    ghost view = { λ b. record { side = b.side; heights = b.heights.items; sinks = b.sinks.items } };

    ghost invariant = { λ b. length b.heights.items ≡ b.side * b.side };
}

impl Block {
    /// The block of these heights and sinks. None unless the heights are as many as the points of a tile with this side.
    /// Allocates nothing.
    pub fn new(side: Side, heights: Vec<i16>, sinks: ArrayVec<u32, MOST_SINKS>) -> Option<Block>
        ensures { SomeIff result (length heights.items ≡ side * side) (record { side = side; heights = heights.items; sinks = sinks.items }) }
    {
        if heights.len() == side.area() as usize {
            Some(Block {
                side,
                heights,
                sinks,
            })
        } else {
            None
        }
    }

    ghost use Rattle.tile_flood.specs.Views.{viewed_block};

    pub(crate) fn view(&self) -> BlockView<'_>
        ensures { viewed_block result ≡ self.now }
    {
        BlockView {
            n: self.side.samples() as usize,
            heights: &self.heights,
            sinks: self.sinks.as_slice(),
        }
    }

    /// The side of the block's tile.
    pub fn side(&self) -> Side
        ensures { result ≡ self.now.side }
    {
        self.side
    }

    /// The heights of the block's points.
    pub fn heights(&self) -> &[i16]
        ensures value { result.now ≡ self.now.heights }
        ensures whole { length self.now.heights ≡ self.now.side * self.now.side }
    {
        &self.heights
    }

    /// Sets the height of point e.
    pub fn set_height(&mut self, e: usize, height: i16)
        requires { e < length self.old.heights }
        ensures { self.new ≡ record { side = self.old.side; heights = slice_set self.old.heights e height; sinks = self.old.sinks } }
    {
        self.heights[e] = height;
    }

    /// The indices of the sinks among the block's points.
    pub fn sinks(&self) -> &[u32]
        ensures { result.now ≡ self.now.sinks }
    {
        self.sinks.as_slice()
    }
}
