//! The flows of the samples of tiles.
ghost use Rattle.std.specs.Prelude.{◌≡◌, length};
ghost use Rattle.flow_d8.specs.Tiles.{AreTiles, count_of};

use crate::flow_byte::FlowByte;
use crate::tiles::Tiles;

/// Tiles, and the flows of their samples as far as they are known.
#[derive(Drop)]
pub(crate) struct TileFlows<'a> {
    pub(crate) tiles: &'a Tiles,
    pub(crate) flows: &'a [FlowByte],
    ghost valid: { AreTiles tiles.now },
    ghost whole: { length flows.now ≡ count_of tiles.now },
}
