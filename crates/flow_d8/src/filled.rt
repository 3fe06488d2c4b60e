//! The filled levels of all tiles of a mosaic, and the directions that follow from them.
ghost use Rattle.std.specs.Prelude.{◌≡◌, ◌⊎◌, ℤ, ◌+◌, ◌*◌, ◌<◌, [], IsTrue, IfOk, IfErr, OnOk, SomeIff, List, length, slice_index_or};
ghost use Rattle.lattice.specs.Ground.{terrain};
ghost use Rattle.lattice.specs.Mosaic.{Mosaic, IsMosaic};
ghost use Rattle.lattice.specs.declared.point.Point.{Point};
ghost use Rattle.lattice.specs.declared.refusal.Refusal.TheVariants.{NoMemory, Damaged};
ghost use Rattle.water.specs.Drainage.{AreFilledLevels};
ghost use Rattle.flow_d8.specs.Filled.{AreLevels, IsFilledOf, IsOfNoMosaic};
ghost use Rattle.flow_d8.specs.Directions.{AreDirectionsOf};
ghost use Rattle.flow_d8.specs.FlowGrids.{AreKnown, AreTileFlows, IsGridOf};
ghost use Rattle.flow_d8.specs.Levels.{filled_of};
ghost use Rattle.flow_d8.specs.Tiles.{no_corner};

use crate::directions::Directions;
use crate::flow_byte::FlowByte;
use crate::grid::FlowGrid;
use crate::padding::{padded_levels, sides};
use crate::preparing::prepare;
use crate::tiles::Tiles;
use lattice::{Corner, Point, Refusal, Side};
use std::alloc::{AllocError, Global};
use std::marker::Model;

/// The filled levels of a mosaic's present tiles, with the declared sinks.
#[derive(Drop)]
pub struct Filled {
    tiles: Tiles,
    levels: Vec<i16>,
    sinks: Vec<Point>,
}

impl Model for Filled {
    ghost use Rattle.flow_d8.specs.Filled.{Filled, AreLevels};

    ghost Value = { Filled };

    ghost view = { λ f. record { side = f.tiles.side; corners = f.tiles.corners; levels = f.levels.items; sinks = f.sinks.items } };

    ghost invariant = { λ f. AreLevels (record { side = f.tiles.side; corners = f.tiles.corners; levels = f.levels.items; sinks = f.sinks.items }) };
}

impl Filled {
    /// The levels of the tiles at these corners, in metres: tile after tile, each row by row from the north, in a row from the
    /// west, -32768 where a point has none; and the declared sinks. None where the corners aren't in the order of tiles, the tiles
    /// have 2^32 samples or more, or another number of samples than there are levels. Takes no memory.
    pub fn new(
        side: Side,
        corners: Vec<Corner>,
        levels: Vec<i16>,
        sinks: Vec<Point>,
    ) -> Option<Filled>
        ensures { SomeIff result (AreLevels (record { side = side; corners = corners.items; levels = levels.items; sinks = sinks.items })) (record { side = side; corners = corners.items; levels = levels.items; sinks = sinks.items }) }
    {
        let tiles = Tiles::new(side, corners)?;
        if levels.len() == tiles.count() {
            Some(Filled {
                tiles,
                levels,
                sinks,
            })
        } else {
            None
        }
    }

    /// The directions of all ground points, from their filled levels. Refusals are NoMemory, and Damaged if no mosaic has
    /// these filled levels.
    pub fn directions(&self) -> Result<Directions, Refusal>
        ensures found { IfOk result (λ d. (m : Mosaic) (level : Point → ℤ) → IsMosaic m
            → AreFilledLevels (terrain m) level → IsFilledOf m self.now
            → AreDirectionsOf m level d) }
        ensures refusal { IfErr result (λ r. (r ≡ NoMemory)
            ⊎ ((r ≡ Damaged) × IsOfNoMosaic self.now)) }
        ensures size { IfOk result (λ d. length d.drains ≡ length self.now.levels) }
    {
        let alloc = *self.levels.allocator();
        let tiles = self.tiles();
        let mut grid = FlowGrid::new(alloc, tiles.side());
        prepare_all(alloc, tiles, self.levels(), self.sinks(), &mut grid)?;
        if !grid.resolve_all()? {
            return Err(Refusal::Damaged);
        }
        Ok(Directions::new(grid))
    }

    fn tiles(&self) -> &Tiles
        ensures value { result.now ≡ record { side = self.now.side; corners = self.now.corners } }
        ensures valid { AreLevels self.now }
    {
        &self.tiles
    }

    fn levels(&self) -> &[i16]
        ensures { result.now ≡ self.now.levels }
    {
        &self.levels
    }

    fn sinks(&self) -> &[Point]
        ensures { result.now ≡ self.now.sinks }
    {
        &self.sinks
    }
}

// Prepares the flows of each tile.
fn prepare_all(
    alloc: Global,
    tiles: &Tiles,
    levels: &[i16],
    sinks: &[Point],
    grid: &mut FlowGrid,
) -> Result<(), AllocError>
    requires levels { AreLevels (filled_of tiles.now levels.now []) }
    requires side { grid.old.tiles.side ≡ tiles.now.side }
    requires none { grid.old.tiles.corners ≡ [] }
    ensures tiles { OnOk result (grid.new.tiles ≡ tiles.now) }
    ensures known { OnOk result (AreKnown grid.new.flows.items) }
    ensures told { OnOk result ((m : Mosaic) → IsMosaic m
        → IsFilledOf m (filled_of tiles.now levels.now sinks.now)
        → IsGridOf m grid.new.tiles grid.new.flows.items) }
{
    for tile in 0..tiles.tiles() {
        let flows = prepare_tile(alloc, tiles, levels, sinks, tile)?;
        grid.push(tiles.corner(tile), &flows)?;
    }
    Ok(())
}

// The flows of the tile in this slot, from the levels of all tiles.
fn prepare_tile(
    alloc: Global,
    tiles: &Tiles,
    levels: &[i16],
    sinks: &[Point],
    tile: usize,
) -> Result<Vec<FlowByte>, AllocError>
    requires levels { AreLevels (filled_of tiles.now levels.now []) }
    requires tile { tile < length tiles.now.corners }
    ensures whole { IfOk result (λ flows. length flows.items ≡ tiles.now.side * tiles.now.side) }
    ensures known { IfOk result (λ flows. AreKnown flows.items) }
    ensures flows { IfOk result (λ flows. (m : Mosaic) → IsMosaic m
        → IsFilledOf m (filled_of tiles.now levels.now sinks.now)
        → AreTileFlows m (slice_index_or tiles.now.corners tile no_corner) flows.items) }
{
    let corner = tiles.corner(tile);
    let padded = padded_levels(alloc, tiles, levels, tile)?;
    let flows = prepare(
        alloc,
        tiles.side(),
        corner,
        &padded,
        &sides(tiles, corner),
        sinks,
    )?;
    Ok(flows)
}
