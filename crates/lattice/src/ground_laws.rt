//! Laws of ground and filled levels. Each function does nothing: its contract is the law.
ghost use Rattle.lattice.specs.GroundLaws.{TerrainsAreLawful, BlocksAreLawful, WaysOutExist, FilledLevelsExist, FilledLevelsAreUnique, HeightsMakeABlock};

/// On every mosaic adjacent points are ground and adjacent both ways, and outlets are ground.
pub fn terrains_are_lawful()
    ensures { TerrainsAreLawful }
{}

/// In the block of a tile adjacent points are ground and adjacent both ways, and outlets are ground.
pub fn blocks_are_lawful()
    ensures { BlocksAreLawful }
{}

/// Every ground point has a path to an outlet.
pub fn ways_out_exist()
    ensures { WaysOutExist }
{}

/// Every ground point has a filled level.
pub fn filled_levels_exist()
    ensures { FilledLevelsExist }
{}

/// A point has at most one filled level.
pub fn filled_levels_are_unique()
    ensures { FilledLevelsAreUnique }
{}

/// The heights of a tile's points and the indices of its sinks make the tile's block.
pub fn heights_make_a_block()
    ensures { HeightsMakeABlock }
{}
