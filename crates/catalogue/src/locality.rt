//! Which tiles a block depends on. Each function does nothing: its contract is the law.
ghost use Rattle.catalogue.specs.Locality.{HeightsAreLocal, BlocksAreLocal, AdjacencyIsLocal, OutletsAreLocal};

/// The heights of a tile's points, its block and its outlets depend only on the tile, its neighbours and the sinks
/// among its points.
pub fn blocks_are_local()
    ensures heights { HeightsAreLocal }
    ensures blocks { BlocksAreLocal }
    ensures adjacency { AdjacencyIsLocal }
    ensures outlets { OutletsAreLocal }
{}
