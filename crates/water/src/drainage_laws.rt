//! Laws of drainage. Each function does nothing: its contract is the law.
ghost use Rattle.water.specs.DrainageLaws.{DistancesAreUnique, DirectionsAreUnique, FlowPathsAreUnique, WatershedsFollowFlowPaths};

/// Each ground point has exactly one flat distance.
pub fn flat_distances_are_unique()
    ensures { DistancesAreUnique }
{}

/// Each ground point has exactly one direction, or drains off the mosaic.
pub fn directions_are_unique()
    ensures { DirectionsAreUnique }
{}

/// Each ground point has exactly one flow path, which ends off the mosaic.
pub fn flow_paths_are_unique()
    ensures { FlowPathsAreUnique }
{}

/// A point is in a watershed exactly if it is ground and its flow path contains the watershed's point.
pub fn watersheds_follow_flow_paths()
    ensures { WatershedsFollowFlowPaths }
{}
