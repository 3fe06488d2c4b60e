//! Laws of parts of a terrain, however it is divided. Each function does nothing: its contract is the law.
ghost use Rattle.water.specs.PartLaws.{LevelsFollowARing, FlatDistancesFollowARing, LevelsFollowOutlines, FlowPathsFollowExits, CountsFollowExits};

/// A part with the filled levels of a ring around its points has the filled levels of the whole terrain.
pub fn levels_follow_a_ring()
    ensures { LevelsFollowARing }
{}

/// With the ring's flat distances too, the part has the flat distances of the whole terrain.
pub fn flat_distances_follow_a_ring()
    ensures { FlatDistancesFollowARing }
{}

/// The least level at which water leaves from a shared place is the same over the outlines of parts as over all their links.
pub fn levels_follow_outlines()
    ensures { LevelsFollowOutlines }
{}

/// A flow path reaches a point exactly if pieces within one owner each do, from exit to exit.
pub fn flow_paths_follow_exits()
    ensures { FlowPathsFollowExits }
{}

/// The points that drain through a point are those that reach it, or an exit above it, over points of one owner.
pub fn counts_follow_exits()
    ensures { CountsFollowExits }
{}
