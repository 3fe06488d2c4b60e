//! The laws of runs and counts. Each function does nothing: its contract is the law.
ghost use Rattle.water.specs.CountLaws.{CountsAreUnique, CountsAreOfWatersheds};
ghost use Rattle.water.specs.RunsLaws.{RunsAreUnique};

/// A set of points has only one list of maximal runs, north first and then west first.
pub fn runs_are_unique()
    ensures { RunsAreUnique }
{}

/// At most one number says how many points drain through a point.
pub fn counts_are_unique()
    ensures { CountsAreUnique }
{}

/// The number of points that drain through a ground point is that of its watershed's runs.
pub fn counts_are_of_watersheds()
    ensures { CountsAreOfWatersheds }
{}
