//! Laws of the lattice. Each function does nothing: its contract is the law.
ghost use Rattle.lattice.specs.LatticeLaws.{EachIndexHasItsPoint, EachIndexIsOfOnePoint, EachPointHasOneIndex, HeldPointsHaveIndices, EdgesTellHolders, AtMostFourHoldAPoint};
ghost use Rattle.lattice.specs.RimPoints.{EachNumberHasARimPoint, EachNumberIsOfOneRimPoint, EachRimPointIsNumbered};
ghost use Rattle.lattice.specs.StepLaws.{NoDoubleSquare};

/// In a tile indices and points correspond one to one.
pub fn index_and_point_are_inverse()
    ensures point { EachIndexHasItsPoint }
    ensures one_point { EachIndexIsOfOnePoint }
    ensures one_index { EachPointHasOneIndex }
    ensures held { HeldPointsHaveIndices }
{}

/// A tile has the points between its edges, edges included.
pub fn edges_tell_holders()
    ensures { EdgesTellHolders }
{}

/// At most four tiles have a point.
pub fn at_most_four_hold_a_point()
    ensures { AtMostFourHoldAPoint }
{}

/// The rim points of a tile and the numbers below four times its edge correspond one to one.
pub fn rim_points_are_numbered()
    ensures rim_point { EachNumberHasARimPoint }
    ensures one_rim_point { EachNumberIsOfOneRimPoint }
    ensures number { EachRimPointIsNumbered }
{}

/// A drop over a straight step and one over a diagonal step are never equally steep.
pub fn no_double_square()
    ensures { NoDoubleSquare }
{}
