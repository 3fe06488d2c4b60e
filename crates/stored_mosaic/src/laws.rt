//! Laws of what images store, and of the number of writes. Each function does nothing: its contract is the law.
ghost use Rattle.stored_mosaic.specs.PagesMet.{TwoPointsOfAPage};
ghost use Rattle.stored_mosaic.specs.Standing.{StandsForOneContents};

/// An image stores at most one contents, side and capacity.
pub fn images_stand_for_one_contents()
    ensures { StandsForOneContents }
{}

/// A second point on a page adds no write to a burn.
pub fn pages_are_written_once()
    ensures { TwoPointsOfAPage }
{}
