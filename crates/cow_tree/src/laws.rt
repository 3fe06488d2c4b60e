//! Laws of what images store. Each function does nothing: its contract is the law.
ghost use Rattle.cow_tree.specs.Layout.{StandsForOne, NoTilesStand};
ghost use Rattle.cow_tree.specs.Stored.{PlanesReadBack};

/// An image stores at most one content.
pub fn images_stand_for_one()
    ensures { StandsForOne }
{}

/// Some image is that of a store just formatted, for each format and each disk with room for it.
pub fn no_tiles_stand()
    ensures { NoTilesStand }
{}

/// The bytes of a plane are read back from its pages.
pub fn planes_read_back()
    ensures { PlanesReadBack }
{}
