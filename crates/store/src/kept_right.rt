//! The law of the planes that a store keeps. The function does nothing: its contract is the law.
ghost use Rattle.store.specs.KeptRight.{PlanesStayRight};

use disk::Disk;

/// After any events that a store answered, each kept pair of levels and labels is a valid labelling of its tile's block in the
/// present mosaic. The tiles without such a pair are the stale ones.
pub fn planes_stay_right<D: Disk>()
    ensures { PlanesStayRight D.Disk }
{}
