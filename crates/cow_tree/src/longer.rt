//! The law of lengthened disks. The function does nothing: its contract is the law.
ghost use Rattle.cow_tree.specs.Longer.{StandsWhereLonger};

/// A lengthened disk whose first sectors are unchanged stores the same.
pub fn stands_where_longer()
    ensures { StandsWhereLonger }
{}
