//! Laws of the effect of a command. Each function does nothing: its contract is the law.
ghost use Rattle.edits.specs.EffectLaws.{BoxesHaveVoidPoints, CommandsMakeMosaics, CommandsKeepTheSide, CommandsKeepTheCapacity, UntouchedTilesStay, StaleTilesArePresent, StaleTilesAreInOrder, FreshHeightsStay, FreshSinksStay, FreshBlocksStay};
ghost use Rattle.edits.specs.Sinks.{SinksMakeMosaics, SinksLeaveMosaics};

/// An accepted command makes a mosaic with the same side, and with at most as many tiles as are allowed.
pub fn commands_make_mosaics()
    ensures mosaic { CommandsMakeMosaics }
    ensures side { CommandsKeepTheSide }
    ensures capacity { CommandsKeepTheCapacity }
{}

/// A tile that a command doesn't touch stays the same.
pub fn untouched_tiles_stay()
    ensures { UntouchedTilesStay }
{}

/// The tiles that are stale after a command are present ones, in the order of tiles.
pub fn stale_tiles_are_present()
    ensures present { StaleTilesArePresent }
    ensures in_order { StaleTilesAreInOrder }
{}

/// A tile that a command doesn't make stale keeps its block: the heights of its points, and which of them are sinks.
pub fn fresh_blocks_stay()
    ensures heights { FreshHeightsStay }
    ensures sinks { FreshSinksStay }
    ensures blocks { FreshBlocksStay }
{}

/// A patch is refused as NothingVoid by a test of samples of present tiles. The test finds one exactly if some point of
/// the box is void.
pub fn boxes_have_void_points()
    ensures { BoxesHaveVoidPoints }
{}

/// Declaring or removing a sink makes a mosaic with the same tiles.
pub fn sinks_make_mosaics()
    ensures declared { SinksMakeMosaics }
    ensures taken { SinksLeaveMosaics }
{}
