//! Laws of calls. Each function does nothing: its contract is the law.
ghost use Rattle.engine.specs.CommandLaws.{CommandsComeToTheirEffects};

/// A run of commands, each accepted or refused by its tests, ends at the mosaic after these commands, with the accepted
/// ones counted.
pub fn commands_come_to_their_effects()
    ensures { CommandsComeToTheirEffects }
{}
