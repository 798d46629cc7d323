//! A law of dumps, as the contract of a function that does nothing.

ghost use Rattle.cj_backup.specs.Laws.{DumpsMayBeLoaded};

/// A dump that was taken is right for each history that goes on from there. So a dump that `backup` put onto a shelf
/// may be handed to `reenable` (`cj_replay`) at any later time.
pub fn dumps_may_be_loaded()
    ensures { DumpsMayBeLoaded }
{}
