//! Laws of openings, each the contract of a function that does nothing.

ghost use Rattle.cj_recovery.specs.Openings.{ItemsFixTheOpening, OpeningsAreGood, OneBadEntry};

/// Items open to one history at most.
pub fn items_fix_the_opening()
    ensures { ItemsFixTheOpening }
{}

/// Items that open have no bad entry, and others have one at most. So `opening` answers `BadEntry` only of others.
pub fn openings_are_good()
    ensures good { OpeningsAreGood }
    ensures one { OneBadEntry }
{}
