//! Laws of the definitions, each the contract of a function that does nothing.

ghost use Rattle.cj_cluster.specs.Moves.BetweenReplies.{BeginsBetween, StaysBetween};

/// Each session is between two replies, or has not begun: at the start, and after every run of moves.
/// So its next replies are a chain of turns, wherever a list of moves begins.
pub fn sessions_stand_between_replies()
    ensures begin { BeginsBetween }
    ensures stay { StaysBetween }
{}
