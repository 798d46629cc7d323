//! Laws of the definitions, each the contract of a function that does nothing.

ghost use Rattle.std.specs.Prelude.{◌≤◌, ℕ, ℤ, Bool, List};
ghost use Rattle.std.specs.declared.option.Option.{Option};
ghost use Rattle.cj_model.specs.declared.message.Message.{Message};
ghost use Rattle.cj_model.specs.Wire.Frames.{Frames};
ghost use Rattle.cj_cluster.specs.declared.session.SessionEnd.{SessionEnd};
ghost use Rattle.cj_desk.specs.AnsweredMessages.{AreAnsweredMessages};
ghost use Rattle.cj_desk.specs.DeskChains.{IsDeskChain, StandsOver};
ghost use Rattle.cj_desk.specs.DeskStates.{DeskCall, DeskState};
ghost use Rattle.cj_desk.specs.KeptCounts.{KeepsCount};
ghost use Rattle.cj_desk.specs.SessionTranscripts.{setting, ClientState, SessionTranscript};

use crate::desk::Desk;

/// The calls of a session are a chain of turns, from what it had seen before to what it has seen after.
pub fn transcripts_are_chains<R, K: Desk<R>, T>()
    ensures { (drawn : T → ℕ → ℕ) (later : T → ℕ → T) (moment : Option ℤ) (a : ClientState K T) (taken written : List ℕ) (ending : SessionEnd) (desk : K) (draws : T) →
        SessionTranscript (setting K.state_of K.leads_to drawn later moment) a taken written ending desk draws → IsDeskChain K.tells (K.state_of a.desk) (K.state_of desk) }
{}

/// Over a chain of turns, the session's new entries in the history are those that its calls scheduled,
/// in order and each once.
pub fn chains_stand_over_their_histories()
    ensures { (tells : Bool) (a z : DeskState) (chain : IsDeskChain tells a z) → StandsOver tells a z chain }
{}

/// The messages of a transcript are those of the one reading of the bytes taken, up to the first Quit.
pub fn transcripts_follow_the_reading<R, K: Desk<R>, T>()
    ensures { (drawn : T → ℕ → ℕ) (later : T → ℕ → T) (moment : Option ℤ) (a : ClientState K T) (taken written : List ℕ) (ending : SessionEnd) (desk : K) (draws : T) →
        (transcript : SessionTranscript (setting K.state_of K.leads_to drawn later moment) a taken written ending desk draws) → (reading : List Message) (rest : List ℕ) →
        Frames taken reading rest → AreAnsweredMessages reading ending transcript.so_far.messages }
{}

/// If a count of the desk never falls, and is no greater after a session than before, each call left it unchanged.
pub fn kept_counts_are_kept_by_each_call<R, K: Desk<R>, T>()
    ensures { (count : K → ℕ) → ((a z : K) (x : DeskCall) → K.leads_to a x z → count a ≤ count z) →
        (drawn : T → ℕ → ℕ) (later : T → ℕ → T) (moment : Option ℤ) (a : ClientState K T) (taken written : List ℕ) (ending : SessionEnd) (desk : K) (draws : T) →
        SessionTranscript (setting K.state_of K.leads_to drawn later moment) a taken written ending desk draws → count desk ≤ count a.desk →
        SessionTranscript (setting K.state_of (KeepsCount K.leads_to count) drawn later moment) a taken written ending desk draws }
{}
