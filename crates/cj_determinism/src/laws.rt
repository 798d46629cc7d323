//! Laws of the definitions, each the contract of a function that does nothing.

ghost use Rattle.std.specs.Prelude.{◌≡◌, ℕ, ℤ, Bool, List, None, Some, true};
ghost use Rattle.cj_model.specs.declared.message.Message.{Message};
ghost use Rattle.cj_model.specs.Wire.Frames.{Frames};
ghost use Rattle.cj_cluster.specs.declared.session.SessionEnd.{SessionEnd};
ghost use Rattle.cj_desk.specs.AnsweredMessages.{is_whole_end};
ghost use Rattle.cj_desk.specs.Determinism.{NoneWantsMemory};
ghost use Rattle.cj_desk.specs.SessionTranscripts.{client_state, setting, ClientState, SessionTranscript};
ghost use Rattle.cj_core.specs.Solos.{SoloState, SoloSteps, desk_of};
ghost use Rattle.cj_determinism.specs.AlikeDesks.{AreClientsAlike, ShowsTheSame, StayAlike};
ghost use Rattle.cj_state.specs.Worlds.{IsWorld, WorldState};
ghost use Rattle.cj_model.specs.Cluster.Placements.{Placement};
ghost use Rattle.cj_log.specs.declared.item.LogItem.{LogItem};
ghost use Rattle.cj_determinism.specs.QuietStarts.{StartsQuietly, first_session};
ghost use Rattle.cj_determinism.specs.QuietSolos.{PassesQuietly, QuietSteps, view_of};

use cj_desk::Desk;

/// Of desks a view shows enough: desks of which it shows the same stay so, asked the same. Then
/// sessions that begin alike write the same for the same bytes, if the clock shows both the same
/// moment. Sessions in which memory ran out are left out.
pub fn sessions_at_alike_desks_write_the_same<R, K: Desk<R>, V, T>()
    ensures { (view : K → V) → StayAlike (ShowsTheSame view) K.state_of K.leads_to → (drawn : T → ℕ → ℕ) (later : T → ℕ → T) (moment : ℤ) (a b : ClientState K T) (taken written other : List ℕ) (ending last : SessionEnd) (desk final : K) (draws after : T) →
        (x : SessionTranscript (setting K.state_of K.leads_to drawn later (Some moment)) a taken written ending desk draws) →
        (y : SessionTranscript (setting K.state_of K.leads_to drawn later (Some moment)) b taken other last final after) →
        AreClientsAlike (ShowsTheSame view) a b → is_whole_end ending ≡ true → is_whole_end last ≡ true → NoneWantsMemory x.replies → NoneWantsMemory y.replies → (reading : List Message) (rest : List ℕ) → Frames taken reading rest → written ≡ other }
{}

/// Where backends tell what they hold, quiet calls of a `Solo` leave worlds alike that were: what
/// its desk looks like, with all that it has seen, and its result cache.
pub fn quiet_calls_keep_solos_alike()
    ensures { StayAlike (ShowsTheSame view_of) desk_of (QuietSteps true) }
{}

/// Where backends tell what they hold, quiet sessions of a `Solo` that begin alike write the same
/// for the same bytes, if the clock shows both the same moment. Sessions in which memory ran out
/// are left out.
pub fn quiet_sessions_write_the_same<T>()
    ensures { (drawn : T → ℕ → ℕ) (later : T → ℕ → T) (moment : ℤ) (a b : ClientState SoloState T) (taken written other : List ℕ) (ending last : SessionEnd) (desk final : SoloState) (draws after : T) →
        (x : SessionTranscript (setting desk_of (SoloSteps true) drawn later (Some moment)) a taken written ending desk draws) →
        (y : SessionTranscript (setting desk_of (SoloSteps true) drawn later (Some moment)) b taken other last final after) →
        AreClientsAlike (ShowsTheSame view_of) a b → PassesQuietly a.desk.world desk.world → PassesQuietly b.desk.world final.world →
        is_whole_end ending ≡ true → is_whole_end last ≡ true → NoneWantsMemory x.replies → NoneWantsMemory y.replies → (reading : List Message) (rest : List ℕ) → Frames taken reading rest → written ≡ other }
{}

/// Quiet starts over a log of the same items lead to worlds at which the first session begins
/// alike, if the worlds' setups and result caches are the same.
pub fn quiet_starts_look_alike()
    ensures { (tells : Bool) (p : Placement) (items : List LogItem) (v w : WorldState) → IsWorld tells v → IsWorld tells w → StartsQuietly p items v → StartsQuietly p items w → v.setup ≡ w.setup → v.cache ≡ w.cache → ShowsTheSame view_of (first_session v) (first_session w) }
{}

/// What the first session at a world writes is a function of the log's items, the placement, the
/// setup, the result cache, the draws, the clock's moment and the bytes taken, if the start and the
/// session are quiet. Sessions in which memory ran out are left out.
pub fn quiet_first_sessions_write_the_same<T>()
    ensures { (p : Placement) (items : List LogItem) (v w : WorldState) → IsWorld true v → IsWorld true w → StartsQuietly p items v → StartsQuietly p items w → v.setup ≡ w.setup → v.cache ≡ w.cache →
        (drawn : T → ℕ → ℕ) (later : T → ℕ → T) (moment : ℤ) (draws : T) (taken written other : List ℕ) (ending last : SessionEnd) (desk final : SoloState) (one two : T) →
        (x : SessionTranscript (setting desk_of (SoloSteps true) drawn later (Some moment)) (client_state None (first_session v) draws) taken written ending desk one) →
        (y : SessionTranscript (setting desk_of (SoloSteps true) drawn later (Some moment)) (client_state None (first_session w) draws) taken other last final two) →
        PassesQuietly (first_session v).world desk.world → PassesQuietly (first_session w).world final.world →
        is_whole_end ending ≡ true → is_whole_end last ≡ true → NoneWantsMemory x.replies → NoneWantsMemory y.replies → (reading : List Message) (rest : List ℕ) → Frames taken reading rest → written ≡ other }
{}
