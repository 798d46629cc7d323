//! Laws of the definitions, each the contract of a function that does nothing.

ghost use Rattle.std.specs.Prelude.{◌≡◌, ℕ, ℤ, List, Some, true};
ghost use Rattle.cj_model.specs.declared.message.Message.{Message};
ghost use Rattle.cj_model.specs.Wire.Frames.{Frames};
ghost use Rattle.cj_cluster.specs.declared.session.SessionEnd.{SessionEnd};
ghost use Rattle.cj_desk.specs.AnsweredMessages.{is_whole_end};
ghost use Rattle.cj_desk.specs.Determinism.{IsDeterministic, NoneWantsMemory};
ghost use Rattle.cj_desk.specs.SessionTranscripts.{setting, ClientState, SessionTranscript};

use cj_desk::Desk;

/// At a deterministic desk, with a clock that tells its moment, the bytes taken determine the bytes
/// written and the desk afterwards. Sessions in which memory ran out are left out.
pub fn bytes_have_one_session_transcript<R, K: Desk<R>, T>()
    ensures { IsDeterministic K.leads_to → (drawn : T → ℕ → ℕ) (later : T → ℕ → T) (moment : ℤ) (a : ClientState K T) (taken written other : List ℕ) (ending last : SessionEnd) (desk final : K) (draws after : T) →
        (x : SessionTranscript (setting K.state_of K.leads_to drawn later (Some moment)) a taken written ending desk draws) →
        (y : SessionTranscript (setting K.state_of K.leads_to drawn later (Some moment)) a taken other last final after) →
        is_whole_end ending ≡ true → is_whole_end last ≡ true → NoneWantsMemory x.replies → NoneWantsMemory y.replies → (reading : List Message) (rest : List ℕ) → Frames taken reading rest →
        (written ≡ other) × (desk ≡ final) }
{}
