//! Laws of the definitions, each the contract of a function that does nothing.

ghost use Rattle.std.specs.Prelude.{◌≡◌, ◌-◌, ◌^◌, ◌<◌, ℕ, ℤ, Bool, List, All, sum};
ghost use Rattle.std.specs.declared.option.Option.{Option};
ghost use Rattle.cj_cluster.specs.declared.session.SessionEnd.{SessionEnd};
ghost use Rattle.cj_cluster.specs.History.Turns.{Call};
ghost use Rattle.cj_desk.specs.SessionTranscripts.{setting, ClientState, SessionTranscript};
ghost use Rattle.cj_state.specs.Faults.{faults_of};
ghost use Rattle.cj_core.specs.QuietCalls.{BlamesNoStore, BlamesNobody, CanCountMore};
ghost use Rattle.cj_core.specs.Solos.{SoloState, SoloSteps, desk_of};
ghost use Rattle.cj_calls.specs.WorldTurns.{WorldTurn};
ghost use Rattle.cj_state.specs.Worlds.{WorldState};

/// A call's reply says that backends failed only if a backend counted a fault over the call. A
/// reply says that the log's store failed only if the store counted one. Counts at the largest
/// `u64` are left out.
pub fn quiet_calls_blame_nobody()
    ensures log { (tells : Bool) (s : ℕ) (old new : WorldState) (c : Call) → WorldTurn tells s old c new → new.recovery_log.faults ≡ old.recovery_log.faults → old.recovery_log.faults < 2 ^ 64 - 1 → BlamesNoStore c.reply }
    ensures backends { (tells : Bool) (s : ℕ) (old new : WorldState) (c : Call) → WorldTurn tells s old c new → faults_of new.cells ≡ faults_of old.cells → CanCountMore (faults_of old.cells) → BlamesNobody c.reply }
{}

/// A session's replies say that backends failed only if the backends counted a fault over the
/// session. They say that the log's store failed only if the store counted one. Counts at the
/// largest `u64` are left out.
pub fn quiet_sessions_blame_nobody<T>()
    ensures log { (tells : Bool) (drawn : T → ℕ → ℕ) (later : T → ℕ → T) (moment : Option ℤ) (a : ClientState SoloState T) (taken written : List ℕ) (ending : SessionEnd) (desk : SoloState) (draws : T) →
        (transcript : SessionTranscript (setting desk_of (SoloSteps tells) drawn later moment) a taken written ending desk draws) →
        desk.world.recovery_log.faults ≡ a.desk.world.recovery_log.faults → a.desk.world.recovery_log.faults < 2 ^ 64 - 1 → All BlamesNoStore transcript.replies }
    ensures backends { (tells : Bool) (drawn : T → ℕ → ℕ) (later : T → ℕ → T) (moment : Option ℤ) (a : ClientState SoloState T) (taken written : List ℕ) (ending : SessionEnd) (desk : SoloState) (draws : T) →
        (transcript : SessionTranscript (setting desk_of (SoloSteps tells) drawn later moment) a taken written ending desk draws) →
        sum (faults_of desk.world.cells) ≡ sum (faults_of a.desk.world.cells) → CanCountMore (faults_of a.desk.world.cells) → All BlamesNobody transcript.replies }
{}
