//! Laws of the definitions, each the contract of a function that does nothing.

ghost use Rattle.std.specs.Prelude.{◌≡◌, ℕ, ℤ, Bool, List, All, Contains, true};
ghost use Rattle.std.specs.declared.option.Option.{Option};
ghost use mathlib.Core.List.{IsPrefix};
ghost use Rattle.atomic_table.specs.Table.{State};
ghost use Rattle.cj_model.specs.Cluster.Placements.{Placement};
ghost use Rattle.cj_cluster.specs.declared.event.Event.{Event};
ghost use Rattle.cj_cluster.specs.declared.session.SessionEnd.{SessionEnd};
ghost use Rattle.cj_cluster.specs.History.Histories.{failures_noted};
ghost use Rattle.cj_cluster.specs.History.Turns.{Call, SessionView, Turn};
ghost use Rattle.cj_board.specs.Points.{IsKeptBoard};
ghost use Rattle.cj_board.specs.declared.view.SeatView.{SeatView};
ghost use Rattle.cj_replica.specs.Seated.{IsSeated, SeatedCell};
ghost use Rattle.cj_book.specs.BookLogs.{BookLogState, HasCountedLogFaults, LogFollows};
ghost use Rattle.cj_desk.specs.SessionTranscripts.{setting, ClientState, SessionTranscript};
ghost use Rattle.cj_causes.specs.Failures.{CoverBlames, FailedTurn, HaveBeenCounted, IsViewAt, ToldByTurn, tells_of_failure};

use cj_desk::Desk;
use cj_outside::Store;

/// A turn is answered 40 only if its entry was scheduled and no target finished it. It is answered 41 only if each
/// backend that serves the query failed in it, and 42 only if the log's store failed and nothing was scheduled.
pub fn turns_fail_in_three_ways()
    ensures { (tells : Bool) (p : Placement) (s : ℕ) (a : SessionView) (c : Call) (z : SessionView) → Turn tells p s a c z → tells_of_failure c.reply ≡ true → FailedTurn tells p s a c z }
{}

/// Over a session at any desk each reply 40, 41 and 42 is that of a turn which failed. Failures of a backend were
/// noted at least as often as the replies blame it, and so were those of the log's store.
pub fn sessions_are_told_of_failed_turns<R, K: Desk<R>, T>()
    ensures told { (drawn : T → ℕ → ℕ) (later : T → ℕ → T) (moment : Option ℤ) (a : ClientState K T) (taken written : List ℕ) (ending : SessionEnd) (desk : K) (draws : T) →
        (transcript : SessionTranscript (setting K.state_of K.leads_to drawn later moment) a taken written ending desk draws) →
        All (λ reply. tells_of_failure reply ≡ true → ToldByTurn K.tells (K.state_of a.desk) (K.state_of desk) reply) transcript.replies }
    ensures covered { (drawn : T → ℕ → ℕ) (later : T → ℕ → T) (moment : Option ℤ) (a : ClientState K T) (taken written : List ℕ) (ending : SessionEnd) (desk : K) (draws : T) →
        (transcript : SessionTranscript (setting K.state_of K.leads_to drawn later moment) a taken written ending desk draws) →
        CoverBlames (K.state_of a.desk).seen.front (K.state_of desk).seen.front transcript.replies }
{}

/// At each moment of a board a backend has counted a fault, since it took its seat, for each failure that any seat
/// has seen noted, and as many as any fault note of it says. The log's store has counted one, since the opening, for
/// each failure of it. A count at the largest `u64` ends that.
pub fn failures_have_faults<S: Store>()
    ensures backends { (n : ℕ) (s : State Event SeatView) → IsKeptBoard n s → (tells : Bool) (c : SeatedCell) → IsSeated tells c → IsViewAt s c.view → (v : SeatView) → IsViewAt s v → HaveBeenCounted (failures_noted v.front c.state.b) c.faults_before c.state.faults }
    ensures notes { (n : ℕ) (s : State Event SeatView) → IsKeptBoard n s → (tells : Bool) (c : SeatedCell) → IsSeated tells c → IsViewAt s c.view → (v : SeatView) → IsViewAt s v → (noted : ℕ) → Contains v.fault_notes (c.state.b, noted) → HaveBeenCounted noted c.faults_before c.state.faults }
    ensures log { (l : BookLogState S) (h F : List Event) → LogFollows S.tells S.faults l h → IsPrefix F h → HasCountedLogFaults F l.faults_at_opening (S.faults l.log.store) }
{}
