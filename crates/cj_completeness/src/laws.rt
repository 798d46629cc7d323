//! Laws of the definitions, each the contract of a function that does nothing.

ghost use Rattle.std.specs.Prelude.{◌≡◌, ◌≢◌, ◌⊎◌, ℕ, ℤ, Bool, List, Ok, Err, IfSome, Some, true};
ghost use Rattle.std.specs.declared.option.Option.{Option};
ghost use Rattle.cj_model.specs.Cluster.Placements.{Placement};
ghost use Rattle.cj_cluster.specs.declared.event.Event.{Event};
ghost use Rattle.cj_cluster.specs.declared.session.SessionEnd.{SessionEnd};
ghost use Rattle.cj_cluster.specs.declared.session.SessionEnd.TheVariants as ends;
ghost use Rattle.cj_outside.specs.Causes.{CountsFault};
ghost use Rattle.cj_place.specs.Layouts.{Layout};
ghost use Rattle.cj_board.specs.declared.view.SeatView.{SeatView};
ghost use Rattle.cj_conf.specs.declared.conf.Conf.{Conf};
ghost use Rattle.cj_conf.specs.Confs.{conf_of};
ghost use Rattle.cj_args.specs.declared.asked.Command.{Command};
ghost use Rattle.cj_desk.specs.SessionTranscripts.{setting, ClientState};
ghost use Rattle.cj_session.specs.Serving.{ServesSession};
ghost use Rattle.cj_dump.specs.declared.dump.Dump.{Dump};
ghost use Rattle.cj_shelf.specs.Shelves.{ShelfState};
ghost use Rattle.cj_return_path.specs.Dumping.{BeginsDump};
ghost use Rattle.cj_return_path.specs.Restoring.{EnablesSince, LoadsBackend, ReplaysLog};
ghost use Rattle.cj_return_path.specs.declared.restore.RestoreError.{RestoreError};
ghost use Rattle.cj_administration.specs.Administration.{ChecksSince, DisablesSince, EndsOrphanSince};
ghost use Rattle.cj_administration.specs.Auditing.{FailsAudit};
ghost use Rattle.cj_administration.specs.declared.administration.AdminError.{AdminError};
ghost use Rattle.cj_replay.specs.Reenabling.{Reenables};
ghost use Rattle.cj_replay.specs.declared.reenabling.ReplayError.{ReplayError};
ghost use Rattle.cj_backup.specs.Backups.{BacksUp};
ghost use Rattle.cj_backup.specs.declared.backing.BackupError.{BackupError};
ghost use Rattle.cj_top.specs.Completeness.{AnswersInput, CompletesCommand, is_end_by_input};
ghost use Rattle.cj_top.specs.Configured.{WritesRefusal};
ghost use Rattle.cj_top.specs.Logs.{Found, TellsRefusal};
ghost use Rattle.cj_top.specs.Runs.{RefusesConf, RunsCommand, RunsConfigured};
ghost use Rattle.cj_program.specs.Served.{ComesByServe, Counted, StopsAtDumps, StopsUnserved, TellsShelfRefusal, served_by};
ghost use Rattle.cj_completeness.specs.Serving.{CompletesServing, CountsNoFault, KeepsLog, KeepsShelf, TellsShortInput};
ghost use Rattle.cj_completeness.specs.ShownFailures.{ShowsFailed, failed_by_admin, failed_by_backup, failed_by_replay, failed_by_restore};
ghost use Rattle.cj_completeness.specs.WholeInputs.{TellsWholeInput};

use cj_desk::Desk;
use cj_outside::{Sink, Source, Store};
use cj_port::Port;

/// A session at any desk, over which neither the source nor the sink counted a fault, was ended by its input and
/// answered all of that, unless memory ran out. So each message before the first Quit has its reply, and the bytes
/// fix the end. Counts at the largest `u64` are left out.
pub fn sessions_answer_their_input<R, K: Desk<R>, I: Source, O: Sink, T>()
    ensures { (drawn : T → ℕ → ℕ) (later : T → ℕ → T) (moment : Option ℤ) (a : ClientState K T) (input input' : I) (output output' : O) (ending : SessionEnd) (desk : K) (draws : T) →
        (served : ServesSession (setting K.state_of K.leads_to drawn later moment) (I.left input) (I.left input') (O.held output) (O.held output') a ending desk draws) →
        CountsFault (ending ≡ ends.ReadFault) (I.faults input) (I.faults input') → CountsFault (ending ≡ ends.WriteFault) (O.faults output) (O.faults output') →
        CountsNoFault (I.faults input) (I.faults input') → CountsNoFault (O.faults output) (O.faults output') → ending ≢ ends.NoMemory →
        (is_end_by_input ending ≡ true) × AnswersInput served.transcript.replies (I.left input) (O.held output) (O.held output') ending }
{}

/// Whatever call of an administrator's says that a backend failed has a new fault note of it. Whatever says that the
/// log's store failed has the event of that in what the pass has seen since.
pub fn failures_show_to_administrators<D: Store>()
    ensures disable { (old new : SeatView) (b : ℕ) (error : AdminError) → DisablesSince old.front new.front b (Err error) → ShowsFailed old new (failed_by_admin error) }
    ensures checkpoint { (old new : SeatView) (name : List ℕ) (error : AdminError) → ChecksSince old.front new.front name (Err error) → ShowsFailed old new (failed_by_admin error) }
    ensures abort_orphan { (tells : Bool) (p : Placement) (old new : SeatView) (tx : ℕ) (error : AdminError) → EndsOrphanSince tells p old.front new.front tx (Err error) → ShowsFailed old new (failed_by_admin error) }
    ensures audit { (h : List Event) (old new : SeatView) (error : AdminError) → FailsAudit h old new error → ShowsFailed old new (failed_by_admin error) }
    ensures begin_dump { (tells : Bool) (l : Layout) (b : ℕ) (name : List ℕ) (old new : SeatView) (error : RestoreError) → BeginsDump tells l b name old new (Err error) → ShowsFailed old new (failed_by_restore error) }
    ensures load { (l : Layout) (b : ℕ) (d : Dump) (old new : SeatView) (error : RestoreError) → LoadsBackend l b d old new (Err error) → ShowsFailed old new (failed_by_restore error) }
    ensures replay { (b most : ℕ) (old new : SeatView) (error : RestoreError) → ReplaysLog b most old new (Err error) → ShowsFailed old new (failed_by_restore error) }
    ensures enable { (b : ℕ) (old new : SeatView) (error : RestoreError) → EnablesSince b old new (Err error) → ShowsFailed old new (failed_by_restore error) }
    ensures reenable { (l : Layout) (b : ℕ) (d : Option Dump) (old new : SeatView) (error : ReplayError) → Reenables l b d old new (Err error) → ShowsFailed old new (failed_by_replay error) }
    ensures backup { (tells kept : Bool) (l : Layout) (b : ℕ) (name : List ℕ) (old new : SeatView) (shelf now : ShelfState D) (error : BackupError) → BacksUp tells kept l b name old new shelf now (Err error) → ShowsFailed old new (failed_by_backup error) }
{}

/// A command that came to the end of its input has status 0 if it could take all of that: whole messages or a Quit,
/// or lines that can all be played, of fewer than 2^62 bytes. So where nothing failed `run` ends with 0 over such an
/// input and a configuration that is accepted, unless memory ran out or the log was refused (`completeness_follows`
/// of `cj_top`).
pub fn completed_commands_end_with_0()
    ensures { (command : Command) (left held held' : Option (List ℕ)) (status : ℕ) (c : Conf) → CompletesCommand command left held held' status c → TellsWholeInput command c.placement.names left → status ≡ 0 }
{}

/// What `run` says of words that ask to serve, in its clause `serves`, leaves nothing unanswered where no count of
/// faults rose, the log's store keeps a history, the dumps' store keeps dumps, and the status is not 1. Then the
/// configuration is refused, or its input ended the console, and as many connections came as were asked for. Counts
/// at the largest `u64` are left out.
pub fn serving_completes<F: Store, S: Store, D: Store, I: Source, O: Sink, E: Sink, R, P: Port<R>>()
    ensures { (conf conf' : F) (log : S) (dumps : D) (back : Option S) (dumps_back : Option D) (input input' : I) (output output' : O) (errors errors' : E) (port port' : P) (status : ℕ) →
        RunsCommand F.tells (F.held conf) (WritesRefusal (E.held errors) (E.held errors') (E.faults errors) (E.faults errors')) ((F.faults conf' ≡ F.faults conf) × (input' ≡ input) × (output' ≡ output) × (port' ≡ port) × (back ≡ Some log) × (dumps_back ≡ Some dumps)) (CountsFault (status ≡ 7) (F.faults conf) (F.faults conf') × (input' ≡ input) × (output' ≡ output) × (errors' ≡ errors) × (port' ≡ port) × (back ≡ Some log) × (dumps_back ≡ Some dumps))
        (λ c. (F.faults conf' ≡ F.faults conf) × ComesByServe (served_by c D.tells D.held D.faults) c (Found S.tells (S.held log)) dumps
        (StopsUnserved S.faults S.held S.tells log back (dumps_back ≡ Some dumps) (TellsRefusal (E.held errors) (E.held errors') (E.faults errors) (E.faults errors')) ((input' ≡ input) × (output' ≡ output) × (port' ≡ port)))
        (StopsAtDumps D.tells D.held D.faults dumps dumps_back (TellsShelfRefusal (E.held errors) (E.held errors') (E.faults errors) (E.faults errors')) ((input' ≡ input) × (output' ≡ output) × (port' ≡ port)))
        ((input' ≡ input) × (output' ≡ output) × (port' ≡ port) × (errors' ≡ errors))
        (I.left input) (I.left input') (O.held output) (O.held output')
        (record { input = I.faults input; output = O.faults output; port = P.faults port; accepted = P.accepted port }) (record { input = I.faults input'; output = O.faults output'; port = P.faults port'; accepted = P.accepted port' }) status) status →
        CountsNoFault (F.faults conf) (F.faults conf') → IfSome back (λ after. CountsNoFault (S.faults log) (S.faults after)) → IfSome dumps_back (λ after. CountsNoFault (D.faults dumps) (D.faults after)) →
        CountsNoFault (I.faults input) (I.faults input') → CountsNoFault (O.faults output) (O.faults output') → CountsNoFault (P.faults port) (P.faults port') →
        KeepsLog S.tells (S.held log) → KeepsShelf D.tells (D.held dumps) → status ≢ 1 →
        RefusesConf F.tells (F.held conf) (λ error. Unit {0}) (Unit {0}) status ⊎ RunsConfigured F.tells (F.held conf) (λ c. CompletesServing (served_by c D.tells D.held D.faults) c (Found S.tells (S.held log)) dumps (I.left input) (I.left input') (O.held output) (O.held output')
        (record { input = I.faults input; output = O.faults output; port = P.faults port; accepted = P.accepted port }) (record { input = I.faults input'; output = O.faults output'; port = P.faults port'; accepted = P.accepted port' }) status) }
{}

/// So the status of such a serving is 0 if the configuration is accepted and the input has fewer than 2^62 bytes.
pub fn completed_servings_end_with_0<F: Store, S: Store, D: Store>()
    ensures { (conf : F) (log : S) (dumps : D) (left left' held held' : Option (List ℕ)) (before now : Counted) (status : ℕ) →
        RefusesConf F.tells (F.held conf) (λ error. Unit {0}) (Unit {0}) status ⊎ RunsConfigured F.tells (F.held conf) (λ c. CompletesServing (served_by c D.tells D.held D.faults) c (Found S.tells (S.held log)) dumps left left' held held' before now status) →
        F.tells ≡ true → (c : Conf) → conf_of (F.held conf) ≡ Ok c → TellsShortInput left → status ≡ 0 }
{}
