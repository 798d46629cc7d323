//! Laws of the definitions, each the contract of a function that does nothing.

ghost use Rattle.std.specs.Prelude.{◌≡◌, ◌≢◌, ◌⊎◌, ℕ, ◌-◌, ◌^◌, ◌<◌};
ghost use Rattle.cj_outside.specs.Causes.{CountsFault};
ghost use Rattle.cj_args.specs.declared.asked.Command.{Command};
ghost use Rattle.cj_top.specs.Completeness.{CompletesCommand};
ghost use Rattle.cj_top.specs.Configured.{WritesRefusal};
ghost use Rattle.cj_top.specs.Logs.{Found, GoesOnIn, ReadsLog, RefusesLog, StopsAtLog, TellsRefusal};
ghost use Rattle.cj_top.specs.Runs.{ComesBy, RefusesConf, RunsCommand, RunsConfigured};

use cj_outside::{Clock, Sink, Source, Store};

/// What `run` says of a command in its clauses `runs`, `input` and `output` leaves nothing unanswered where neither
/// the input nor the output counted a fault, and the status is not 1, 7, 8 or 12. Then the configuration is refused,
/// or the command came to the end of its input: their bytes fix the status, and each message has its reply. Counts at
/// the largest `u64` are left out.
pub fn completeness_follows<F: Store, S: Store, I: Source, O: Sink, E: Sink, C: Clock>()
    ensures { (command : Command) (conf : F) (log log' : S) (input input' : I) (output output' : O) (errors errors' : E) (clock : C) (status : ℕ) →
        RunsCommand F.tells (F.held conf) (WritesRefusal (E.held errors) (E.held errors') (E.faults errors) (E.faults errors')) ((input' ≡ input) × (output' ≡ output) × (log' ≡ log)) ((input' ≡ input) × (output' ≡ output) × (errors' ≡ errors) × (log' ≡ log))
        (λ c. ComesBy command c (Found S.tells (S.held log)) (GoesOnIn S.faults S.held S.may S.tells log log') (ReadsLog S.faults S.held S.tells log log') (log' ≡ log) (StopsAtLog (RefusesLog S.faults S.held S.tells log log') (TellsRefusal (E.held errors) (E.held errors') (E.faults errors) (E.faults errors')) ((input' ≡ input) × (output' ≡ output)))
        ((input' ≡ input) × (output' ≡ output) × (errors' ≡ errors)) (C.moment clock) (I.left input) (I.left input') (O.held output) (O.held output') (E.held errors) (E.held errors') (E.faults errors) (E.faults errors') status) status →
        CountsFault (status ≡ 5) (I.faults input) (I.faults input') → CountsFault (status ≡ 6) (O.faults output) (O.faults output') →
        I.faults input' ≡ I.faults input → I.faults input < 2 ^ 64 - 1 → O.faults output' ≡ O.faults output → O.faults output < 2 ^ 64 - 1 →
        status ≢ 1 → status ≢ 7 → status ≢ 8 → status ≢ 12 →
        RefusesConf F.tells (F.held conf) (λ error. Unit {0}) (Unit {0}) status ⊎ RunsConfigured F.tells (F.held conf) (CompletesCommand command (I.left input) (O.held output) (O.held output') status) }
{}
