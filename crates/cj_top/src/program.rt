//! The top call.

ghost use Rattle.std.specs.Prelude.{◌≡◌, ◌≢◌, ◌⊎◌, List, true, map, string_bytes};
ghost use Rattle.cj_outside.specs.Causes.{CountsFault, next};
ghost use Rattle.cj_outside.specs.Stores.{Only};
ghost use Rattle.cj_conf.specs.Confs.{IsUsable};
ghost use Rattle.cj_log.specs.Logs.{KeepsItems};
ghost use Rattle.cj_log.specs.declared.item.LogItem.{LogItem};
ghost use Rattle.cj_top.specs.Completeness.{GoesOnFrom};
ghost use Rattle.cj_top.specs.Configured.{WritesRefusal};
ghost use Rattle.cj_top.specs.Listed.{ComesByLog};
ghost use Rattle.cj_top.specs.Logs.{Found, GoesOnIn, ReadsLog, RefusesLog, StopsAtLog, TellsRefusal};
ghost use Rattle.cj_top.specs.Piped.{ComesByPipe};
ghost use Rattle.cj_top.specs.Program.{AsksForText, WritesText};
ghost use Rattle.cj_top.specs.Runs.{ComesBy, HasFewStatements, ReadsNoInput, RunsCommand};
ghost use Rattle.cj_top.specs.Scripted.{ComesByScript};
ghost use Rattle.cj_args.specs.Words.{AsksCommand, Says};
ghost use Rattle.cj_args.specs.declared.asked.Asked.{Asked};
ghost use Rattle.cj_args.specs.declared.asked.Command.{Command};

use crate::configured::{Unconfigured, conf_of, tell_refusal};
use crate::generated::run_gen;
use crate::listed::{run_log, status_of_listing};
use crate::piped::{PipeError, run_pipe};
use crate::refused::stop_at_log;
use crate::scripted::run_script;
use cj_args::{Asked, Command, help_text, read, version_text};
use cj_conf::Conf;
use cj_model::NoMemory;
use cj_outside::{Clock, Sink, Source, Store, write_all};
use std::alloc::Global;

/// How a run ended.
#[derive(Drop)]
pub struct Ended<S> {
    /// The exit status.
    pub status: u8,
    /// The log's store, as the run leaves it.
    pub log: S,
}

/// The command `pipe`. Why it stops at its log is told to the errors.
fn pipe_command<S: Store + Drop, I: Source, O: Sink, E: Sink, C: Clock>(
    alloc: Global,
    conf: Conf,
    log: S,
    input: &mut I,
    output: &mut O,
    errors: &mut E,
    clock: &C,
) -> Ended<S>
    requires usable { IsUsable conf }
    requires disk { S.tells ≡ true → Only (S.held log) (S.may log) }
    ensures comes { ComesByPipe conf (Found S.tells (S.held log)) (GoesOnIn S.faults S.held S.may S.tells log result.log) (StopsAtLog (RefusesLog S.faults S.held S.tells log result.log) (TellsRefusal (E.held errors.old) (E.held errors.new) (E.faults errors.old) (E.faults errors.new)) ((input.new ≡ input.old) × (output.new ≡ output.old)))
        ((input.new ≡ input.old) × (output.new ≡ output.old) × (errors.new ≡ errors.old)) (C.moment clock.now) (I.left input.old) (I.left input.new) (O.held output.old) (O.held output.new) result.status }
    ensures quiet { result.status ≢ 8 → errors.new ≡ errors.old }
    ensures log { (result.status ≡ 7) × (S.faults result.log ≡ next (S.faults log)) ⊎ (result.status ≢ 7) }
    ensures input { CountsFault (result.status ≡ 5) (I.faults input.old) (I.faults input.new) }
    ensures output { CountsFault (result.status ≡ 6) (O.faults output.old) (O.faults output.new) }
{
    match run_pipe(alloc, conf, log, input, output, clock) {
        Ok((status, log)) => Ended { status, log },
        Err((PipeError::Start(error), log)) => Ended {
            status: stop_at_log(alloc, error, errors),
            log,
        },
        Err((PipeError::SessionsFull, log)) => Ended { status: 12, log },
    }
}

/// The command `script`. Why it stops at its log is told to the errors.
fn script_command<S: Store + Drop, I: Source, O: Sink, E: Sink>(
    alloc: Global,
    conf: Conf,
    log: S,
    input: &mut I,
    output: &mut O,
    errors: &mut E,
) -> Ended<S>
    requires usable { IsUsable conf }
    requires disk { S.tells ≡ true → Only (S.held log) (S.may log) }
    ensures comes { ComesByScript conf (Found S.tells (S.held log)) (GoesOnIn S.faults S.held S.may S.tells log result.log) (StopsAtLog (RefusesLog S.faults S.held S.tells log result.log) (TellsRefusal (E.held errors.old) (E.held errors.new) (E.faults errors.old) (E.faults errors.new)) ((input.new ≡ input.old) × (output.new ≡ output.old)))
        (I.left input.old) (I.left input.new) (O.held output.old) (O.held output.new) (E.held errors.old) (E.held errors.new) (E.faults errors.old) (E.faults errors.new) result.status }
    ensures quiet { result.status ≢ 8 → result.status ≢ 10 → errors.new ≡ errors.old }
    ensures log { (result.status ≡ 7) × (S.faults result.log ≡ next (S.faults log)) ⊎ (result.status ≢ 7) }
    ensures input { CountsFault (result.status ≡ 5) (I.faults input.old) (I.faults input.new) }
    ensures output { CountsFault (result.status ≡ 6) (O.faults output.old) (O.faults output.new) }
{
    match run_script(alloc, conf, log, input, output, errors) {
        Ok((status, log)) => Ended { status, log },
        Err((error, log)) => Ended {
            status: stop_at_log(alloc, error, errors),
            log,
        },
    }
}

/// The command `log`. Why it stops at its log is told to the errors.
fn log_command<S: Store + Drop, O: Sink, E: Sink>(
    alloc: Global,
    conf: Conf,
    log: S,
    output: &mut O,
    errors: &mut E,
) -> Ended<S>
    requires { S.tells ≡ true → Only (S.held log) (S.may log) }
    ensures comes { ComesByLog conf (Found S.tells (S.held log)) (ReadsLog S.faults S.held S.tells log result.log) (StopsAtLog (RefusesLog S.faults S.held S.tells log result.log) (TellsRefusal (E.held errors.old) (E.held errors.new) (E.faults errors.old) (E.faults errors.new)) (output.new ≡ output.old)) (O.held output.old) (O.held output.new) result.status }
    ensures quiet { result.status ≢ 8 → errors.new ≡ errors.old }
    ensures log { (result.status ≡ 7) × (S.faults result.log ≡ next (S.faults log)) ⊎ (result.status ≢ 7) }
    ensures output { CountsFault (result.status ≡ 6) (O.faults output.old) (O.faults output.new) }
    ensures no_input_fault { result.status ≢ 5 }
{
    match run_log(alloc, conf, log, output) {
        Ok((status, log)) => Ended { status, log },
        Err((error, log)) => Ended {
            status: stop_at_log(alloc, error, errors),
            log,
        },
    }
}

/// Runs a command with a configuration that was accepted.
fn run_configured<S: Store + Drop, I: Source, O: Sink, E: Sink, C: Clock>(
    alloc: Global,
    command: Command,
    conf: Conf,
    log: S,
    input: &mut I,
    output: &mut O,
    errors: &mut E,
    clock: &C,
) -> Ended<S>
    requires usable { IsUsable conf }
    requires few { HasFewStatements command }
    requires disk { S.tells ≡ true → Only (S.held log) (S.may log) }
    ensures comes { ComesBy command conf (Found S.tells (S.held log)) (GoesOnIn S.faults S.held S.may S.tells log result.log) (ReadsLog S.faults S.held S.tells log result.log) (result.log ≡ log) (StopsAtLog (RefusesLog S.faults S.held S.tells log result.log) (TellsRefusal (E.held errors.old) (E.held errors.new) (E.faults errors.old) (E.faults errors.new)) ((input.new ≡ input.old) × (output.new ≡ output.old)))
        ((input.new ≡ input.old) × (output.new ≡ output.old) × (errors.new ≡ errors.old)) (C.moment clock.now) (I.left input.old) (I.left input.new) (O.held output.old) (O.held output.new) (E.held errors.old) (E.held errors.new) (E.faults errors.old) (E.faults errors.new) result.status }
    ensures unread { ReadsNoInput command → input.new ≡ input.old }
    ensures quiet { result.status ≢ 8 → result.status ≢ 10 → errors.new ≡ errors.old }
    ensures log { (result.status ≡ 7) × (S.faults result.log ≡ next (S.faults log)) ⊎ (result.status ≢ 7) }
    ensures input { CountsFault (result.status ≡ 5) (I.faults input.old) (I.faults input.new) }
    ensures output { CountsFault (result.status ≡ 6) (O.faults output.old) (O.faults output.new) }
{
    match command {
        Command::Pipe { .. } => pipe_command(alloc, conf, log, input, output, errors, clock),
        Command::Script { .. } => script_command(alloc, conf, log, input, output, errors),
        Command::Log { .. } => log_command(alloc, conf, log, output, errors),
        Command::Gen { seed, count, .. } => Ended {
            status: run_gen(alloc, conf, seed, count, output),
            log,
        },
    }
}

/// Runs a command with the configuration that its store holds.
fn run_command<F: Store, S: Store + Drop, I: Source, O: Sink, E: Sink, C: Clock>(
    alloc: Global,
    command: Command,
    conf: &mut F,
    log: S,
    input: &mut I,
    output: &mut O,
    errors: &mut E,
    clock: &C,
) -> Ended<S>
    requires few { HasFewStatements command }
    requires disk { S.tells ≡ true → Only (S.held log) (S.may log) }
    ensures runs { RunsCommand F.tells (F.held conf.old) (WritesRefusal (E.held errors.old) (E.held errors.new) (E.faults errors.old) (E.faults errors.new)) ((input.new ≡ input.old) × (output.new ≡ output.old) × (result.log ≡ log)) ((input.new ≡ input.old) × (output.new ≡ output.old) × (errors.new ≡ errors.old) × (result.log ≡ log))
        (λ c. ComesBy command c (Found S.tells (S.held log)) (GoesOnIn S.faults S.held S.may S.tells log result.log) (ReadsLog S.faults S.held S.tells log result.log) (result.log ≡ log) (StopsAtLog (RefusesLog S.faults S.held S.tells log result.log) (TellsRefusal (E.held errors.old) (E.held errors.new) (E.faults errors.old) (E.faults errors.new)) ((input.new ≡ input.old) × (output.new ≡ output.old)))
        ((input.new ≡ input.old) × (output.new ≡ output.old) × (errors.new ≡ errors.old)) (C.moment clock.now) (I.left input.old) (I.left input.new) (O.held output.old) (O.held output.new) (E.held errors.old) (E.held errors.new) (E.faults errors.old) (E.faults errors.new) result.status) result.status }
    ensures unread { ReadsNoInput command → input.new ≡ input.old }
    ensures quiet { result.status ≢ 3 → result.status ≢ 8 → result.status ≢ 10 → errors.new ≡ errors.old }
    ensures conf { F.tells ≡ true → F.held conf.new ≡ F.held conf.old }
    ensures stores { (result.status ≡ 7) × (F.faults conf.new ≡ next (F.faults conf.old)) × (S.faults result.log ≡ S.faults log) ⊎ (result.status ≡ 7) × (S.faults result.log ≡ next (S.faults log)) × (F.faults conf.new ≡ F.faults conf.old) ⊎ (result.status ≢ 7) × (F.faults conf.new ≡ F.faults conf.old) }
    ensures input { CountsFault (result.status ≡ 5) (I.faults input.old) (I.faults input.new) }
    ensures output { CountsFault (result.status ≡ 6) (O.faults output.old) (O.faults output.new) }
    ensures opens { S.tells ≡ true → (items : List LogItem) → KeepsItems (S.held log) items → GoesOnFrom command items → (result.status ≢ 8) × (result.status ≢ 12) }
{
    let configured = match conf_of(alloc, conf) {
        Ok(configured) => configured,
        Err(Unconfigured::Failed) => return Ended { status: 7, log },
        Err(Unconfigured::NoMemory) => return Ended { status: 1, log },
        Err(Unconfigured::Refused(error)) => {
            tell_refusal(alloc, &error, errors);
            return Ended { status: 3, log };
        }
    };
    run_configured(
        alloc, command, configured, log, input, output, errors, clock,
    )
}

/// Writes the text; the answer is the exit status.
fn write_text<O: Sink>(text: Result<String, NoMemory>, output: &mut O) -> u8
    ensures writes { WritesText (O.held output.old) (O.held output.new) result }
    ensures output { CountsFault (result ≡ 6) (O.faults output.old) (O.faults output.new) }
    ensures other { result ≢ 5 × result ≢ 7 }
{
    match text {
        Ok(text) => status_of_listing(write_all(output, text.as_bytes())),
        Err(_) => 1,
    }
}

/// Does all that the program does without threads, over the words after its name and what it is handed. Answers the
/// exit status, and gives the log's store back.
///
/// `pipe CONF` serves one session from the input to the output, over new backends as the configuration has them. Its
/// status is 0 where the session ended by a Quit or after a whole frame. It is 4 where the input ended inside a frame
/// or with a faulty one.
///
/// `script CONF` plays the lines of the input as moves over such backends, and writes what they come to. Its status
/// is 0 where all were played. It is 10 where a line can't be; the number of that line is then told to `errors`,
/// where that can be done.
///
/// `gen CONF --seed N --count N` plays a workload of so many statements over such backends and a log in memory, and
/// writes its summary. `log CONF` lists the items of the recovery log, whether or not they are a history's. The
/// status of both is 0 where all was written.
///
/// `pipe` and `script` begin with the recovery log: the backends replay it, and what comes is appended. `log` only
/// reads it, and the other words leave it alone. Bytes that are no log's are refused with 8, which is told to
/// `errors` where that can be done, and stay as they are. `pipe` ends with 12 where the log holds the last number of
/// a session.
///
/// Each command ends with 3 where the configuration is refused, which is told to `errors` where that can be done. It
/// ends with 5 or 6 where the input or the output failed, with 7 where the configuration's store or the log's did,
/// with 11 where 2^62 bytes were taken, and with 1 for want of memory.
///
/// `--help`, alone or behind the word of a command, and `--version` write their text: 0 where it was written whole.
/// With other words the status is 2, and nothing is touched; so too where they ask to serve a cluster.
pub fn run<F: Store, S: Store + Drop, I: Source, O: Sink, E: Sink, C: Clock>(
    alloc: Global,
    words: &[String],
    conf: &mut F,
    log: S,
    input: &mut I,
    output: &mut O,
    errors: &mut E,
    clock: &C,
) -> Ended<S>
    requires { S.tells ≡ true → Only (S.held log) (S.may log) }
    ensures runs { (command : Command) → Says (map string_bytes words.now) command → RunsCommand F.tells (F.held conf.old)
        (WritesRefusal (E.held errors.old) (E.held errors.new) (E.faults errors.old) (E.faults errors.new)) ((input.new ≡ input.old) × (output.new ≡ output.old) × (result.log ≡ log)) ((input.new ≡ input.old) × (output.new ≡ output.old) × (errors.new ≡ errors.old) × (result.log ≡ log))
        (λ c. ComesBy command c (Found S.tells (S.held log)) (GoesOnIn S.faults S.held S.may S.tells log result.log) (ReadsLog S.faults S.held S.tells log result.log) (result.log ≡ log) (StopsAtLog (RefusesLog S.faults S.held S.tells log result.log) (TellsRefusal (E.held errors.old) (E.held errors.new) (E.faults errors.old) (E.faults errors.new)) ((input.new ≡ input.old) × (output.new ≡ output.old)))
        ((input.new ≡ input.old) × (output.new ≡ output.old) × (errors.new ≡ errors.old)) (C.moment clock.now) (I.left input.old) (I.left input.new) (O.held output.old) (O.held output.new) (E.held errors.old) (E.held errors.new) (E.faults errors.old) (E.faults errors.new) result.status) result.status }
    ensures unread { (command : Command) → Says (map string_bytes words.now) command → ReadsNoInput command → input.new ≡ input.old }
    ensures text { AsksForText (map string_bytes words.now) → WritesText (O.held output.old) (O.held output.new) result.status × (conf.new ≡ conf.old) × (result.log ≡ log) × (input.new ≡ input.old) × (errors.new ≡ errors.old) }
    ensures other { ((asked : Asked) → AsksCommand (map string_bytes words.now) asked → ⊥) → (result.status ≡ 2) × (conf.new ≡ conf.old) × (result.log ≡ log) × (input.new ≡ input.old) × (output.new ≡ output.old) × (errors.new ≡ errors.old) }
    ensures quiet { result.status ≢ 3 → result.status ≢ 8 → result.status ≢ 10 → errors.new ≡ errors.old }

    // Each counted a fault exactly where its status says so: 7 is that of the configuration's store and of the log's.
    // What the errors counted at 3, 8 and 10 is above.
    ensures conf { F.tells ≡ true → F.held conf.new ≡ F.held conf.old }
    ensures stores { (result.status ≡ 7) × (F.faults conf.new ≡ next (F.faults conf.old)) × (S.faults result.log ≡ S.faults log) ⊎ (result.status ≡ 7) × (S.faults result.log ≡ next (S.faults log)) × (F.faults conf.new ≡ F.faults conf.old) ⊎ (result.status ≢ 7) × (F.faults conf.new ≡ F.faults conf.old) }
    ensures input { CountsFault (result.status ≡ 5) (I.faults input.old) (I.faults input.new) }
    ensures output { CountsFault (result.status ≡ 6) (O.faults output.old) (O.faults output.new) }

    // Statuses 8 and 12 come from the log's items alone. Those of faults are above, and what the input ended is
    // whole: from the clauses above follows what a command comes to at any other status but 1 (`laws`).
    ensures opens { S.tells ≡ true → (command : Command) → Says (map string_bytes words.now) command → (items : List LogItem) → KeepsItems (S.held log) items → GoesOnFrom command items → (result.status ≢ 8) × (result.status ≢ 12) }
{
    match read(alloc, words) {
        Ok(Some(Asked::Command(command))) => {
            run_command(alloc, command, conf, log, input, output, errors, clock)
        }
        Ok(Some(Asked::Help(topic))) => Ended {
            status: write_text(help_text(alloc, topic), output),
            log,
        },
        Ok(Some(Asked::Version)) => Ended {
            status: write_text(version_text(alloc), output),
            log,
        },
        // A cluster is served by threads, which `cj_program` has.
        Ok(Some(Asked::Serve { .. })) => Ended { status: 2, log },
        Ok(None) => Ended { status: 2, log },
        Err(NoMemory) => Ended { status: 1, log },
    }
}
