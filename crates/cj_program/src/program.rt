//! The top call.

ghost use Rattle.std.specs.Prelude.{◌≡◌, ◌≢◌, ◌⊎◌, List, Some, true, map, string_bytes};
ghost use Rattle.cj_outside.specs.Causes.{CountsFault, next};
ghost use Rattle.cj_outside.specs.Stores.{Only};
ghost use Rattle.cj_args.specs.Words.{AsksCommand, Says};
ghost use Rattle.cj_args.specs.declared.asked.Asked.{Asked};
ghost use Rattle.cj_args.specs.declared.asked.Command.{Command};
ghost use Rattle.cj_log.specs.Logs.{KeepsItems};
ghost use Rattle.cj_log.specs.declared.item.LogItem.{LogItem};
ghost use Rattle.cj_shelf.specs.Shelves.{KeepsDumps};
ghost use Rattle.cj_served.specs.Servings.{AreDumpsOfLog};
ghost use Rattle.cj_top.specs.Completeness.{GoesOnFrom};
ghost use Rattle.cj_top.specs.Configured.{WritesRefusal};
ghost use Rattle.cj_top.specs.Logs.{Found, GoesOnIn, ReadsLog, RefusesLog, StopsAtLog, TellsRefusal};
ghost use Rattle.cj_top.specs.Program.{AsksForText, WritesText};
ghost use Rattle.cj_top.specs.Runs.{ComesBy, ReadsNoInput, RunsCommand};
ghost use Rattle.cj_program.specs.Served.{AsksToServe, ComesByServe, StopsAtDumps, StopsUnserved, TellsShelfRefusal, served_by};

use crate::served::run_serve;
use cj_args::address_word;
use cj_outside::{Clock, Sink, Source, Store};
use cj_port::{Port, Spawner};
use cj_top::{Unconfigured, conf_of, tell_refusal};
use std::alloc::Global;
use std::sync::{Arc, Wait};
use std::thread::Threads;

/// How a run ended.
#[derive(Drop)]
pub struct Ended<S, D> {
    /// The exit status.
    pub status: u8,
    /// The log's store, as the run leaves it. None if it went to a cluster that was served.
    pub log: Option<S>,
    /// The store of the dumps, as the run leaves it. None if it went to a cluster that was served.
    pub dumps: Option<D>,
}

/// Makes the end of a run that served nothing: both stores are given back.
fn unserved<S, D>(status: u8, log: S, dumps: D) -> Ended<S, D>
    ensures { result ≡ record { status = status; log = Some log; dumps = Some dumps } }
{
    Ended {
        status,
        log: Some(log),
        dumps: Some(dumps),
    }
}

/// The command `serve` with the configuration that its store holds.
fn serve_command<
    F: Store,
    S: Store + Send + Drop + 'static,
    D: Store + Send + Drop + 'static,
    I: Source + Send,
    O: Sink + Send,
    E: Sink,
    C: Clock + Send + Sync + Drop + 'static,
    R: Threads + Wait + Copy + Drop + Send + Sync + 'static,
    P: Port<R> + Send,
>(
    rt: &R,
    alloc: Global,
    conf: &mut F,
    log: S,
    dumps: D,
    input: &mut I,
    output: &mut O,
    errors: &mut E,
    clock: &Arc<C, Global>,
    port: &mut P,
    spawner: &mut Spawner,
) -> Ended<S, D>
    requires disk { S.tells ≡ true → Only (S.held log) (S.may log) }
    requires dumps_disk { D.tells ≡ true → Only (D.held dumps) (D.may dumps) }
    requires of_log { D.tells ≡ true → AreDumpsOfLog (Found S.tells (S.held log)) (KeepsDumps (D.held dumps)) }
    ensures serves { RunsCommand F.tells (F.held conf.old) (WritesRefusal (E.held errors.old) (E.held errors.new) (E.faults errors.old) (E.faults errors.new)) ((F.faults conf.new ≡ F.faults conf.old) × (input.new ≡ input.old) × (output.new ≡ output.old) × (port.new ≡ port.old) × (result.log ≡ Some log) × (result.dumps ≡ Some dumps)) (CountsFault (result.status ≡ 7) (F.faults conf.old) (F.faults conf.new) × (input.new ≡ input.old) × (output.new ≡ output.old) × (errors.new ≡ errors.old) × (port.new ≡ port.old) × (result.log ≡ Some log) × (result.dumps ≡ Some dumps))
        (λ c. (F.faults conf.new ≡ F.faults conf.old) × ComesByServe (served_by c D.tells D.held D.faults) c (Found S.tells (S.held log)) dumps
        (StopsUnserved S.faults S.held S.tells log result.log (result.dumps ≡ Some dumps) (TellsRefusal (E.held errors.old) (E.held errors.new) (E.faults errors.old) (E.faults errors.new)) ((input.new ≡ input.old) × (output.new ≡ output.old) × (port.new ≡ port.old)))
        (StopsAtDumps D.tells D.held D.faults dumps result.dumps (TellsShelfRefusal (E.held errors.old) (E.held errors.new) (E.faults errors.old) (E.faults errors.new)) ((input.new ≡ input.old) × (output.new ≡ output.old) × (port.new ≡ port.old)))
        ((input.new ≡ input.old) × (output.new ≡ output.old) × (port.new ≡ port.old) × (errors.new ≡ errors.old))
        (I.left input.old) (I.left input.new) (O.held output.old) (O.held output.new)
        (record { input = I.faults input.old; output = O.faults output.old; port = P.faults port.old; accepted = P.accepted port.old }) (record { input = I.faults input.new; output = O.faults output.new; port = P.faults port.new; accepted = P.accepted port.new }) result.status) result.status }
    ensures quiet { result.status ≢ 3 → result.status ≢ 8 → errors.new ≡ errors.old }
    ensures conf { F.tells ≡ true → F.held conf.new ≡ F.held conf.old }
{
    let configured = match conf_of(alloc, conf) {
        Ok(configured) => configured,
        Err(Unconfigured::Failed) => return unserved(7, log, dumps),
        Err(Unconfigured::NoMemory) => return unserved(1, log, dumps),
        Err(Unconfigured::Refused(error)) => {
            tell_refusal(alloc, &error, errors);
            return unserved(3, log, dumps);
        }
    };
    run_serve(
        rt, alloc, configured, log, dumps, input, output, errors, clock, port, spawner,
    )
}

/// Does all that the program does, over the words after its name and what it is handed. Answers the exit status, and
/// gives the stores of the log and of the dumps back, unless they went to a cluster that was served.
///
/// `pipe CONF` serves one session from the input to the output, over new backends as the configuration has them. Its
/// status is 0 where the session ended by a Quit or after a whole frame. It is 4 where the input ended inside a frame
/// or with a faulty one.
///
/// `script CONF` plays the lines of the input as moves over such backends, and writes what they come to. Its status
/// is 0 where all were played. It is 10 where a line can't be; the number of that line is then told to `errors`,
/// where that can be done.
///
/// `gen CONF --seed N --count N` plays a workload of so many statements over such backends and a log in memory, and
/// writes its summary. `log CONF` lists the items of the recovery log, whether or not they are a history's. The
/// status of both is 0 where all was written.
///
/// `pipe` and `script` begin with the recovery log: the backends replay it, and what comes is appended. `log` only
/// reads it, and the other words leave it alone. Bytes that are no log's are refused with 8, which is told to
/// `errors` where that can be done, and stay as they are. `pipe` ends with 12 where the log holds the last number of
/// a session.
///
/// `serve CONF ADDR` serves a session over each connection of the port, as many as the configuration says or any
/// number. Meanwhile a console of the administrator takes commands from the input and writes their answers to the
/// output. The backends go on from the recovery log, and dumps are kept in a store of their own. Where no thread can be
/// made the console comes after the accepting. The status is 0 where all connections have come and been served and the
/// console has ended, and 9 where the port failed. Bytes that are no dumps' are refused with 8 as those of a log are.
///
/// Each command ends with 3 where the configuration is refused, which is told to `errors` where that can be done. It
/// ends with 5 or 6 where the input or the output failed, with 7 where the configuration's store, the log's or that of
/// the dumps did, with 11 where 2^62 bytes were taken, and with 1 for want of memory.
///
/// `--help`, alone or behind the word of a command, and `--version` write their text: 0 where it was written whole.
/// With other words the status is 2, and nothing is touched.
pub fn run<
    F: Store,
    S: Store + Send + Drop + 'static,
    D: Store + Send + Drop + 'static,
    I: Source + Send,
    O: Sink + Send,
    E: Sink,
    C: Clock + Send + Sync + Drop + 'static,
    R: Threads + Wait + Copy + Drop + Send + Sync + 'static,
    P: Port<R> + Send,
>(
    rt: &R,
    alloc: Global,
    words: &[String],
    conf: &mut F,
    log: S,
    dumps: D,
    input: &mut I,
    output: &mut O,
    errors: &mut E,
    clock: &Arc<C, Global>,
    port: &mut P,
    spawner: &mut Spawner,
) -> Ended<S, D>
    requires disk { S.tells ≡ true → Only (S.held log) (S.may log) }
    requires dumps_disk { D.tells ≡ true → Only (D.held dumps) (D.may dumps) }

    // Where both stores tell their bytes, the dumps are of this log. An empty store meets this.
    requires of_log { D.tells ≡ true → AreDumpsOfLog (Found S.tells (S.held log)) (KeepsDumps (D.held dumps)) }
    ensures runs { (command : Command) → Says (map string_bytes words.now) command → (after : S) × (result.log ≡ Some after) × RunsCommand F.tells (F.held conf.old)
        (WritesRefusal (E.held errors.old) (E.held errors.new) (E.faults errors.old) (E.faults errors.new)) ((input.new ≡ input.old) × (output.new ≡ output.old) × (after ≡ log)) ((input.new ≡ input.old) × (output.new ≡ output.old) × (errors.new ≡ errors.old) × (after ≡ log))
        (λ c. ComesBy command c (Found S.tells (S.held log)) (GoesOnIn S.faults S.held S.may S.tells log after) (ReadsLog S.faults S.held S.tells log after) (after ≡ log) (StopsAtLog (RefusesLog S.faults S.held S.tells log after) (TellsRefusal (E.held errors.old) (E.held errors.new) (E.faults errors.old) (E.faults errors.new)) ((input.new ≡ input.old) × (output.new ≡ output.old)))
        ((input.new ≡ input.old) × (output.new ≡ output.old) × (errors.new ≡ errors.old)) (C.moment clock.now.value) (I.left input.old) (I.left input.new) (O.held output.old) (O.held output.new) (E.held errors.old) (E.held errors.new) (E.faults errors.old) (E.faults errors.new) result.status) result.status }
    ensures serves { AsksToServe (map string_bytes words.now) → RunsCommand F.tells (F.held conf.old) (WritesRefusal (E.held errors.old) (E.held errors.new) (E.faults errors.old) (E.faults errors.new)) ((F.faults conf.new ≡ F.faults conf.old) × (input.new ≡ input.old) × (output.new ≡ output.old) × (port.new ≡ port.old) × (result.log ≡ Some log) × (result.dumps ≡ Some dumps)) (CountsFault (result.status ≡ 7) (F.faults conf.old) (F.faults conf.new) × (input.new ≡ input.old) × (output.new ≡ output.old) × (errors.new ≡ errors.old) × (port.new ≡ port.old) × (result.log ≡ Some log) × (result.dumps ≡ Some dumps))
        (λ c. (F.faults conf.new ≡ F.faults conf.old) × ComesByServe (served_by c D.tells D.held D.faults) c (Found S.tells (S.held log)) dumps
        (StopsUnserved S.faults S.held S.tells log result.log (result.dumps ≡ Some dumps) (TellsRefusal (E.held errors.old) (E.held errors.new) (E.faults errors.old) (E.faults errors.new)) ((input.new ≡ input.old) × (output.new ≡ output.old) × (port.new ≡ port.old)))
        (StopsAtDumps D.tells D.held D.faults dumps result.dumps (TellsShelfRefusal (E.held errors.old) (E.held errors.new) (E.faults errors.old) (E.faults errors.new)) ((input.new ≡ input.old) × (output.new ≡ output.old) × (port.new ≡ port.old)))
        ((input.new ≡ input.old) × (output.new ≡ output.old) × (port.new ≡ port.old) × (errors.new ≡ errors.old))
        (I.left input.old) (I.left input.new) (O.held output.old) (O.held output.new)
        (record { input = I.faults input.old; output = O.faults output.old; port = P.faults port.old; accepted = P.accepted port.old }) (record { input = I.faults input.new; output = O.faults output.new; port = P.faults port.new; accepted = P.accepted port.new }) result.status) result.status }
    ensures unread { (command : Command) → Says (map string_bytes words.now) command → ReadsNoInput command → input.new ≡ input.old }
    ensures unserved { (AsksToServe (map string_bytes words.now) → ⊥) → (result.dumps ≡ Some dumps) × (port.new ≡ port.old) }
    ensures text { AsksForText (map string_bytes words.now) → WritesText (O.held output.old) (O.held output.new) result.status × (conf.new ≡ conf.old) × (result.log ≡ Some log) × (input.new ≡ input.old) × (errors.new ≡ errors.old) }
    ensures other { ((asked : Asked) → AsksCommand (map string_bytes words.now) asked → ⊥) → (result.status ≡ 2) × (conf.new ≡ conf.old) × (result.log ≡ Some log) × (input.new ≡ input.old) × (output.new ≡ output.old) × (errors.new ≡ errors.old) }
    ensures quiet { result.status ≢ 3 → result.status ≢ 8 → result.status ≢ 10 → errors.new ≡ errors.old }

    // Where nothing is served, each counted a fault exactly where the status says so: 7 is that of the configuration's
    // store and of the log's. What the errors counted at 3, 8 and 10 is above, and so is what a serving counted.
    ensures conf { F.tells ≡ true → F.held conf.new ≡ F.held conf.old }
    ensures stores { (AsksToServe (map string_bytes words.now) → ⊥) → (after : S) × (result.log ≡ Some after) × ((result.status ≡ 7) × (F.faults conf.new ≡ next (F.faults conf.old)) × (S.faults after ≡ S.faults log) ⊎ (result.status ≡ 7) × (S.faults after ≡ next (S.faults log)) × (F.faults conf.new ≡ F.faults conf.old) ⊎ (result.status ≢ 7) × (F.faults conf.new ≡ F.faults conf.old)) }
    ensures input { (AsksToServe (map string_bytes words.now) → ⊥) → CountsFault (result.status ≡ 5) (I.faults input.old) (I.faults input.new) }
    ensures output { (AsksToServe (map string_bytes words.now) → ⊥) → CountsFault (result.status ≡ 6) (O.faults output.old) (O.faults output.new) }

    // Statuses 8 and 12 come from the log's items alone. Those of faults are above, and what the input ended is
    // whole: from the clauses above follows what a command comes to at any other status but 1 (`laws`).
    ensures opens { S.tells ≡ true → (command : Command) → Says (map string_bytes words.now) command → (items : List LogItem) → KeepsItems (S.held log) items → GoesOnFrom command items → (result.status ≢ 8) × (result.status ≢ 12) }
{
    match address_word(words) {
        Some(_) => serve_command(
            rt, alloc, conf, log, dumps, input, output, errors, clock, port, spawner,
        ),
        None => {
            let ended = cj_top::run(alloc, words, conf, log, input, output, errors, &**clock);
            Ended {
                status: ended.status,
                log: Some(ended.log),
                dumps: Some(dumps),
            }
        }
    }
}
