//! A script over backends that can be armed.

ghost use Rattle.std.specs.Prelude.{◌≡◌, ◌↔◌, ◌≤◌, ◌≢◌, ℕ, true, length, map, slice_index_or, IfErr, IfOk, IsErrOf, MatchResult, OnErr, string_bytes};
ghost use Rattle.std.specs.Result.{IsOkAnd};
ghost use Rattle.cj_conf.specs.Confs.{IsUsable};
ghost use Rattle.cj_outside.specs.Causes.{CountsFault};
ghost use Rattle.cj_outside.specs.Streams.{WritesAll};
ghost use Rattle.cj_script.specs.Script.{CameTo, InTurns};
ghost use Rattle.cj_script.specs.declared.play.ScriptEnd.TheVariants as ends;
ghost use Rattle.cj_state.specs.ArmedCells.{armings_of};
ghost use Rattle.cj_state.specs.Faults.{faults_of};
ghost use Rattle.cj_state.specs.Seats.{states_of};
ghost use Rattle.cj_state.specs.Worlds.{WorldState};
ghost use Rattle.cj_outside.specs.Stores.{Only};
ghost use Rattle.cj_core.specs.Starts.{state_by};
ghost use Rattle.cj_top.specs.Configured.{AreNew, BeginsAsConfigured, in_memory};
ghost use Rattle.cj_top.specs.Logs.{Found, GoesOnIn, IsLogOf, RefusesLog};
ghost use Rattle.cj_top.specs.Program as top;
ghost use Rattle.cj_top.specs.Scripted.{HasFailedOnlyArmed, NamesLine, PlaysAsConfigured, RunsScript, line_text};

use crate::configured::{any_backends, are_in_memory, flaky, memory_backends, parts_of};
use cj_backend::Backend;
use cj_book::StartError;
use cj_conf::Conf;
use cj_core::{Backends, World};
use cj_flaky::Armable;
use cj_mem::MemBackend;
use cj_model::NoMemory;
use cj_outside::{OutError, Sink, Source, Store, write_all};
use cj_replica::Cell;
use cj_script::{ScriptEnd, script};
use std::alloc::Global;

/// Starts a world over the log, of these new backends as the configuration has them. Each can be armed then. On an
/// error the log's store is given back, and has lost nothing.
pub fn flaky_world<B: Backend + Drop, S: Store + Drop>(
    alloc: Global,
    conf: Conf,
    log: S,
    backends: Backends<B>,
) -> Result<World<Armable<B>, S>, (StartError, S)>
    requires usable { IsUsable conf }
    requires new { AreNew B.tells (length conf.placement.names) (map (state_by B.told B.faults B.asks B.login B.arming) backends) (map B.begun backends) }
    requires disk { S.tells ≡ true → Only (S.held log) (S.may log) }
    ensures begins { IfOk result (BeginsAsConfigured B.tells conf (Found S.tells (S.held log))) }
    ensures counts { IfOk result (λ world. world.recovery_log.faults ≡ S.faults log) }
    ensures refused { IfErr result (λ (error, left). RefusesLog S.faults S.held S.tells log left error) }
{
    let Ok(backends) = flaky(alloc, backends) else {
        return Err((StartError::NoMemory, log));
    };
    let Ok(parts) = parts_of(alloc, conf) else {
        return Err((StartError::NoMemory, log));
    };
    World::start(alloc, parts, log, backends)
}

/// Plays the lines of the input on a world of these backends over the log, and gives the world back.
fn play_over<B: Backend + Drop, S: Store + Drop, I: Source, O: Sink>(
    alloc: Global,
    conf: Conf,
    log: S,
    backends: Backends<B>,
    input: &mut I,
    output: &mut O,
) -> Result<(ScriptEnd, World<Armable<B>, S>), (StartError, S)>
    requires usable { IsUsable conf }
    requires new { AreNew B.tells (length conf.placement.names) (map (state_by B.told B.faults B.asks B.login B.arming) backends) (map B.begun backends) }
    requires disk { S.tells ≡ true → Only (S.held log) (S.may log) }
    ensures played { IfOk result (λ (end, last). (first : WorldState) × BeginsAsConfigured B.tells conf (Found S.tells (S.held log)) first × (first.recovery_log.faults ≡ S.faults log)
        × CameTo B.tells true first.setup.names (I.left input.old) (I.left input.new) (O.held output.old) (O.held output.new) first end last × InTurns B.tells first.setup.names (I.left input.old) (I.left input.new) (O.held output.old) (O.held output.new) first last) }
    ensures refused { IfErr result (λ (error, left). RefusesLog S.faults S.held S.tells log left error) }
    ensures unbegun { OnErr result ((input.new ≡ input.old) × (output.new ≡ output.old)) }
    ensures input { CountsFault (IsOkAnd result (λ (end, _). end ≡ ends.ReadFault)) (I.faults input.old) (I.faults input.new) }
    ensures output { CountsFault (IsOkAnd result (λ (end, _). end ≡ ends.WriteFault)) (O.faults output.old) (O.faults output.new) }
{
    let mut world = flaky_world(alloc, conf, log, backends)?;
    let end = script(alloc, &mut world, input, output);
    Ok((end, world))
}

/// Shows that no backend in memory has failed more often than it was armed.
fn show_armed(cells: &[Cell<Armable<MemBackend>>])
    ensures { (b : ℕ) → slice_index_or (faults_of (states_of cells.now)) b 0 ≤ slice_index_or (armings_of (states_of cells.now)) b 0 }
{
    for cell in cells {
        cell.backend().legal();
    }
}

/// Gives up a world over backends in memory, by its log's store. That it is taken apart shows that none of them has
/// failed more often than it was armed.
fn log_over_memory<S: Store + Drop>(world: World<Armable<MemBackend>, S>) -> S
    ensures left { IsLogOf S.faults S.held S.may S.tells world result }
    ensures armed { HasFailedOnlyArmed world }
{
    let shared = world.into_shared();
    show_armed(&shared.cells);
    shared.recovery_log.legal();
    shared.recovery_log.into_log()
}

/// Plays the lines of the input on a world of new backends, as the configuration has them, over the log, and writes
/// what they come to. Gives the log's store back.
///
/// On an error the script has not begun, and the log has lost nothing. Want of memory in a script is an end of its
/// own.
pub fn play<S: Store + Drop, I: Source, O: Sink>(
    alloc: Global,
    conf: Conf,
    log: S,
    input: &mut I,
    output: &mut O,
) -> Result<(ScriptEnd, S), (StartError, S)>
    requires usable { IsUsable conf }
    requires disk { S.tells ≡ true → Only (S.held log) (S.may log) }
    ensures played { IfOk result (λ (end, left). PlaysAsConfigured (in_memory conf) conf (Found S.tells (S.held log)) (GoesOnIn S.faults S.held S.may S.tells log left) (I.left input.old) (I.left input.new) (O.held output.old) (O.held output.new) end) }
    ensures refused { IfErr result (λ (error, left). RefusesLog S.faults S.held S.tells log left error) }
    ensures unbegun { OnErr result ((input.new ≡ input.old) × (output.new ≡ output.old)) }
    ensures input { CountsFault (IsOkAnd result (λ (end, _). end ≡ ends.ReadFault)) (I.faults input.old) (I.faults input.new) }
    ensures output { CountsFault (IsOkAnd result (λ (end, _). end ≡ ends.WriteFault)) (O.faults output.old) (O.faults output.new) }
{
    if are_in_memory(conf.kinds.as_slice()) {
        let Ok(backends) = memory_backends(alloc, conf.placement.count()) else {
            return Err((StartError::NoMemory, log));
        };
        let (end, world) = play_over(alloc, conf, log, backends, input, output)?;
        return Ok((end, log_over_memory(world)));
    }
    let Ok(backends) = any_backends(alloc, conf.kinds.as_slice()) else {
        return Err((StartError::NoMemory, log));
    };
    let (end, world) = play_over(alloc, conf, log, backends, input, output)?;
    Ok((end, world.into_log()))
}

fn line_words(alloc: Global, number: u64) -> Result<String, NoMemory>
    ensures { IfOk result (λ text. string_bytes text ≡ line_text number) }
{
    Ok(format!(in alloc; "line {number}\n")?)
}

fn write_name<E: Sink>(alloc: Global, number: u64, errors: &mut E) -> Result<(), OutError>
    ensures bytes { WritesAll (E.held errors.old) (E.held errors.new) (line_text number) result }
    ensures cause { CountsFault (IsErrOf result OutError.Failed) (E.faults errors.old) (E.faults errors.new) }
{
    match line_words(alloc, number) {
        Ok(text) => write_all(errors, text.as_bytes()),
        Err(_) => Err(OutError::NoMemory),
    }
}

/// Tells the errors the number of the line that can't be played, where the script ended with one. Where they fail,
/// nothing else changes.
fn name_line<E: Sink>(alloc: Global, end: ScriptEnd, errors: &mut E)
    ensures named { NamesLine (E.held errors.old) (E.held errors.new) (E.faults errors.old) (E.faults errors.new) end }
    ensures other { top.status_of_script end ≢ 10 → errors.new ≡ errors.old }
{
    if let ScriptEnd::Line(number) = end {
        let _ = write_name(alloc, number, errors);
    }
}

fn status_of_script(end: ScriptEnd) -> u8
    ensures status { result ≡ top.status_of_script end }
    ensures read_fault { (result ≡ 5) ↔ (end ≡ ends.ReadFault) }
    ensures write_fault { (result ≡ 6) ↔ (end ≡ ends.WriteFault) }
{
    match end {
        ScriptEnd::Done => 0,
        ScriptEnd::Line(_) => 10,
        ScriptEnd::ReadFault => 5,
        ScriptEnd::WriteFault => 6,
        ScriptEnd::Spent => 11,
        ScriptEnd::NoMemory => 1,
    }
}

/// The command `script` with this configuration: plays the input over the log. Answers the exit status of its end,
/// and gives the log's store back. On an error nothing was played, and the log has lost nothing.
pub fn run_script<S: Store + Drop, I: Source, O: Sink, E: Sink>(
    alloc: Global,
    conf: Conf,
    log: S,
    input: &mut I,
    output: &mut O,
    errors: &mut E,
) -> Result<(u8, S), (StartError, S)>
    requires usable { IsUsable conf }
    requires disk { S.tells ≡ true → Only (S.held log) (S.may log) }
    ensures runs { IfOk result (λ (status, left). RunsScript conf (Found S.tells (S.held log)) (GoesOnIn S.faults S.held S.may S.tells log left) (I.left input.old) (I.left input.new) (O.held output.old) (O.held output.new) (E.held errors.old) (E.held errors.new) (E.faults errors.old) (E.faults errors.new) status) }
    ensures refused { IfErr result (λ (error, left). RefusesLog S.faults S.held S.tells log left error) }
    ensures unbegun { OnErr result ((input.new ≡ input.old) × (output.new ≡ output.old)) }
    ensures quiet { MatchResult result (λ (status, _). status ≢ 10 → errors.new ≡ errors.old) (λ _. errors.new ≡ errors.old) }
    ensures input { CountsFault (IsOkAnd result (λ (status, _). status ≡ 5)) (I.faults input.old) (I.faults input.new) }
    ensures output { CountsFault (IsOkAnd result (λ (status, _). status ≡ 6)) (O.faults output.old) (O.faults output.new) }
{
    let (end, log) = play(alloc, conf, log, input, output)?;
    name_line(alloc, end, errors);
    Ok((status_of_script(end), log))
}
