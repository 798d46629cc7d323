//! One session over a world of its own.

ghost use Rattle.std.specs.Prelude.{◌≡◌, ◌↔◌, ◌≤◌, ℕ, true, [], length, map, replicate, slice_index_or, IfErr, IfOk, OnErr};
ghost use Rattle.std.specs.Result.{IsOkAnd};
ghost use Rattle.cj_outside.specs.Causes.{CountsFault};
ghost use Rattle.cj_outside.specs.Stores.{Only};
ghost use Rattle.cj_model.specs.declared.limits.TheConstants.{SESSION_NUMBER_LIMIT};
ghost use Rattle.cj_cluster.specs.History.Histories.{is_free};
ghost use Rattle.cj_cluster.specs.declared.session.SessionEnd.TheVariants as ends;
ghost use Rattle.cj_conf.specs.Confs.{IsUsable};
ghost use Rattle.cj_model.specs.Cluster.Caching.{empty_cache};
ghost use Rattle.cj_state.specs.Beginnings.{AreEmpty};
ghost use Rattle.cj_state.specs.Faults.{faults_of};
ghost use Rattle.cj_state.specs.Seats.{states_of};
ghost use Rattle.cj_state.specs.Worlds.{WorldState};
ghost use Rattle.cj_core.specs.Starts.{HaveBegunNone, StartsFrom, state_by};
ghost use Rattle.cj_place.specs.Layouts.{placement_of};
ghost use Rattle.cj_top.specs.Configured.{in_memory, new_backend};
ghost use Rattle.cj_top.specs.Logs.{Found, GoesOnIn, IsLogOf};
ghost use Rattle.cj_top.specs.Piped.{RefusesPipe, RunsPipe, ServesOneSession};
ghost use Rattle.cj_top.specs.Program as top;

use crate::configured::{any_backends, are_in_memory, memory_backends, parts_of};
use cj_backend::Backend;
use cj_book::StartError;
use cj_cluster::SessionEnd;
use cj_conf::Conf;
use cj_core::{Backends, World};
use cj_desk::Desk;
use cj_mem::MemBackend;
use cj_outside::{Clock, PcgDraw, Sink, Source, Store};
use cj_replica::Cell;
use cj_session::serve_session;
use std::alloc::Global;
use thiserror::Error;

/// Why no session was served.
#[derive(Clone, Copy, Debug, PartialEq, Eq, Error)]
pub enum PipeError {
    /// The log was not opened, or memory was wanting for the world.
    #[error("{0}")]
    Start(StartError),
    /// The log holds the last number of a session.
    #[error("no session more can be opened")]
    SessionsFull,
}

/// Serves one session at the world, and closes it. It takes no memory of its own. Where no session can be opened, it
/// gives the log's store back.
fn serve_one<B: Backend + Drop, S: Store + Drop, I: Source, O: Sink, C: Clock>(
    alloc: Global,
    world: World<B, S>,
    seed: u64,
    input: &mut I,
    output: &mut O,
    clock: &C,
) -> Result<(SessionEnd, World<B, S>), (PipeError, S)>
    requires fresh { world.core.sessions ≡ [] }
    requires idle { is_free world.core.history ≡ true }
    ensures serves { IfOk result (λ (ending, last). ServesOneSession B.tells seed (C.moment clock.now) (I.left input.old) (I.left input.new) (O.held output.old) (O.held output.new) world ending last) }
    ensures full { IfErr result (λ (error, _). (error ≡ PipeError.SessionsFull) × (SESSION_NUMBER_LIMIT ≤ world.core.greatest)) }
    ensures left { IfErr result (λ (_, left). IsLogOf S.faults S.held S.may S.tells world left) }
    ensures unserved { OnErr result ((input.new ≡ input.old) × (output.new ≡ output.old)) }
    ensures input { CountsFault (IsOkAnd result (λ (ending, _). ending ≡ ends.ReadFault)) (I.faults input.old) (I.faults input.new) }
    ensures output { CountsFault (IsOkAnd result (λ (ending, _). ending ≡ ends.WriteFault)) (O.faults output.old) (O.faults output.new) }
{
    world.legal();
    let mut desk = match world.desk() {
        Ok(desk) => desk,
        Err((_, world)) => return Err((PipeError::SessionsFull, world.into_log())),
    };
    let mut draw = PcgDraw::new(seed.wrapping_add(Desk::<()>::session(&desk)));
    let end = serve_session(&(), alloc, &mut desk, input, output, clock, &mut draw);
    Ok((end, desk.close()))
}

/// One session over the input and the output, at a world of these backends and this log, as the configuration has
/// them. Gives the world back.
///
/// On an error there was no session, and the input and the output were not touched. The log's store is given back,
/// and has lost nothing. Want of memory in a session is an end of its own.
pub fn pipe<B: Backend + Drop, S: Store + Drop, I: Source, O: Sink, C: Clock>(
    alloc: Global,
    conf: Conf,
    log: S,
    backends: Backends<B>,
    input: &mut I,
    output: &mut O,
    clock: &C,
) -> Result<(SessionEnd, World<B, S>), (PipeError, S)>
    requires usable { IsUsable conf }
    requires as_many { length backends ≡ length conf.placement.names }
    requires empty { AreEmpty B.tells (map B.told backends) }
    requires none { HaveBegunNone (map B.begun backends) }
    requires disk { S.tells ≡ true → Only (S.held log) (S.may log) }
    ensures served { IfOk result (λ (ending, last). (first : WorldState) × StartsFrom (Found S.tells (S.held log)) (placement_of conf.placement) (map (state_by B.told B.faults B.asks B.login B.arming) backends) first
        × (first.setup ≡ record { names = conf.placement.names; accounts = conf.accounts }) × (first.cache ≡ empty_cache conf.cache) × (first.recovery_log.faults ≡ S.faults log)
        × ServesOneSession B.tells conf.seed (C.moment clock.now) (I.left input.old) (I.left input.new) (O.held output.old) (O.held output.new) first ending last) }
    ensures refused { IfErr result (λ (error, left). RefusesPipe S.faults S.held S.may S.tells log left (placement_of conf.placement) (map (state_by B.told B.faults B.asks B.login B.arming) backends) error) }
    ensures unserved { OnErr result ((input.new ≡ input.old) × (output.new ≡ output.old)) }
    ensures input { CountsFault (IsOkAnd result (λ (ending, _). ending ≡ ends.ReadFault)) (I.faults input.old) (I.faults input.new) }
    ensures output { CountsFault (IsOkAnd result (λ (ending, _). ending ≡ ends.WriteFault)) (O.faults output.old) (O.faults output.new) }
{
    let seed = conf.seed;
    let Ok(parts) = parts_of(alloc, conf) else {
        return Err((PipeError::Start(StartError::NoMemory), log));
    };
    let world = match World::start(alloc, parts, log, backends) {
        Ok(world) => world,
        Err((error, log)) => return Err((PipeError::Start(error), log)),
    };
    serve_one(alloc, world, seed, input, output, clock)
}

fn status_of_session(end: SessionEnd) -> u8
    ensures status { result ≡ top.status_of_session end }
    ensures read_fault { (result ≡ 5) ↔ (end ≡ ends.ReadFault) }
    ensures write_fault { (result ≡ 6) ↔ (end ≡ ends.WriteFault) }
{
    match end {
        SessionEnd::Quit | SessionEnd::Eof => 0,
        SessionEnd::NoMemory => 1,
        SessionEnd::Cut | SessionEnd::BadFrame(_) => 4,
        SessionEnd::ReadFault => 5,
        SessionEnd::WriteFault => 6,
        SessionEnd::Spent => 11,
    }
}

/// Shows that backends in memory have counted no fault.
fn show_none(cells: &[Cell<MemBackend>])
    ensures { (b : ℕ) → slice_index_or (faults_of (states_of cells.now)) b 0 ≡ 0 }
{
    for cell in cells {
        let _ = cell.backend();
    }
}

/// Gives up a world over backends in memory, by its log's store. That it is taken apart shows that they have counted
/// no fault.
fn log_over_memory<S: Store + Drop>(world: World<MemBackend, S>) -> S
    ensures left { IsLogOf S.faults S.held S.may S.tells world result }
    ensures none { (b : ℕ) → slice_index_or (faults_of world.cells) b 0 ≡ 0 }
{
    let shared = world.into_shared();
    show_none(&shared.cells);
    shared.recovery_log.legal();
    shared.recovery_log.into_log()
}

/// The command `pipe` with this configuration: serves one session over the log. Answers the exit status of its end,
/// and gives the log's store back. On an error there was no session, and the log has lost nothing.
pub fn run_pipe<S: Store + Drop, I: Source, O: Sink, C: Clock>(
    alloc: Global,
    conf: Conf,
    log: S,
    input: &mut I,
    output: &mut O,
    clock: &C,
) -> Result<(u8, S), (PipeError, S)>
    requires usable { IsUsable conf }
    requires disk { S.tells ≡ true → Only (S.held log) (S.may log) }
    ensures runs { IfOk result (λ (status, left). RunsPipe (in_memory conf) conf (Found S.tells (S.held log)) (GoesOnIn S.faults S.held S.may S.tells log left) (C.moment clock.now) (I.left input.old) (I.left input.new) (O.held output.old) (O.held output.new) status) }
    ensures refused { IfErr result (λ (error, left). RefusesPipe S.faults S.held S.may S.tells log left (placement_of conf.placement) (replicate (length conf.placement.names) (new_backend (in_memory conf))) error) }
    ensures unserved { OnErr result ((input.new ≡ input.old) × (output.new ≡ output.old)) }
    ensures input { CountsFault (IsOkAnd result (λ (status, _). status ≡ 5)) (I.faults input.old) (I.faults input.new) }
    ensures output { CountsFault (IsOkAnd result (λ (status, _). status ≡ 6)) (O.faults output.old) (O.faults output.new) }
{
    if are_in_memory(conf.kinds.as_slice()) {
        let Ok(backends) = memory_backends(alloc, conf.placement.count()) else {
            return Err((PipeError::Start(StartError::NoMemory), log));
        };
        let (end, world) = pipe(alloc, conf, log, backends, input, output, clock)?;
        return Ok((status_of_session(end), log_over_memory(world)));
    }
    let Ok(backends) = any_backends(alloc, conf.kinds.as_slice()) else {
        return Err((PipeError::Start(StartError::NoMemory), log));
    };
    let (end, world) = pipe(alloc, conf, log, backends, input, output, clock)?;
    Ok((status_of_session(end), world.into_log()))
}
