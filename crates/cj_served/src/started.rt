//! The start of a cluster that is served.

ghost use Rattle.std.specs.Prelude.{◌≡◌, ◌≢◌, ◌↔◌, ◌+◌, ◌≤◌, true, length, map, vec_capacity, IfErr, IfOk, OnErr};
ghost use Rattle.std.specs.Result.{IsOkAnd};
ghost use Rattle.cj_outside.specs.Causes.{CountsFault};
ghost use Rattle.cj_outside.specs.Stores.{Only};
ghost use Rattle.cj_model.specs.declared.limits.TheConstants.{BACKEND_LIMIT};
ghost use Rattle.cj_model.specs.Cluster.Caching.{empty_cache};
ghost use Rattle.cj_board.specs.Seats.{board_id, pass_board};
ghost use Rattle.cj_core.specs.Starts.{HaveBegunNone, StartsFrom, state_by};
ghost use Rattle.cj_log.specs.Logs.{KeepsItems};
ghost use Rattle.cj_place.specs.Layouts.{placement_of};
ghost use Rattle.cj_shelf.specs.Shelves.{KeepsDumps};
ghost use Rattle.cj_state.specs.Beginnings.{AreEmpty};
ghost use Rattle.cj_state.specs.Worlds.{WorldState};
ghost use Rattle.cj_board.specs.declared.view.SeatView.{SeatView};
ghost use Rattle.cj_console.specs.Answers.{AreRightDumps, Standing};
ghost use Rattle.cj_console.specs.Chats.{ChatsTo};
ghost use Rattle.cj_console.specs.declared.chat.ConsoleEnd.TheVariants as ends;
ghost use Rattle.cj_control.specs.Starting.{AreOfStarted};
ghost use Rattle.cj_served.specs.Servings.{AreDumpsOfLog, ChatsFrom, RefusesServing};

use crate::serving::chat_and_serve;
use cj_backend::Backend;
use cj_book::StartError;
use cj_console::ConsoleEnd;
use cj_control::Control;
use cj_core::{Backends, Parts, Shared, World};
use cj_model::{BACKEND_LIMIT, NoMemory};
use cj_outside::{Clock, Sink, Source, Store};
use cj_pass::Naming;
use cj_port::{Port, Spawner};
use cj_serve::{ServeEnd, start_workers};
use cj_shelf::{Shelf, ShelfError};
use std::alloc::Global;
use std::marker::Brand;
use std::sync::ledger::Blank;
use std::sync::{Arc, Wait};
use std::thread::Threads;

/// Why a cluster was not served. Each variant hands back the stores that there are.
#[derive(Drop)]
pub enum Unserved<S, D> {
    /// The log was not opened, or memory ran out for the world. The store of the dumps was not touched.
    Log(StartError, S, D),
    /// The world has started, and the store of the dumps was not opened.
    Dumps(ShelfError, S, D),
    /// Memory ran out once both were opened.
    NoMemory,
}

/// Puts a started world behind locks, and serves it.
fn serve_at<
    J: Naming + Send + Sync + 'static,
    B: Backend + Send + Drop + 'static,
    S: Store + Send + Drop + 'static,
    D: Store + Send + Drop,
    I: Source + Send,
    O: Sink + Send,
    C: Clock + Send + Sync + Drop + 'static,
    R: Threads + Wait + Copy + Drop + Send + Sync + 'static,
    P: Port<R> + Send,
>(
    rt: &R,
    alloc: Global,
    shared: Shared<B, S>,
    blank: Blank,
    shelf: &mut Shelf<D>,
    input: &mut I,
    output: &mut O,
    clock: &Arc<C, Global>,
    port: &mut P,
    spawner: &mut Spawner,
    seed: u64,
    connections: u64,
) -> Result<(ConsoleEnd, ServeEnd), NoMemory>
where
    B::Snap: Send + 'static,
    requires world { AreOfStarted B.tells S.tells S.faults (board_id shared.board) (pass_board shared.pass) shared.book shared.recovery_log shared.cells.items shared.accounts shared.dumps }
    requires board { board_id shared.board ≡ J.board }
    requires layout { shared.book.state.layout ≡ J.layout }
    requires turn { (blank.name ≡ J.turn) × (blank.parts ≡ 1) }
    requires tells { J.tells ≡ B.tells }
    requires emptied { (length shared.emptied.items ≡ 0) × (BACKEND_LIMIT ≤ vec_capacity shared.emptied) }
    requires kept { B.tells ≡ true → D.tells ≡ true }
    requires dumps { AreRightDumps B.tells shared.book.state.history shelf.old.dumps }
    ensures chats { IfOk result (λ (console, _). (view : SeatView) × (last : Standing _) × (view.front ≡ shared.book.state.history) × ChatsTo (record { tells = B.tells; kept = D.tells; layout = shared.book.state.layout; held = D.held; faults = D.faults }) (I.left input.old) (I.left input.new) (O.held output.old) (O.held output.new) (record { view = view; shelf = shelf.old }) console last) }
    ensures unserved { OnErr result ((input.new ≡ input.old) × (output.new ≡ output.old) × (port.new ≡ port.old)) }
    ensures input { CountsFault (IsOkAnd result (λ (console, _). console ≡ ends.ReadFault)) (I.faults input.old) (I.faults input.new) }
    ensures output { CountsFault (IsOkAnd result (λ (console, _). console ≡ ends.WriteFault)) (O.faults output.old) (O.faults output.new) }
    ensures done { IfOk result (λ (_, accepting). (accepting ≡ ServeEnd.Done) ↔ ((P.accepted port.new ≡ P.accepted port.old + connections) × (connections ≢ 0))) }
    ensures port { CountsFault (IsOkAnd result (λ (_, accepting). accepting ≡ ServeEnd.PortFault)) (P.faults port.old) (P.faults port.new) }
{
    let Ok((control, mut pass)) = Control::<J, B, S>::start(alloc, shared, blank) else {
        return Err(NoMemory);
    };
    let control = Arc::new(alloc, control)?;
    let mut crew = Spawner::new(alloc, BACKEND_LIMIT as usize);
    // A backend that has no worker is served by who writes.
    let _ = start_workers(rt, alloc, &control, &mut crew);
    let ends = chat_and_serve(
        rt,
        alloc,
        &control,
        &mut pass,
        shelf,
        input,
        output,
        clock,
        port,
        spawner,
        seed,
        connections,
    );
    crew.join_all(rt);
    Ok(ends)
}

/// Starts a world of these parts and backends from the log, opens the shelf of the dumps' store, and has a console chat
/// on the streams while sessions are served over so many connections of the port, 0 for any number. Returns how the
/// console and the accepting ended.
///
/// The dumps that the store keeps are of this log. On an error neither the streams nor the port were touched.
pub fn serve_over<
    B: Backend + Send + Drop + 'static,
    S: Store + Send + Drop + 'static,
    D: Store + Send + Drop,
    I: Source + Send,
    O: Sink + Send,
    C: Clock + Send + Sync + Drop + 'static,
    R: Threads + Wait + Copy + Drop + Send + Sync + 'static,
    P: Port<R> + Send,
>(
    rt: &R,
    alloc: Global,
    parts: Parts,
    log: S,
    dumps: D,
    backends: Backends<B>,
    input: &mut I,
    output: &mut O,
    clock: &Arc<C, Global>,
    port: &mut P,
    spawner: &mut Spawner,
    seed: u64,
    connections: u64,
) -> Result<(ConsoleEnd, ServeEnd), Unserved<S, D>>
where
    B::Snap: Send + 'static,
    requires as_many { length backends ≡ length parts.book.placement.names }
    requires registered { parts.accounts.backends ≡ length parts.book.placement.names }
    requires empty { AreEmpty B.tells (map B.told backends) }
    requires none { HaveBegunNone (map B.begun backends) }
    requires cache { parts.book.cache ≡ empty_cache parts.book.cache.capacity }
    requires disk { S.tells ≡ true → Only (S.held log) (S.may log) }
    requires dumps_disk { D.tells ≡ true → Only (D.held dumps) (D.may dumps) }
    requires kept { B.tells ≡ true → D.tells ≡ true }
    requires of_log { B.tells ≡ true → AreDumpsOfLog (λ items. S.tells ≡ true → KeepsItems (S.held log) items) (KeepsDumps (D.held dumps)) }
    ensures served { IfOk result (λ (console, _). (first : WorldState) × StartsFrom (λ items. S.tells ≡ true → KeepsItems (S.held log) items) (placement_of parts.book.placement) (map (state_by B.told B.faults B.asks B.login B.arming) backends) first
        × (first.setup ≡ record { names = parts.book.placement.names; accounts = parts.accounts }) × (first.cache ≡ parts.book.cache)
        × ChatsFrom (record { tells = B.tells; kept = D.tells; layout = parts.book.placement; held = D.held; faults = D.faults }) dumps (I.left input.old) (I.left input.new) (O.held output.old) (O.held output.new) first console) }
    ensures refused { IfErr result (RefusesServing (StartsFrom (λ items. S.tells ≡ true → KeepsItems (S.held log) items) (placement_of parts.book.placement) (map (state_by B.told B.faults B.asks B.login B.arming) backends)) S.faults S.held S.tells D.faults D.held D.tells log dumps) }
    ensures unserved { OnErr result ((input.new ≡ input.old) × (output.new ≡ output.old) × (port.new ≡ port.old)) }
    ensures input { CountsFault (IsOkAnd result (λ (console, _). console ≡ ends.ReadFault)) (I.faults input.old) (I.faults input.new) }
    ensures output { CountsFault (IsOkAnd result (λ (console, _). console ≡ ends.WriteFault)) (O.faults output.old) (O.faults output.new) }
    ensures done { IfOk result (λ (_, accepting). (accepting ≡ ServeEnd.Done) ↔ ((P.accepted port.new ≡ P.accepted port.old + connections) × (connections ≢ 0))) }
    ensures port { CountsFault (IsOkAnd result (λ (_, accepting). accepting ≡ ServeEnd.PortFault)) (P.faults port.old) (P.faults port.new) }
{
    let world = match World::start(alloc, parts, log, backends) {
        Ok(world) => world,
        Err((error, log)) => return Err(Unserved::Log(error, log, dumps)),
    };
    let mut shelf = match Shelf::open(alloc, dumps) {
        Ok(shelf) => shelf,
        Err((error, dumps)) => return Err(Unserved::Dumps(error, world.into_log(), dumps)),
    };
    let shared = world.into_shared();
    let served = serve_at::<Brand, B, S, D, I, O, C, R, P>(
        rt,
        alloc,
        shared,
        Blank::new(1),
        &mut shelf,
        input,
        output,
        clock,
        port,
        spawner,
        seed,
        connections,
    );
    match served {
        Ok(ends) => Ok(ends),
        Err(NoMemory) => Err(Unserved::NoMemory),
    }
}
