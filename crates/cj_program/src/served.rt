//! The command `serve`: a console beside sessions over the connections of a port.

ghost use Rattle.std.specs.Prelude.{◌≡◌, ◌≢◌, ◌&&◌, true, Some, OnErr, IfErr, IfOk, map, replicate, length};
ghost use Rattle.cj_outside.specs.Stores.{Only};
ghost use Rattle.cj_conf.specs.Confs.{IsUsable};
ghost use Rattle.cj_core.specs.Starts.{StartsFrom};
ghost use Rattle.cj_mem.specs.MemoryBackends.{fresh_state};
ghost use Rattle.cj_place.specs.Layouts.{placement_of};
ghost use Rattle.cj_shelf.specs.Shelves.{KeepsDumps};
ghost use Rattle.cj_served.specs.Servings.{AreDumpsOfLog, RefusesServing, status_of_serving};
ghost use Rattle.cj_top.specs.Configured.{in_memory, new_backend};
ghost use Rattle.cj_top.specs.Logs.{Found, TellsRefusal};
ghost use Rattle.cj_program.specs.Served.{ComesByServe, RunsServe, StopsAtDumps, StopsUnserved, TellsShelfRefusal, served_by};

use crate::dumps::stop_at_dumps;
use crate::program::Ended;
use cj_beside::{Beside, beside};
use cj_book::StartError;
use cj_conf::Conf;
use cj_console::ConsoleEnd;
use cj_core::Backends;
use cj_mem::MemBackend;
use cj_model::NoMemory;
use cj_outside::{Clock, Sink, Source, Store};
use cj_port::{Port, Spawner};
use cj_serve::ServeEnd;
use cj_served::{Unserved, serve_over, status_of_serving};
use cj_top::{any_backends, are_in_memory, memory_backends, parts_of, stop_at_log};
use std::alloc::Global;
use std::sync::{Arc, Wait};
use std::thread::Threads;

/// Makes so many empty backends in memory, whose contents contracts see only where they see the bytes of the dumps'
/// store.
fn backends_beside<D: Store>(
    alloc: Global,
    count: u8,
) -> Result<Backends<Beside<MemBackend, D>>, NoMemory>
    ensures { IfOk result (λ backends. map (λ b. b.inner) backends ≡ replicate count fresh_state) }
{
    beside(memory_backends(alloc, count)?)
}

/// Serves over the backends of a configuration. Answers how the console and the accepting ended.
fn serve_configured<
    S: Store + Send + Drop + 'static,
    D: Store + Send + Drop + 'static,
    I: Source + Send,
    O: Sink + Send,
    C: Clock + Send + Sync + Drop + 'static,
    R: Threads + Wait + Copy + Drop + Send + Sync + 'static,
    P: Port<R> + Send,
>(
    rt: &R,
    alloc: Global,
    conf: Conf,
    log: S,
    dumps: D,
    input: &mut I,
    output: &mut O,
    clock: &Arc<C, Global>,
    port: &mut P,
    spawner: &mut Spawner,
) -> Result<(ConsoleEnd, ServeEnd), Unserved<S, D>>
    requires usable { IsUsable conf }
    requires disk { S.tells ≡ true → Only (S.held log) (S.may log) }
    requires dumps_disk { D.tells ≡ true → Only (D.held dumps) (D.may dumps) }
    requires of_log { D.tells ≡ true → AreDumpsOfLog (Found S.tells (S.held log)) (KeepsDumps (D.held dumps)) }
    ensures runs { IfOk result (λ (console, accepting). RunsServe (served_by conf D.tells D.held D.faults) conf (Found S.tells (S.held log)) dumps (I.left input.old) (I.left input.new) (O.held output.old) (O.held output.new)
        (record { input = I.faults input.old; output = O.faults output.old; port = P.faults port.old; accepted = P.accepted port.old }) (record { input = I.faults input.new; output = O.faults output.new; port = P.faults port.new; accepted = P.accepted port.new }) (status_of_serving accepting console)) }
    ensures refused { IfErr result (RefusesServing (StartsFrom (Found S.tells (S.held log)) (placement_of conf.placement) (replicate (length conf.placement.names) (new_backend (in_memory conf && D.tells)))) S.faults S.held S.tells D.faults D.held D.tells log dumps) }
    ensures unserved { OnErr result ((input.new ≡ input.old) × (output.new ≡ output.old) × (port.new ≡ port.old)) }
{
    let (seed, connections) = (conf.seed, conf.connections);
    if are_in_memory(conf.kinds.as_slice()) {
        let Ok(backends) = backends_beside::<D>(alloc, conf.placement.count()) else {
            return Err(Unserved::Log(StartError::NoMemory, log, dumps));
        };
        let Ok(parts) = parts_of(alloc, conf) else {
            return Err(Unserved::Log(StartError::NoMemory, log, dumps));
        };
        return serve_over(
            rt,
            alloc,
            parts,
            log,
            dumps,
            backends,
            input,
            output,
            clock,
            port,
            spawner,
            seed,
            connections,
        );
    }
    let Ok(backends) = any_backends(alloc, conf.kinds.as_slice()) else {
        return Err(Unserved::Log(StartError::NoMemory, log, dumps));
    };
    let Ok(parts) = parts_of(alloc, conf) else {
        return Err(Unserved::Log(StartError::NoMemory, log, dumps));
    };
    serve_over(
        rt,
        alloc,
        parts,
        log,
        dumps,
        backends,
        input,
        output,
        clock,
        port,
        spawner,
        seed,
        connections,
    )
}

/// The command `serve` with this configuration: serves sessions over the connections of the port, and a console on the
/// streams. Answers the exit status. The stores are given back where nothing was served.
pub fn run_serve<
    S: Store + Send + Drop + 'static,
    D: Store + Send + Drop + 'static,
    I: Source + Send,
    O: Sink + Send,
    E: Sink,
    C: Clock + Send + Sync + Drop + 'static,
    R: Threads + Wait + Copy + Drop + Send + Sync + 'static,
    P: Port<R> + Send,
>(
    rt: &R,
    alloc: Global,
    conf: Conf,
    log: S,
    dumps: D,
    input: &mut I,
    output: &mut O,
    errors: &mut E,
    clock: &Arc<C, Global>,
    port: &mut P,
    spawner: &mut Spawner,
) -> Ended<S, D>
    requires usable { IsUsable conf }
    requires disk { S.tells ≡ true → Only (S.held log) (S.may log) }
    requires dumps_disk { D.tells ≡ true → Only (D.held dumps) (D.may dumps) }
    requires of_log { D.tells ≡ true → AreDumpsOfLog (Found S.tells (S.held log)) (KeepsDumps (D.held dumps)) }
    ensures comes { ComesByServe (served_by conf D.tells D.held D.faults) conf (Found S.tells (S.held log)) dumps
        (StopsUnserved S.faults S.held S.tells log result.log (result.dumps ≡ Some dumps) (TellsRefusal (E.held errors.old) (E.held errors.new) (E.faults errors.old) (E.faults errors.new)) ((input.new ≡ input.old) × (output.new ≡ output.old) × (port.new ≡ port.old)))
        (StopsAtDumps D.tells D.held D.faults dumps result.dumps (TellsShelfRefusal (E.held errors.old) (E.held errors.new) (E.faults errors.old) (E.faults errors.new)) ((input.new ≡ input.old) × (output.new ≡ output.old) × (port.new ≡ port.old)))
        ((input.new ≡ input.old) × (output.new ≡ output.old) × (port.new ≡ port.old) × (errors.new ≡ errors.old))
        (I.left input.old) (I.left input.new) (O.held output.old) (O.held output.new)
        (record { input = I.faults input.old; output = O.faults output.old; port = P.faults port.old; accepted = P.accepted port.old }) (record { input = I.faults input.new; output = O.faults output.new; port = P.faults port.new; accepted = P.accepted port.new }) result.status }
    ensures quiet { result.status ≢ 8 → errors.new ≡ errors.old }
{
    let served = serve_configured(
        rt, alloc, conf, log, dumps, input, output, clock, port, spawner,
    );
    match served {
        Ok((console, accepting)) => Ended {
            status: status_of_serving(accepting, console),
            log: None,
            dumps: None,
        },
        Err(Unserved::Log(error, log, dumps)) => Ended {
            status: stop_at_log(alloc, error, errors),
            log: Some(log),
            dumps: Some(dumps),
        },
        Err(Unserved::Dumps(error, log, dumps)) => Ended {
            status: stop_at_dumps(alloc, error, errors),
            log: Some(log),
            dumps: Some(dumps),
        },
        Err(Unserved::NoMemory) => Ended {
            status: 1,
            log: None,
            dumps: None,
        },
    }
}
