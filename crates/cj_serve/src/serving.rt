//! Accepting connections.

ghost use Rattle.std.specs.Prelude.{◌≡◌, ◌≢◌, ◌↔◌, ◌+◌, Some, IsNone, IfSome};
ghost use Rattle.cj_outside.specs.Causes.{CountsFault};
ghost use Rattle.cj_cluster.specs.History.Legality.{IsLegal};
ghost use Rattle.cj_board.specs.Seats.{front, pass_view};
ghost use Rattle.cj_pass.specs.Passes.{HasNotedMore};

use crate::connection::Connection;
use cj_backend::Backend;
use cj_control::Control;
use cj_outside::{Clock, Store};
use cj_pass::{Naming, Pass};
use cj_port::{Port, Spawner, Task};
use std::alloc::Global;
use std::sync::{Arc, Wait};
use std::thread::Threads;

/// How the accepting of connections ended.
#[derive(Clone, Copy, Debug, PartialEq, Eq)]
pub enum ServeEnd {
    /// As many connections came as were asked for.
    Done,
    /// The port failed, and counted a fault.
    PortFault,
    NoMemory,
}

/// What all connections share.
#[derive(Drop)]
struct Service<'a, J: Naming, B: Backend, S: Store, C> {
    alloc: Global,
    control: &'a Arc<Control<J, B, S>, Global>,
    clock: &'a Arc<C, Global>,
    seed: u64,
}

impl<
    'a,
    J: Naming + Send + Sync + 'static,
    B: Backend + Send + Drop + 'static,
    S: Store + Send + Drop + 'static,
    C: Clock + Send + Sync + Drop + 'static,
> Service<'a, J, B, S, C>
where
    B::Snap: Send + 'static,
{
    /// Accepts one connection, and has its session served, or serves it if there is no thread for it. Memory is taken
    /// before, so that none is accepted in vain.
    fn next<R: Threads + Wait + Copy + Drop + Send + 'static, P: Port<R>>(
        &self,
        rt: &R,
        pass: &mut Pass<J>,
        port: &mut P,
        spawner: &mut Spawner,
    ) -> Option<ServeEnd>
        ensures given { IsNone result → P.accepted port.new ≡ P.accepted port.old + 1 }
        ensures none { IfSome result (λ end. P.accepted port.new ≡ P.accepted port.old) }
        ensures ends { result ≢ Some ServeEnd.Done }
        ensures cause { CountsFault (result ≡ Some ServeEnd.PortFault) (P.faults port.old) (P.faults port.new) }
        ensures same { pass_view pass.new.seat ≡ pass_view pass.old.seat }
    {
        let (Ok(control), Ok(clock)) = (Arc::try_clone(self.control), Arc::try_clone(self.clock))
        else {
            return Some(ServeEnd::NoMemory);
        };
        let Ok((input, output)) = port.accept(rt) else {
            return Some(ServeEnd::PortFault);
        };
        let job = Connection {
            alloc: self.alloc,
            control,
            pass: self.control.split(pass),
            clock,
            seed: self.seed,
            input,
            output,
        };
        if let Err(job) = spawner.start(rt, job) {
            job.go(rt);
        }
        None
    }

    /// Accepts so many connections.
    fn accept_some<R: Threads + Wait + Copy + Drop + Send + 'static, P: Port<R>>(
        &self,
        rt: &R,
        pass: &mut Pass<J>,
        port: &mut P,
        spawner: &mut Spawner,
        connections: u64,
    ) -> ServeEnd
        ensures done { (result ≡ ServeEnd.Done) ↔ (P.accepted port.new ≡ P.accepted port.old + connections) }
        ensures cause { CountsFault (result ≡ ServeEnd.PortFault) (P.faults port.old) (P.faults port.new) }
        ensures same { pass_view pass.new.seat ≡ pass_view pass.old.seat }
    {
        for _ in 0..connections {
            if let Some(end) = self.next(rt, pass, port, spawner) {
                return end;
            }
        }
        ServeEnd::Done
    }

    /// Accepts connections until the port fails or memory runs out.
    fn accept_all<R: Threads + Wait + Copy + Drop + Send + 'static, P: Port<R>>(
        &self,
        rt: &R,
        pass: &mut Pass<J>,
        port: &mut P,
        spawner: &mut Spawner,
    ) -> ServeEnd
        ensures ends { result ≢ ServeEnd.Done }
        ensures cause { CountsFault (result ≡ ServeEnd.PortFault) (P.faults port.old) (P.faults port.new) }
        ensures same { pass_view pass.new.seat ≡ pass_view pass.old.seat }
    {
        for _ in rt.forever() {
            if let Some(end) = self.next(rt, pass, port, spawner) {
                return end;
            }
        }
        unreachable!()
    }
}

/// Accepts so many connections, or any number if that is 0, and has a session served over each, in a thread of its own.
/// Then it waits until all have ended.
///
/// A connection for which there is no thread is served by the accepting thread, which accepts nobody until that
/// connection ends. After the last connection came, the workers of the backends end. Each session has its own caller,
/// its own pass, and random numbers of the seed with its number added. A client that gets no session is sent a refusal:
/// 46 with the greatest session number if none is left, and 43 if memory ran out.
///
/// `PortFault` is a fault that the port counted. `NoMemory` comes before a connection is accepted. At each end all
/// sessions that were begun have ended, and the pass has what it had.
pub fn serve<
    J: Naming + Send + Sync + 'static,
    B: Backend + Send + Drop + 'static,
    S: Store + Send + Drop + 'static,
    C: Clock + Send + Sync + Drop + 'static,
    R: Threads + Wait + Copy + Drop + Send + 'static,
    P: Port<R>,
>(
    rt: &R,
    alloc: Global,
    control: &Arc<Control<J, B, S>, Global>,
    pass: &mut Pass<J>,
    port: &mut P,
    spawner: &mut Spawner,
    clock: &Arc<C, Global>,
    seed: u64,
    connections: u64,
) -> ServeEnd
where
    B::Snap: Send + 'static,
    ensures done { (result ≡ ServeEnd.Done) ↔ ((P.accepted port.new ≡ P.accepted port.old + connections) × (connections ≢ 0)) }
    ensures cause { CountsFault (result ≡ ServeEnd.PortFault) (P.faults port.old) (P.faults port.new) }
    ensures more { HasNotedMore (pass_view pass.old.seat) (pass_view pass.new.seat) }
    ensures legal { IsLegal (front pass.old.seat) → IsLegal (front pass.new.seat) }
{
    let service = Service {
        alloc,
        control,
        clock,
        seed,
    };
    let end = if connections == 0 {
        service.accept_all(rt, pass, port, spawner)
    } else {
        service.accept_some(rt, pass, port, spawner, connections)
    };
    control.stop_workers();
    spawner.join_all(rt);
    end
}
